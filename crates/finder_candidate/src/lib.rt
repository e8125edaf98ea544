// The candidate with its verdict: the plan that the fixed pairs are, written, weighed and answered.
#![tactic(auto)]

ghost use Rattle.std.specs.Prelude.{◌≤◌, length};
ghost use Rattle.model.specs.Limits.{plan_size};
ghost use Rattle.model.specs.Plans.{Plan};
ghost use Rattle.instance.specs.Loaded.{Loaded};
ghost use Rattle.instance.specs.Decoded.{shown_by};
ghost use Rattle.verdict.specs.Weighing.{Shows};
ghost use Rattle.finder_candidate.specs.FoundBuffers.{Judges};

use answers::{Found, NoneKind, Verdict};
use instance::Instance;
use limits::ENTRY_LIMIT;

// "Otherwise the fixed pairs are the candidate: strong gives the plan; else none, rivalled": after so many steps.
pub fn judged(
    g: Instance,
    fixed: &[bool; ENTRY_LIMIT],
    steps: usize,
    plan: &mut [u8],
    rival: &mut [u8],
) -> Found
    requires { Loaded g × ((M : Plan) × Shows (shown_by g) fixed.now M) × (plan_size ≤ length plan.old) × (plan_size ≤ length rival.old) }
    ensures { Judges g fixed.now steps plan.old rival.old result plan.new rival.new }
{
    let m = g.m;
    let sv = g.sv;
    let st = g.st;
    let l = plan_lookup::list_edges(m, fixed);
    let es = l.edges;
    let sh = g.sh;
    plan_writer::write_plan(l.n, &es, &sv, &st, &sh, &mut *plan);
    let w = verdict::weigh(g, fixed, l.n, &es, &mut *rival);
    match w {
        Verdict::Strong => Found::Plan(steps),
        Verdict::Popular(v) => Found::None(steps, NoneKind::Rivalled(v)),
        Verdict::Beaten(v) => Found::None(steps, NoneKind::Rivalled(v)),
    }
}
