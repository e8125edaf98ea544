// The finder on the arrays of an accepted roster: the reduction with its trace; then the pairs left, or, with none left, the candidate with its verdict.
#![tactic(auto)]

ghost use Rattle.std.specs.Prelude.{◌≤◌, length};
ghost use Rattle.model.specs.Limits.{plan_size, left_size};
ghost use Rattle.instance.specs.Loaded.{Loaded};
ghost use Rattle.instance.specs.Decoded.{shown_by};
ghost use Rattle.finder_run.specs.Finding.{Finds};
ghost use Rattle.model.specs.Plans.{Plan};
ghost use Rattle.verdict.specs.Weighing.{Shows};
ghost use Rattle.finder_run.specs.EndReached.{Ends};

use answers::{Found, NoneKind};
use instance::Instance;
use limits::ENTRY_LIMIT;
use reduction_state::Trace;

// "If pairs remain when no rule acts, the answer is none, left, with those pairs"
pub fn ended(
    g: Instance,
    rem: &[bool; ENTRY_LIMIT],
    fixed: &[bool; ENTRY_LIMIT],
    steps: usize,
    left: &mut [u8],
    plan: &mut [u8],
    rival: &mut [u8],
) -> Found
    requires { Loaded g × ((M : Plan) × Shows (shown_by g) fixed.now M) × (left_size ≤ length left.old) × (plan_size ≤ length plan.old)
        × (plan_size ≤ length rival.old) }
    ensures { Ends g rem.now fixed.now steps left.old plan.old rival.old result left.new
        plan.new rival.new }
{
    let k = plan_writer::write_pairs(g.m, &g.sv, &g.st, &g.sh, rem, &mut *left);
    if 0 < k {
        return Found::None(steps, NoneKind::Left(k));
    }
    finder_candidate::judged(g, fixed, steps, plan, rival)
}

// What the finder answers, and the trace of its steps.
#[derive(Drop)]
pub struct Outcome {
    pub answer: Found,
    pub trace: Trace,
}

// The finder: the trace, and what each kind of answer writes.
pub fn find(g: Instance, left: &mut [u8], plan: &mut [u8], rival: &mut [u8]) -> Outcome
    requires { Loaded g × (left_size ≤ length left.old) × (plan_size ≤ length plan.old) × (plan_size ≤ length rival.old) }
    ensures { Finds (shown_by g) left.old plan.old rival.old result
        left.new plan.new rival.new }
{
    let reduced = reduction_run::reduce(&g);
    let state = reduced.state;
    let trace = reduced.trace;
    let answer = ended(g, &state.rem, &state.fixed, trace.steps, left, plan, rival);
    Outcome {
        answer: answer,
        trace: trace,
    }
}
