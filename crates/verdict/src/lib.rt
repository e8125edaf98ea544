// The verdict on a plan of an accepted roster, with the vote against its rival and the rival's bytes.
#![tactic(auto)]

ghost use Rattle.std.specs.Prelude.{◌≤◌, length, ◌≡◌, cond};
ghost use Rattle.model.specs.Limits.{plan_size, pairing_size};
ghost use Rattle.model.specs.Plans.{Plan, verdict_of, is_strong};
ghost use Rattle.theory_instance.specs.Lawful.{Matching};
ghost use Rattle.arrays.specs.ArrayInstance.{flag};
ghost use Rattle.instance.specs.Decoded.{shown_by};
ghost use Rattle.instance.specs.Loaded.{Loaded};
ghost use Rattle.plan_lookup.specs.PlanEdges as edges;
ghost use Rattle.rival_verdict.specs.Judged.{is_beaten};
ghost use Rattle.verdict.specs.Weighing.{Shows, WeighedFor, RivalFor, PairedFor};
ghost use Rattle.verdict.specs.RivalWritten.{Voted};
ghost use Rattle.answers.specs.declared.Verdict.TheVariants.{Popular, Beaten};

use answers::Verdict;
use arrays::ListedPlan;
use instance::Instance;
use limits::ENTRY_LIMIT;
use plan_lookup::Listed;
use rival_verdict::Standing;

// the verdict, whether there is a rival, and where there is one its flags and the list of its edges
#[derive(Drop)]
pub struct WithRival {
    pub verdict: Verdict,
    pub rivalled: bool,
    pub rival: [bool; ENTRY_LIMIT],
    pub listed: Listed,
}

// The rival, whose edges are listed, in bytes at the buffer's front, and the vote of the plan against it.
pub(crate) fn voted(
    g: Instance,
    plan: &[bool; ENTRY_LIMIT],
    n: usize,
    es: &[u16; 64],
    rival: &[bool; ENTRY_LIMIT],
    listed: Listed,
    out: &mut [u8],
) -> i16
    requires { Loaded g × Matching (shown_by g) (flag plan.now) × Matching (shown_by g) (flag rival.now)
        × edges.Listed g.m plan.now n es.now × edges.Listed g.m rival.now listed.n listed.edges × (plan_size ≤ length out.old) }
    ensures { Voted (shown_by g) plan.now rival.now out.old result out.new }
{
    let sv = g.sv;
    let st = g.st;
    let sh = g.sh;
    let re = listed.edges;
    plan_writer::write_plan(listed.n, &re, &sv, &st, &sh, &mut *out);
    let of = ListedPlan {
        has: plan,
        n,
        edges: es,
    };
    let against = ListedPlan {
        has: rival,
        n: listed.n,
        edges: &re,
    };
    let both = vote_plans::plan_votes(&g, &of, &against);
    both.first
}

// The verdict on a plan that has a rival: by whether that beats it, with the vote against it.
pub(crate) fn verdict_with(standing: Standing, vote: i16) -> Verdict
    ensures { result ≡ cond (is_beaten standing) (Beaten vote) (Popular vote) }
{
    match standing {
        Standing::Beaten => Verdict::Beaten(vote),
        _ => Verdict::Popular(vote),
    }
}

// A plan within the quotas, and the list of its edges.
pub fn weighed(
    g: Instance,
    plan: &[bool; ENTRY_LIMIT],
    n: usize,
    es: &[u16; 64],
    out: &mut [u8],
) -> WithRival
    requires { Loaded g × ((M : Plan) × Shows (shown_by g) plan.now M) × edges.Listed g.m plan.now n es.now × (plan_size ≤ length out.old) }
    ensures weighed_for { WeighedFor (shown_by g) plan.now out.old result.verdict out.new }
    ensures rival_for { RivalFor (shown_by g) plan.now result.rivalled result.rival result.listed.n result.listed.edges }
{
    let of = ListedPlan {
        has: plan,
        n,
        edges: es,
    };
    let j = rival_verdict::judge(&g, &of);
    let rival = j.rival;
    if let Standing::Strong = j.standing {
        return WithRival {
            verdict: Verdict::Strong,
            rivalled: false,
            rival: rival,
            listed: Listed {
                n: 0,
                edges: [0; 64],
            },
        };
    }
    let listed = plan_lookup::list_edges(g.m, &rival);
    let edges = listed.edges;
    let again = Listed {
        n: listed.n,
        edges: edges,
    };
    let vote = voted(g, plan, n, es, &rival, again, out);
    WithRival {
        verdict: verdict_with(j.standing, vote),
        rivalled: true,
        rival: rival,
        listed: listed,
    }
}

// Whether a plan within the quotas is strong, for a caller who asks for no rival.
pub fn is_strong(g: Instance, plan: &[bool; ENTRY_LIMIT], n: usize, es: &[u16; 64]) -> bool
    requires { Loaded g × ((M : Plan) × Shows (shown_by g) plan.now M) × edges.Listed g.m plan.now n es.now }
    ensures { (M : Plan) → Shows (shown_by g) plan.now M → result ≡ is_strong (verdict_of (shown_by g) M) }
{
    let of = ListedPlan {
        has: plan,
        n,
        edges: es,
    };
    let j = rival_verdict::judge(&g, &of);
    match j.standing {
        Standing::Strong => true,
        _ => false,
    }
}

// The verdict alone, for the finder.
pub fn weigh(
    g: Instance,
    plan: &[bool; ENTRY_LIMIT],
    n: usize,
    es: &[u16; 64],
    out: &mut [u8],
) -> Verdict
    requires { Loaded g × ((M : Plan) × Shows (shown_by g) plan.now M) × edges.Listed g.m plan.now n es.now × (plan_size ≤ length out.old) }
    ensures { WeighedFor (shown_by g) plan.now out.old result out.new }
{
    let w = weighed(g, plan, n, es, out);
    w.verdict
}

// The verdict with the pairings of the vote against the rival (W-208) in a second buffer; "a strong verdict writes none".
pub fn weigh_paired(
    g: Instance,
    plan: &[bool; ENTRY_LIMIT],
    n: usize,
    es: &[u16; 64],
    out: &mut [u8],
    pairings: &mut [u8],
) -> Verdict
    requires loaded { Loaded g × ((M : Plan) × Shows (shown_by g) plan.now M) × edges.Listed g.m plan.now n es.now × (plan_size ≤ length out.old) }
    requires pairing_size_in_bounds { pairing_size ≤ length pairings.old }
    ensures weighed_for { WeighedFor (shown_by g) plan.now out.old result out.new }
    ensures paired_for { PairedFor (shown_by g) plan.now pairings.old pairings.new }
{
    let w = weighed(g, plan, n, es, out);
    if w.rivalled {
        let rival = w.rival;
        let re = w.listed.edges;
        let of = ListedPlan {
            has: plan,
            n,
            edges: es,
        };
        let against = ListedPlan {
            has: &rival,
            n: w.listed.n,
            edges: &re,
        };
        vote_pairings::plan_pairings(&g, &of, &against, pairings);
    }
    w.verdict
}
