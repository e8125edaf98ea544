// The held plan when the roster changes: its bytes without the pairs of one surveyor, who leaves. No surveyor has number 0, so that with 0
// all pairs stay.
#![tactic(auto)]

ghost use Rattle.std.specs.Prelude.{◌≤◌, false};
ghost use Rattle.model.specs.Limits.{node_limit, entry_limit};
ghost use Rattle.arrays.specs.Passes.{Low, Shows};
ghost use Rattle.instance.specs.Decoded.{shown_by};
ghost use Rattle.instance.specs.Loaded.{Loaded};
ghost use Rattle.plan_carried.specs.Remaining.{Few, CarriedFor, stays};

use instance::Instance;
use limits::{ENTRY_LIMIT, PAIR_WIDTH, PLAN_SIZE};

// a plan's bytes, at the front of an array, since memory is fixed
#[derive(Drop)]
pub struct CarriedPlan {
    pub len: usize,
    pub bytes: [u8; PLAN_SIZE],
}

// the edges of a plan whose surveyor has another number
pub(crate) fn besides(
    m: usize,
    sv: &[u8; ENTRY_LIMIT],
    plan: &[bool; ENTRY_LIMIT],
    number: u8,
) -> [bool; ENTRY_LIMIT]
    requires { (m ≤ entry_limit) × Low m sv.now node_limit }
    ensures { Shows false result m (stays sv.now plan.now number) }
{
    let mut kept = [false; ENTRY_LIMIT];
    for e in 0..m {
        kept[e] = plan[e] & !(sv[e] + 1 == number);
    }
    kept
}

// the bytes of the pairs that remain of a plan within the quotas
pub fn carried(g: Instance, plan: &[bool; ENTRY_LIMIT], number: u8) -> CarriedPlan
    requires { Loaded g × Few g.m plan.now }
    ensures { CarriedFor (shown_by g) plan.now number result }
{
    let kept = besides(g.m, &g.sv, plan, number);
    let mut bytes = [0u8; PLAN_SIZE];
    let l = plan_lookup::list_edges(g.m, &kept);
    plan_writer::write_plan(l.n, &l.edges, &g.sv, &g.st, &g.sh, &mut bytes);
    CarriedPlan {
        len: bytes[0] as usize * PAIR_WIDTH + 1,
        bytes,
    }
}
