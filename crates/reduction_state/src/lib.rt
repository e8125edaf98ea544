// The state of a run of the reduction: what remains, what is fixed, and by node the cut quotas and the numbers of remaining edges, which a step
// renews at the two ends of its edge; and the trace of a run, an edge and a rule for each step. The state is lent to a step, which changes it in place.
#![tactic(auto)]

ghost use Rattle.std.specs.Prelude.{◌≡◌, ℕ, ◌-◌, ◌≤◌, ◌<◌, min, ltb};
ghost use mir.Val.{bool_byte};
ghost use Rattle.model.specs.Reduction as reduction;
ghost use Rattle.theory_reduction.specs.RuleNumbers as numbers;
ghost use Rattle.arrays.specs.ArrayInstance.{at, flag};
ghost use Rattle.arrays.specs.Passes.{Low};
ghost use Rattle.arrays.specs.Tally.{Tally};
ghost use Rattle.arrays.specs.Filled.{Made};
ghost use Rattle.model.specs.Limits.{node_limit, entry_limit};
ghost use Rattle.reduction_state.specs.RunState.{acted, told, Started};

use instance::Instance;
use limits::ENTRY_LIMIT;

// The arrays of a state: remaining and fixed edges; by node, the cut quotas and the numbers of remaining edges.
#[derive(Drop)]
pub struct State {
    pub rem: [bool; ENTRY_LIMIT],
    pub fixed: [bool; ENTRY_LIMIT],
    pub qs: [u16; 32],
    pub qt: [u16; 32],
    pub ds: [u16; 32],
    pub dt: [u16; 32],
}

// The arrows of a state: the edges that have one from their surveyor, and those that have one from their stand.
#[derive(Drop)]
pub struct Arrows {
    pub surveyors: [bool; ENTRY_LIMIT],
    pub stands: [bool; ENTRY_LIMIT],
}

// The trace of a run: the edges and the rules of its steps, in front of the arrays.
#[derive(Drop)]
pub struct Trace {
    pub edges: [u16; ENTRY_LIMIT],
    pub rules: [u8; ENTRY_LIMIT],
    pub steps: usize,
}

// All edges.
pub fn all(m: usize) -> [bool; ENTRY_LIMIT]
    requires { m ≤ entry_limit }
    ensures { (e : ℕ) → flag result e ≡ ltb e m }
{
    let mut o = [false; ENTRY_LIMIT];
    for i in 0..m {
        o[i] = true;
    }
    o
}

// Whether a rule fixes the edge that it names. As `matches!` it would be four goals, one for each number, in place of one equation.
pub fn fixes(rule: u8) -> bool
    ensures { result ≡ reduction.fixes (numbers.fate_of rule) }
{
    (rule == 1) | (rule == 3) | (rule == 6) | (rule == 7)
}

// A quota, lowered by one if an edge is fixed, and cut to the number of remaining edges.
pub fn lowered(q: u16, fix: bool, d: u16) -> u16
    ensures { result ≡ min (q - bool_byte fix) d }
{
    q.saturating_sub(fix as u16).min(d)
}

// What a step tells of itself: its edge, and whether the quota fell at its surveyor and at its stand.
#[derive(Drop)]
pub struct Acted {
    pub edge: usize,
    pub fells: bool,
    pub fellt: bool,
}

// The state after a step.
pub fn act(g: &Instance, state: &mut State, rule: u8, e: usize) -> Acted
    requires { (e < entry_limit) × (at g.now.sv e < node_limit) × (at g.now.st e < node_limit) }
    ensures state_after { state.new ≡ acted g.now.sv g.now.st state.old rule e }
    ensures value { result ≡ told g.now.sv g.now.st state.old.qs state.old.qt state.new.qs state.new.qt e }
{
    let s = g.sv[e] as usize;
    let t = g.st[e] as usize;
    let quotas = state.qs[s];
    let quotat = state.qt[t];
    let fix = fixes(rule);
    state.rem[e] = false;
    state.fixed[e] = state.fixed[e] | fix;
    let left = state.ds[s].saturating_sub(1);
    state.ds[s] = left;
    state.qs[s] = lowered(quotas, fix, left);
    let more = state.dt[t].saturating_sub(1);
    state.dt[t] = more;
    state.qt[t] = lowered(quotat, fix, more);
    Acted {
        edge: e,
        fells: quotas != state.qs[s],
        fellt: quotat != state.qt[t],
    }
}

// How many edges of the set p lie at each node.
pub(crate) fn tally(m: usize, end: &[u8; ENTRY_LIMIT], p: &[bool; ENTRY_LIMIT]) -> [u16; 32]
    requires { (m ≤ entry_limit) × Low m end.now node_limit }
    ensures { Tally result m end.now p.now }
{
    let mut t = [0u16; 32];
    for i in 0..m {
        let v = end[i] as usize;
        t[v] += p[i] as u16;
    }
    t
}

// The quotas of one side, cut to the numbers of remaining edges.
pub(crate) fn cuts(quota: &[u8; 32], d: &[u16; 32]) -> [u16; 32]
    ensures { Made 0 result (λ v. min (at quota.now v) (at d.now v)) 32 }
{
    let mut o = [0u16; 32];
    for i in 0..32 {
        o[i] = (quota[i] as u16).min(d[i]);
    }
    o
}

// The state at the beginning.
pub fn start(g: &Instance) -> State
    requires { (g.now.m ≤ entry_limit) × Low g.now.m g.now.sv node_limit × Low g.now.m g.now.st node_limit }
    ensures { Started g.now.m g.now.sv g.now.st g.now.quota_s g.now.quota_t result }
{
    let rem = all(g.m);
    let ds = tally(g.m, &g.sv, &rem);
    let dt = tally(g.m, &g.st, &rem);
    let qs = cuts(&g.quota_s, &ds);
    let qt = cuts(&g.quota_t, &dt);
    State {
        rem,
        fixed: [false; ENTRY_LIMIT],
        qs,
        qt,
        ds,
        dt,
    }
}
