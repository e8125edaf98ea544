// At each node one number decides which edges it would rather have: its threshold, the rank of its worst place. That is the rank of an empty
// place where the quota is not filled, and else the worst rank of its edges in the plan.
#![tactic(auto)]

ghost use Rattle.std.specs.Prelude.{◌≡◌, cond, ℕ, ◌<◌, ltb, get_or};
ghost use Rattle.arrays.specs.ArrayInstance.{at};
ghost use Rattle.blocking_thresholds.specs.PlanList.{Places, AtNodes, WorstOf, ThresholdsOf};

use limits::ENTRY_LIMIT;

// How many of a plan's n edges lie at each node.
pub fn held(n: usize, es: &[u16; 64], end: &[u8; ENTRY_LIMIT]) -> [u16; 32]
    requires { Places n es.now end.now }
    ensures { AtNodes end.now es.now n result }
{
    let mut d = [0u16; 32];
    for k in 0..n {
        let e = es[k] as usize;
        let v = end[e] as usize;
        d[v] += 1;
    }
    d
}

// The worst rank of a plan's n edges at each node; 0 where there is none.
pub fn worst(
    n: usize,
    es: &[u16; 64],
    end: &[u8; ENTRY_LIMIT],
    rank: &[u8; ENTRY_LIMIT],
) -> [u8; 32]
    requires { Places n es.now end.now }
    ensures { WorstOf end.now rank.now es.now n result }
{
    let mut w = [0u8; 32];
    for k in 0..n {
        let e = es[k] as usize;
        let v = end[e] as usize;
        w[v] = w[v].max(rank[e]);
    }
    w
}

// The rank of a node's worst place.
fn threshold(count: u16, quota: u8, w: u8) -> u8
    ensures { result ≡ cond (ltb count quota) 33 w }
{
    let q = quota as u16;
    if count < q {
        return 33;
    }
    w
}

// The rank of each node's worst place.
pub fn thresholds(d: &[u16; 32], quota: &[u8; 32], w: &[u8; 32]) -> [u8; 32]
    ensures { (v : ℕ) → v < 32 → get_or result v 0 ≡ cond (ltb (at d.now v) (at quota.now v)) 33 (at w.now v) }
{
    let mut o = [0u8; 32];
    for i in 0..32 {
        o[i] = threshold(d[i], quota[i], w[i]);
    }
    o
}

// The same, from a side's arrays and the list of the plan's edges; for every plan that the list is of.
pub fn side_thresholds(
    n: usize,
    es: &[u16; 64],
    end: &[u8; ENTRY_LIMIT],
    rank: &[u8; ENTRY_LIMIT],
    quota: &[u8; 32],
) -> [u8; 32]
    requires { Places n es.now end.now }
    ensures { ThresholdsOf n es.now end.now rank.now quota.now result }
{
    let d = held(n, es, end);
    let w = worst(n, es, end, rank);
    thresholds(&d, quota, &w)
}
