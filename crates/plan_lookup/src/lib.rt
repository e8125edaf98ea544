// From pairs and flags to edges: the edge that a pair of a plan file names, the refusal that it meets, 10, 11 or 12, given the places that the pairs before
// it take, and the edges of a plan listed.
#![tactic(auto)]

ghost use Rattle.std.specs.Prelude.{◌≡◌, ◌≤◌, ◌<◌, length, leb};
ghost use Rattle.std.specs.Option.{IfSome};
ghost use Rattle.lists.specs.Search.{low};
ghost use Rattle.model.specs.Limits.{entry_limit, plan_limit, node_limit};
ghost use Rattle.model.specs.PlanFile.{edges_in};
ghost use Rattle.arrays.specs.ArrayInstance.{flag, at};
ghost use Rattle.answers.specs.RefusalCases.{code_of};
ghost use Rattle.plan_lookup.specs.PairEdge.{Differ, Names, Scanned, edge_or};
ghost use Rattle.arrays.specs.Passes.{Low};
ghost use Rattle.plan_lookup.specs.PairRefusal.{pair_refusal};
ghost use Rattle.plan_lookup.specs.PlanEdges as edges;

use answers::Refusal;
use limits::{ENTRY_LIMIT, PLAN_LIMIT};

// A pair that names edge e: 10, 11 or 12, or none; us, ut: the places that the pairs before it take at each node.
pub fn check_pair(
    m: usize,
    sv: &[u8; ENTRY_LIMIT],
    st: &[u8; ENTRY_LIMIT],
    qs: &[u8; 32],
    qt: &[u8; 32],
    us: &[u8; 32],
    ut: &[u8; 32],
    from: usize,
    e: usize,
) -> Result<(), Refusal>
    requires { (m ≤ entry_limit) × Low m sv.now node_limit × Low m st.now node_limit }
    ensures { code_of result ≡ pair_refusal m e from (leb (at qs.now (at sv.now e)) (at us.now (at sv.now e)))
        (leb (at qt.now (at st.now e)) (at ut.now (at st.now e))) }
{
    if m <= e {
        return Err(Refusal::NoSuchPair);
    }
    if e < from {
        return Err(Refusal::PairsNotAscending);
    }
    let i = sv[e] as usize;
    let j = st[e] as usize;
    if (qs[i] <= us[i]) | (qt[j] <= ut[j]) {
        return Err(Refusal::PastQuota);
    }
    Ok(())
}

// the lowest edge from start on, and below end, of surveyor s and stand t in shift k
pub(crate) fn scan(
    start: usize,
    end: usize,
    sv: &[u8; ENTRY_LIMIT],
    st: &[u8; ENTRY_LIMIT],
    sh: &[u8; ENTRY_LIMIT],
    s: u8,
    t: u8,
    k: u8,
) -> Option<usize>
    requires { (start ≤ end) × (end ≤ entry_limit) }
    ensures inside { IfSome result (λ e. e < end) }
    ensures scanned { Scanned start end sv.now st.now sh.now s t k (edge_or end result) }
{
    for e in start..end {
        if (sv[e] == s) & ((st[e] == t) & (sh[e] == k)) {
            return Some(e);
        }
    }
    None
}

// the edge that three bytes name, m if there is none; from is where the next edge of an ascending plan is looked for first
pub fn edge_of(
    m: usize,
    sv: &[u8; ENTRY_LIMIT],
    st: &[u8; ENTRY_LIMIT],
    sh: &[u8; ENTRY_LIMIT],
    from: usize,
    x: u8,
    y: u8,
    k: u8,
) -> usize
    requires { (from ≤ m) × (m ≤ entry_limit) × Differ m sv.now st.now sh.now }
    ensures { result ≡ low (Names sv.now st.now sh.now x y k) m }
{
    if x == 0 {
        return m;
    }
    if y == 0 {
        return m;
    }
    let s = x - 1;
    let t = y - 1;
    if let Some(e) = scan(from, m, sv, st, sh, s, t, k) {
        return e;
    }
    if let Some(d) = scan(0, from, sv, st, sh, s, t, k) {
        return d;
    }
    m
}

// The edges of a plan, ascending: n of them, in an array with its number since memory is fixed.
#[derive(Drop)]
pub struct Listed {
    pub n: usize,
    pub edges: [u16; PLAN_LIMIT],
}

// Those of the flags that are set below m.
pub fn list_edges(m: usize, chosen: &[bool; ENTRY_LIMIT]) -> Listed
    requires { (m ≤ entry_limit) × (length (edges_in m (flag chosen.now)) ≤ plan_limit) }
    ensures { edges.Listed m chosen.now result.n result.edges }
{
    let mut edges = [0u16; PLAN_LIMIT];
    let mut n = 0;
    for e in 0..m {
        if !chosen[e] {
            continue;
        }
        edges[n] = e as u16;
        n += 1;
    }
    Listed { n: n, edges: edges }
}
