// The edges of each node side by side in its side's table, ascending, and walks along them: to the lowest edge that passes a test, or counting those
// that do; the test is the caller's closure. A walk goes over the edges of one node only, and no place waits for the one before it, as it would along links.
#![tactic(auto)]

ghost use Rattle.std.specs.Prelude.{◌≡◌, ◌&&◌, ◌||◌, not, Bool, List, ℕ, ◌+◌, ◌≤◌, ◌<◌, length, leb};
ghost use Rattle.lists.specs.Search.{low};
ghost use Rattle.model.specs.Limits.{entry_limit, node_limit};
ghost use Rattle.arrays.specs.ArrayInstance.{at, flag};
ghost use Rattle.arrays.specs.Passes.{Low};
ghost use Rattle.arrays.specs.Linked.{Linked};
ghost use Rattle.reduction_cells.specs.Cells.{cell_count};
ghost use Rattle.reduction_lists.specs.Listed.{Listed, Shelved, Put, table_size, before, tallied};
ghost use Rattle.reduction_lists.specs.Walks.{at_node, Decides};

use limits::ENTRY_LIMIT;
use reduction_cells::{CELLS, TABLE};

// Where the lists begin; there is a place for each edge, and one more for each node.
const LISTS: usize = 1088;

// The edges of v, from place k on, and m behind them. The next free place is returned. The walk goes along links, so that it counts no index.
pub(crate) fn put(
    m: usize,
    end: &[u8; ENTRY_LIMIT],
    head: &[u16; 32],
    next: &[u16; ENTRY_LIMIT],
    v: usize,
    k: usize,
    table: &mut [u16; TABLE],
) -> usize
    requires { (v < node_limit) × Linked m end.now head.now next.now × (k + before end.now v m < table_size) × (length table.old ≡ table_size) }
    ensures { Put m end.now v k table.old result table.new }
{
    let mut i = k;
    let mut e = head[v] as usize;
    while e < m {
        table[i] = e as u16;
        i += 1;
        e = next[e] as usize;
    }
    table[i] = m as u16;
    i + 1
}

// The lists of all nodes, behind the cells, which stay.
pub fn lists(m: usize, end: &[u8; ENTRY_LIMIT], table: &mut [u16; TABLE])
    requires { (m ≤ entry_limit) × Low m end.now node_limit × (length table.old ≡ table_size) }
    ensures { (length table.new ≡ table_size) × Listed m end.now table.new
        × ((j : ℕ) → j < cell_count → at table.new j ≡ at table.old j) }
{
    let mut next = [0u16; ENTRY_LIMIT];
    let head = arrays::links(m, &end[..], &mut next[..]);
    let mut k = LISTS;
    for v in 0..32 {
        table[CELLS + v] = k as u16;
        k = put(m, end, &head, &next, v, k, table);
    }
}

// The lowest edge of a node that passes a test, m if none does. The list ends inside the table, so that the last line is only for the check.
pub(crate) fn first<F: Fn(usize) -> bool>(
    m: usize,
    table: &[u16; TABLE],
    v: usize,
    passes: F,
) -> usize
    requires shelved { (v < node_limit) × Shelved m table.now }
    requires callable { (e : ℕ) → e < m → F.pre passes e }
    ensures { (end : List ℕ) (q : ℕ → Bool) → Listed m end table.now → Decides m (F.post passes) q
        → result ≡ low (at_node end v q) m }
{
    for k in table[CELLS + v] as usize..TABLE {
        let e = table[k] as usize;
        if m <= e {
            break;
        }
        if passes(e) {
            return e;
        }
    }
    m
}

// The lowest edge of a node in p whose rank is at least the bar, m if there is none.
pub fn behind(
    m: usize,
    table: &[u16; TABLE],
    v: usize,
    p: &[bool; ENTRY_LIMIT],
    rank: &[u8; ENTRY_LIMIT],
    bar: u8,
) -> usize
    requires { (v < node_limit) × Shelved m table.now }
    ensures { (end : List ℕ) → Listed m end table.now
        → result ≡ low (at_node end v (λ d. flag p.now d && leb bar (at rank.now d))) m }
{
    first(m, table, v, |e| p[e] & (bar <= rank[e]))
}

// The lowest edge of a node in both p and q.
pub fn both(
    m: usize,
    table: &[u16; TABLE],
    v: usize,
    p: &[bool; ENTRY_LIMIT],
    q: &[bool; ENTRY_LIMIT],
) -> usize
    requires { (v < node_limit) × Shelved m table.now }
    ensures { (end : List ℕ) → Listed m end table.now
        → result ≡ low (at_node end v (λ d. flag p.now d && flag q.now d)) m }
{
    first(m, table, v, |e| p[e] & q[e])
}

// How many edges of a node are in p, and how many in q. Both are counted in one walk, since two calls of `count` would go along the list twice.
#[derive(Drop)]
pub struct TwoTallies {
    pub p: u16,
    pub q: u16,
}

pub fn tallies(
    m: usize,
    table: &[u16; TABLE],
    v: usize,
    p: &[bool; ENTRY_LIMIT],
    q: &[bool; ENTRY_LIMIT],
) -> TwoTallies
    requires { (v < node_limit) × Shelved m table.now }
    ensures { (end : List ℕ) → Listed m end table.now
        → (result.p ≡ tallied end v (flag p.now) m) × (result.q ≡ tallied end v (flag q.now) m) }
{
    let mut c: u16 = 0;
    let mut d: u16 = 0;
    for k in table[CELLS + v] as usize..TABLE {
        let e = table[k] as usize;
        if m <= e {
            break;
        }
        c += p[e] as u16;
        d += q[e] as u16;
    }
    TwoTallies { p: c, q: d }
}

// How many edges of a node pass a test.
pub(crate) fn count<F: Fn(usize) -> bool>(
    m: usize,
    table: &[u16; TABLE],
    v: usize,
    passes: F,
) -> u16
    requires shelved { (v < node_limit) × Shelved m table.now }
    requires callable { (e : ℕ) → e < m → F.pre passes e }
    ensures { (end : List ℕ) (q : ℕ → Bool) → Listed m end table.now → Decides m (F.post passes) q → result ≡ tallied end v q m }
{
    let mut c: u16 = 0;
    for k in table[CELLS + v] as usize..TABLE {
        let e = table[k] as usize;
        if m <= e {
            break;
        }
        c += passes(e) as u16;
    }
    c
}

// How many edges of a node are in N(s): they remain, and their other end is loose or sends an arrow.
pub fn size(
    m: usize,
    table: &[u16; TABLE],
    v: usize,
    other: &[u8; ENTRY_LIMIT],
    rem: &[bool; ENTRY_LIMIT],
    lo: &[bool; 32],
    f: &[bool; ENTRY_LIMIT],
) -> u16
    requires { (v < node_limit) × Shelved m table.now × Low m other.now node_limit }
    ensures { (end : List ℕ) → Listed m end table.now → result ≡ tallied end v
        (λ d. flag rem.now d && (flag lo.now (at other.now d) || flag f.now d)) m }
{
    count(m, table, v, |e| {
        let w = other[e] as usize;
        rem[e] & (lo[w] | f[e])
    })
}

// The lowest edge of a node that remains, has no arrow, and whose other end is not loose.
pub fn idle(
    m: usize,
    table: &[u16; TABLE],
    v: usize,
    other: &[u8; ENTRY_LIMIT],
    rem: &[bool; ENTRY_LIMIT],
    lo: &[bool; 32],
    fs: &[bool; ENTRY_LIMIT],
    ft: &[bool; ENTRY_LIMIT],
) -> usize
    requires { (v < node_limit) × Shelved m table.now × Low m other.now node_limit }
    ensures { (end : List ℕ) → Listed m end table.now → result ≡ low (at_node end v
        (λ d. flag rem.now d
        && (not (flag lo.now (at other.now d)) && (not (flag fs.now d) && not (flag ft.now d))))) m }
{
    first(m, table, v, |e| {
        let w = other[e] as usize;
        rem[e] & (!lo[w] & (!fs[e] & !ft[e]))
    })
}
