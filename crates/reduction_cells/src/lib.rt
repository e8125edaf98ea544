// The strict edges of one side by node and rank, and what a node's arrows and rules need of them: the best and the worst of a set there, the rank
// that a quota of a set is better than, and the node's arrows, painted anew.
#![tactic(auto)]

ghost use Rattle.std.specs.Prelude.{◌≡◌, ◌&&◌, ◌||◌, false, ◌+◌, ◌≤◌, ◌<◌, length};
ghost use Rattle.model.specs.Limits.{entry_limit, node_limit, empty_rank};
ghost use Rattle.arrays.specs.ArrayInstance.{at, flag};
ghost use Rattle.arrays.specs.Passes.{Low};
ghost use Rattle.reduction_cells.specs.Cells.{cell_count, Empty, Celled, Spread, edge_in, bar_of, best_of, worst_of};
ghost use Rattle.reduction_cells.specs.Painted.{Painted, AllPainted, among};

use limits::{EMPTY_RANK, ENTRY_LIMIT};

// A cell for each node and rank.
pub const CELLS: usize = 1056;

// The table of one side: its cells, then the place where each node's list begins, then these lists (crate reduction_lists).
pub const TABLE: usize = 2144;

// The cells, where all that is given is m.
pub fn cells(
    m: usize,
    end: &[u8; ENTRY_LIMIT],
    rank: &[u8; ENTRY_LIMIT],
    tied: &[bool; ENTRY_LIMIT],
    cell: &mut [u16],
)
    requires m_le_entry_limit { (m ≤ entry_limit) × Low m end.now node_limit × Low m rank.now empty_rank }
    requires cell_count_in_bounds { (cell_count ≤ length cell.old) × Empty m cell.old }
    ensures { (length cell.new ≡ length cell.old)
        × Celled m end.now rank.now tied.now cell.new }
{
    for i in (0..m).rev() {
        if !tied[i] {
            let v = end[i] as usize;
            let r = rank[i] as usize;
            cell[v * EMPTY_RANK + r] = i as u16;
        }
    }
}

// Whether there is an edge, and it is in p.
pub fn held(m: usize, p: &[bool; ENTRY_LIMIT], e: usize) -> bool
    requires { m ≤ entry_limit }
    ensures { result ≡ edge_in m (flag p.now) e }
{
    if e < m {
        return p[e];
    }
    false
}

// The first rank that q edges of p are better than at v, 33 if there is none.
pub fn bar(m: usize, table: &[u16; TABLE], v: usize, p: &[bool; ENTRY_LIMIT], q: u16) -> u8
    requires { (v < node_limit) × Spread m table.now }
    ensures { result ≡ bar_of m table.now (flag p.now) v q }
{
    let b = v * EMPTY_RANK;
    let mut c: u16 = 0;
    for r in 0..EMPTY_RANK {
        if q <= c {
            return r as u8;
        }
        let e = table[b + r] as usize;
        c += held(m, p, e) as u16;
    }
    EMPTY_RANK as u8
}

// The best edge of p at v, m if there is none: it is entered as a number in a row whose least is taken.
pub fn best(m: usize, table: &[u16; TABLE], v: usize, p: &[bool; ENTRY_LIMIT]) -> usize
    requires { (v < node_limit) × Spread m table.now }
    ensures { result ≡ best_of m table.now (flag p.now) v }
{
    let b = v * EMPTY_RANK;
    for r in 0..EMPTY_RANK {
        let e = table[b + r] as usize;
        if held(m, p, e) {
            return e;
        }
    }
    m
}

// Whether an edge is in N(s): there is one, it remains, and its other end is loose or sends an arrow.
pub fn reserved(
    m: usize,
    other: &[u8; ENTRY_LIMIT],
    rem: &[bool; ENTRY_LIMIT],
    lo: &[bool; 32],
    f: &[bool; ENTRY_LIMIT],
    e: usize,
) -> bool
    requires { (m ≤ entry_limit) × Low m other.now node_limit }
    ensures { result ≡ edge_in m
        (λ d. flag rem.now d && (flag lo.now (at other.now d) || flag f.now d)) e }
{
    if e < m {
        let w = other[e] as usize;
        return rem[e] & (lo[w] | f[e]);
    }
    false
}

// The worst edge of N(s), m if there is none.
pub fn worst(
    m: usize,
    table: &[u16; TABLE],
    v: usize,
    other: &[u8; ENTRY_LIMIT],
    rem: &[bool; ENTRY_LIMIT],
    lo: &[bool; 32],
    f: &[bool; ENTRY_LIMIT],
) -> usize
    requires { (v < node_limit) × Spread m table.now × Low m other.now node_limit }
    ensures { result ≡ worst_of m table.now
        (λ d. flag rem.now d && (flag lo.now (at other.now d) || flag f.now d)) v }
{
    let b = v * EMPTY_RANK;
    for k in 0..EMPTY_RANK {
        let e = table[b + (32 - k)] as usize;
        if reserved(m, other, rem, lo, f, e) {
            return e;
        }
    }
    m
}

// The arrows of v painted anew: the strict remaining edges that fewer than q are ahead of. The nodes across an arrow that turned go to the front of
// `turned`; how many they are is returned.
pub fn paint(
    m: usize,
    table: &[u16; TABLE],
    v: usize,
    q: u16,
    other: &[u8; ENTRY_LIMIT],
    rem: &[bool; ENTRY_LIMIT],
    f: &mut [bool; ENTRY_LIMIT],
    turned: &mut [u8; EMPTY_RANK],
) -> usize
    requires v_lt_node_limit { (v < node_limit) × Spread m table.now × Low m other.now node_limit }
    requires f_len { (length f.old ≡ entry_limit) × (length turned.old ≡ empty_rank) }
    ensures { (result ≤ empty_rank) × (length turned.new ≡ empty_rank) × Low result turned.new node_limit
        × Painted m other.now table.now rem.now v q empty_rank f.old f.new
        (among turned.new result) }
{
    let b = v * EMPTY_RANK;
    let mut c: u16 = 0;
    let mut n: usize = 0;
    for r in 0..EMPTY_RANK {
        let e = table[b + r] as usize;
        if m <= e {
            continue;
        }
        let on = rem[e] & (c < q);
        turned[n] = other[e];
        n += (on != f[e]) as usize;
        f[e] = on;
        c += rem[e] as u16;
    }
    n
}

// The arrows of all nodes of one side.
pub fn painted(
    m: usize,
    table: &[u16; TABLE],
    q: &[u16; 32],
    other: &[u8; ENTRY_LIMIT],
    rem: &[bool; ENTRY_LIMIT],
) -> [bool; ENTRY_LIMIT]
    requires { Spread m table.now × Low m other.now node_limit }
    ensures { AllPainted m table.now rem.now q.now node_limit result }
{
    let mut f = [false; ENTRY_LIMIT];
    let mut turned = [0u8; EMPTY_RANK];
    for v in 0..32 {
        paint(m, table, v, q[v], other, rem, &mut f, &mut turned);
    }
    f
}
