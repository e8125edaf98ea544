// The instance of a roster as plain arrays, read from the bytes of an accepted roster file. An edge's number is its place among the
// roster's pairs, ascending by surveyor, stand, shift; surveyors and stands are counted from 0, shifts from 1. Behind the edges and the
// nodes the arrays hold 0 and false. Bytes that are no roster give arrays too, about which only the ranges are promised.
#![tactic(auto)]

ghost use Rattle.std.specs.Prelude.{◌≡◌, ◌+◌, ◌*◌, ◌≤◌, min, cond, get_or, eqb};
ghost use Rattle.model.specs.Limits.{entry_limit};
ghost use Rattle.roster_positions.specs.Tables.{table_size};
ghost use Rattle.arrays.specs.Passes.{Low, Shows};
ghost use Rattle.instance.specs.Cells.{Listed, Filled};
ghost use Rattle.instance.specs.Decoded.{Decoded};

use limits::ENTRY_LIMIT;
use roster_positions::{ROW, TABLE};

// surveyor, stand, shift, the rank at each end and whether the edge is tied at its stand, for each of m edges; quotas of ns surveyors and nt
// stands
#[derive(Clone, Copy)]
pub struct Instance {
    pub m: usize,
    pub ns: usize,
    pub nt: usize,
    pub sv: [u8; ENTRY_LIMIT],
    pub st: [u8; ENTRY_LIMIT],
    // the shift of each edge
    pub sh: [u8; ENTRY_LIMIT],
    pub rank_s: [u8; ENTRY_LIMIT],
    pub rank_t: [u8; ENTRY_LIMIT],
    pub tied: [bool; ENTRY_LIMIT],
    pub quota_s: [u8; 32],
    pub quota_t: [u8; 32],
}

// the cells of a table that hold a position, ascending: n of them, in an array with its number since memory is fixed. There is room for all cells of a table: only a roster's lists are known
// to fill no more than 1,024, and so the loop that finds them stores without a test.
#[derive(Drop)]
pub struct Found {
    pub n: usize,
    pub cell: [u16; TABLE],
}

// a count byte, at most 32
pub fn count_at(file: &[u8], at: usize) -> usize
    ensures { result ≡ min (get_or file.now at 0) 32 }
{
    (roster_positions::byte_at(file, at) as usize).min(32)
}

// n quota bytes from a place on
pub fn quotas(file: &[u8], at: usize, n: usize) -> [u8; 32]
    requires { (at ≤ 1000) × (n ≤ 32) }
    ensures { Shows 0 result n (λ i. get_or file.now (at + i) 0) }
{
    let mut q = [0u8; 32];
    for i in 0..n {
        q[i] = roster_positions::byte_at(file, at + i);
    }
    q
}

// the cells of n rows that hold a position
pub fn listed_cells(n: usize, table: &[u8; TABLE]) -> Found
    requires { n ≤ 32 }
    ensures { Listed n table.now result.n result.cell }
{
    let mut cell = [0u16; TABLE];
    let mut m: usize = 0;
    let end = n * ROW;
    for c in 0..end {
        cell[m] = c as u16;
        m += (table[c] != 0) as usize;
    }
    Found { n: m, cell }
}

// the rank at a stand: the position in the strict part, or the rank behind that part where the surveyor is not in it
pub fn rank_of(position: u8, next: u8) -> u8
    ensures { result ≡ cond (eqb position 0) next position }
{
    if position == 0 {
        return next;
    }
    position
}

// the edges of the cells
pub fn filled(
    ns: usize,
    nt: usize,
    m: usize,
    cell: &[u16; TABLE],
    listed: &[u8; TABLE],
    strict: &[u8; TABLE],
    next: &[u8; 32],
    qs: [u8; 32],
    qt: [u8; 32],
) -> Instance
    requires { (m ≤ entry_limit) × Low m cell.now table_size }
    ensures { Filled ns nt m cell.now listed.now strict.now next.now qs qt result }
{
    let mut sv = [0u8; ENTRY_LIMIT];
    let mut st = [0u8; ENTRY_LIMIT];
    let mut sh = [0u8; ENTRY_LIMIT];
    let mut rank_s = [0u8; ENTRY_LIMIT];
    let mut rank_t = [0u8; ENTRY_LIMIT];
    let mut tied = [false; ENTRY_LIMIT];
    for e in 0..m {
        let c = cell[e] as usize;
        let i = c / ROW;
        let j = c / 3 % 32;
        let k = c % 3;
        let t = strict[j * ROW + (3 * i + k)];
        sv[e] = i as u8;
        st[e] = j as u8;
        sh[e] = (k + 1) as u8;
        rank_s[e] = listed[c];
        rank_t[e] = rank_of(t, next[j]);
        tied[e] = t == 0;
    }
    Instance {
        m,
        ns,
        nt,
        sv,
        st,
        sh,
        rank_s,
        rank_t,
        tied,
        quota_s: qs,
        quota_t: qt,
    }
}

// the instance of an accepted roster file
pub fn instance_of(file: &[u8]) -> Instance
    ensures { Decoded file.now result }
{
    let ns = count_at(file, 0);
    let quota_s = quotas(file, 1, ns);
    let nt = count_at(file, ns + 1);
    let quota_t = quotas(file, ns + 2, nt);
    let mut listed = [0u8; TABLE];
    let at = roster_positions::stamp_lists(file, ns + nt + 4, ns, &mut listed);
    let mut strict = [0u8; TABLE];
    let mut next = [0u8; 32];
    roster_positions::stamp_rankings(file, at + 2, nt, &mut strict, &mut next);
    let found = listed_cells(ns, &listed);
    // as many edges as the arrays have room for; a roster never has more
    let m = found.n.min(ENTRY_LIMIT);
    filled(
        ns,
        nt,
        m,
        &found.cell,
        &listed,
        &strict,
        &next,
        quota_s,
        quota_t,
    )
}
