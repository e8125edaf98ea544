// Where each entry stands in its list: tables of positions, one row of 96 numbers for each list of a roster file, three of them for each
// number that an entry may have, one a shift. Lists are read as parts of the file. Nothing here checks a roster: on bytes that are none, the
// tables hold what these functions say and no more.
#![tactic(auto)]

ghost use Rattle.std.specs.Prelude.{◌≡◌, ◌+◌, ◌-◌, ◌*◌, ◌≤◌, min, length, take, drop, get_or};
ghost use Rattle.model.specs.Limits.{node_limit};
ghost use Rattle.roster_positions.specs.Tables.{row_width, table_size, entries_in, stamped, lists_stamped, lists_end, strict_stamped, next_ranks};

use limits::ENTRY_WIDTH;

// a list's row: three places for each of 32 numbers; and a table, of 32 rows
pub const ROW: usize = 96;

pub const TABLE: usize = 3072;

// the byte at a place of the file, 0 behind its end
pub fn byte_at(file: &[u8], at: usize) -> u8
    ensures { result ≡ get_or file.now at 0 }
{
    if at < file.len() {
        return file[at];
    }
    0
}

// the n bytes from a place on, or as many as there are
pub fn part(file: &[u8], at: usize, n: usize) -> &[u8]
    ensures { result.now ≡ take n (drop at file.now) }
{
    if file.len() <= at {
        return &file[..0];
    }
    if file.len() - at <= n {
        return &file[at..];
    }
    let e = at + n;
    &file[at..e]
}

// a shift's place among the three of a number; a byte that is no shift takes the nearest one's
pub(crate) fn shift_place(shift: u8) -> usize
    ensures { result ≡ min (shift - 1) 2 }
{
    let first = if shift == 0 { 1 } else { shift };
    let last = if 3 < first { 3 } else { first };
    (last - 1) as usize
}

// the positions from 1 of a list's entries, each written at its number and shift in a row of the table; from the last entry to the first
pub fn stamp(list: &[u8], row: usize, table: &mut [u8; TABLE])
    requires { (length list.now ≤ 510) × (row + row_width ≤ table_size) }
    ensures { table.new ≡ stamped row (entries_in list.now) 1 table.old }
{
    let mut k = list.len() / ENTRY_WIDTH;
    while 0 < k {
        let at = ENTRY_WIDTH * (k - 1);
        let x = list[at] as usize;
        let s = shift_place(list[at + 1]);
        table[row + (3 * ((x + 31) % 32) + s)] = k as u8;
        k -= 1;
    }
}

// n surveyors' lists from a place on, a length byte before each; gives the place behind them
pub fn stamp_lists(file: &[u8], start: usize, n: usize, table: &mut [u8; TABLE]) -> usize
    requires { (start ≤ 1000) × (n ≤ node_limit) }
    ensures value { (result ≡ lists_end file.now n start) × (result ≤ start + 511 * n) }
    ensures table_after { table.new ≡ lists_stamped file.now n 0 start table.old }
{
    let mut at = start;
    for i in 0..n {
        let k = byte_at(file, at) as usize;
        let list = part(file, at + 1, ENTRY_WIDTH * k);
        stamp(list, i * ROW, &mut *table);
        at += ENTRY_WIDTH * k + 1;
    }
    at
}

// n stands' lists from a place on, the strict length and the tie length before each: positions in the strict part, and for each
// stand the rank behind it, which all tied entries share
pub fn stamp_rankings(
    file: &[u8],
    start: usize,
    n: usize,
    table: &mut [u8; TABLE],
    next: &mut [u8; 32],
)
    requires { (start ≤ 20000) × (n ≤ node_limit) }
    ensures table_after { table.new ≡ strict_stamped file.now n 0 start table.old }
    ensures next_after { next.new ≡ next_ranks file.now n 0 start next.old }
{
    let mut at = start;
    for j in 0..n {
        let a = byte_at(file, at) as usize;
        let b = byte_at(file, at + 1) as usize;
        let list = part(file, at + 2, ENTRY_WIDTH * a);
        stamp(list, j * ROW, &mut *table);
        next[j] = ((a + 1) % 256) as u8;
        at += ENTRY_WIDTH * (a + b) + 2;
    }
}
