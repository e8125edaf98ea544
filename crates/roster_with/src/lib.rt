// The bytes of a roster with a joiner whose list is read (requests W-202 and W-204), part by part: the quotas and their sum, the surveyors' lists, the
// stands' lists, into each of which the joiner's entries come at their place; or the refusal of what stands behind the list, or of a stand's list that
// would be too long.
#![tactic(auto)]

ghost use Rattle.std.specs.Prelude.{◌≡◌, ◌≤◌, ◌+◌, length};
ghost use Rattle.lists.specs.Sum.{sum};
ghost use Rattle.model.specs.Limits.{node_limit, shift_limit};
ghost use Rattle.roster_parts.specs.Growth.{Grown, Holds};
ghost use Rattle.roster_with.specs.Entering.{marks_in, asked, shifts_at, joiner_in, entering};
ghost use Rattle.roster_with.specs.WithJoiner.{nodes_with, lists_with, rankings_with, long_from, joined_bytes};
ghost use Rattle.roster_with.specs.Enters.{EntersBy};
ghost use Rattle.roster_positions.specs.Rows.{bytes_of};

use answers::Refusal;
use limits::{ENTRY_WIDTH, LIST_LIMIT, SHIFT_LIMIT};
use roster_lists::ROW;
use roster_parts::RosterBytes;
use roster_reading::Entry;

// has the joiner's list this stand in this shift? The row has a mark for each entry that it has.
pub(crate) fn asks(row: &[bool; ROW], stand: u8, shift: u8) -> bool
    requires { (1 ≤ stand) × (stand ≤ node_limit) × (1 ≤ shift) × (shift ≤ shift_limit) }
    ensures { result ≡ asked (marks_in row.now) stand shift }
{
    let x = Entry {
        number: stand,
        shift: shift,
    };
    let k = roster_entries::slot(x);
    row[k]
}

// in how many shifts it has the stand
pub fn shift_count(row: &[bool; ROW], stand: u8) -> usize
    requires { (1 ≤ stand) × (stand ≤ node_limit) }
    ensures { (result ≡ length (shifts_at (marks_in row.now) stand)) × (result ≤ shift_limit) }
{
    let mut n: usize = 0;
    for k in 0..SHIFT_LIMIT {
        if asks(row, stand, k + 1) {
            n += 1;
        }
    }
    n
}

// the joiner's entries at the stand, "in shift order", whatever their order in the joiner's list
pub(crate) fn append_joiner(out: &mut RosterBytes, joiner: u8, row: &[bool; ROW], stand: u8)
    requires { (1 ≤ stand) × (stand ≤ node_limit) }
    ensures { Grown (bytes_of (joiner_in joiner (shifts_at (marks_in row.now) stand))) out.old out.new }
{
    for k in 0..SHIFT_LIMIT {
        let shift = k + 1;
        if !asks(row, stand, shift) {
            continue;
        }
        out.push_entry(joiner, shift);
    }
}

// a stand's list with those entries at the end of its tie
pub fn append_ranking(
    out: &mut RosterBytes,
    strict: &[u8],
    tied: &[u8],
    joiner: u8,
    row: &[bool; ROW],
    stand: u8,
)
    requires { (1 ≤ stand) × (stand ≤ node_limit) }
    ensures { Grown (entering joiner (marks_in row.now) stand strict.now tied.now) out.old out.new }
{
    let more = shift_count(row, stand);
    let strict_len = strict.len() / ENTRY_WIDTH;
    let tie_len = tied.len() / ENTRY_WIDTH + more;
    out.push((strict_len % 256) as u8);
    out.push((tie_len % 256) as u8);
    out.append(strict);
    out.append(tied);
    append_joiner(&mut *out, joiner, row, stand);
}

// the sum of some quotas
pub fn quota_sum(quotas: &[u8]) -> usize
    requires { length quotas.now ≤ 255 }
    ensures { (result ≡ sum (λ q. q) quotas.now) × (result ≤ 65025) }
{
    quotas.iter().map(|q| *q as usize).sum()
}

// both sides' counts and quotas, with one surveyor more
pub fn nodes_with(file: &[u8], ns: usize, nt: usize, quota: u8) -> RosterBytes
    requires { (ns ≤ node_limit) × (nt ≤ node_limit) }
    ensures { Holds (nodes_with file.now ns nt quota) result }
{
    let quotas = roster_positions::part(file, 1, ns);
    let stands = roster_positions::part(file, ns + 1, nt + 1);
    let mut out = RosterBytes::new();
    out.push((ns + 1) as u8);
    out.append(quotas);
    out.push(quota);
    out.append(stands);
    out
}

// the surveyors' lists, which start at a place of the file and end at another, and the joiner's
pub fn lists_with(file: &[u8], start: usize, end: usize, list: &[u8]) -> RosterBytes
    requires { start ≤ end }
    ensures { Holds (lists_with file.now start end list.now) result }
{
    let lists = roster_positions::part(file, start, end - start);
    let mut out = RosterBytes::new();
    out.append(lists);
    out.append(list);
    out
}

// n stands' lists from a place of the file on; the joiner enters those that the row has marks for
// (the walk of roster_leave::rankings_left; one of both would take a closure, and ask in a `requires` for all that `append_ranking` promises here)
pub fn rankings_with(
    file: &[u8],
    start: usize,
    n: usize,
    joiner: u8,
    row: &[bool; ROW],
) -> RosterBytes
    requires { (start ≤ 20000) × (n ≤ node_limit) }
    ensures { Holds (rankings_with file.now start n joiner (marks_in row.now)) result }
{
    let mut out = RosterBytes::new();
    let mut at = start;
    for j in 0..n {
        let a = roster_positions::byte_at(file, at) as usize;
        let b = roster_positions::byte_at(file, at + 1) as usize;
        let strict = roster_positions::part(file, at + 2, ENTRY_WIDTH * a);
        let tied = roster_positions::part(file, at + 2 + ENTRY_WIDTH * a, ENTRY_WIDTH * b);
        append_ranking(&mut out, strict, tied, joiner, row, (j + 1) as u8);
        at += ENTRY_WIDTH * (a + b) + 2;
    }
    out
}

// would one of these lists be too long? "A list .. has at most 32 entries"
pub fn too_long(file: &[u8], start: usize, n: usize, row: &[bool; ROW]) -> bool
    requires { (start ≤ 20000) × (n ≤ node_limit) }
    ensures { result ≡ long_from (marks_in row.now) file.now n 1 start }
{
    let mut at = start;
    for j in 0..n {
        let a = roster_positions::byte_at(file, at) as usize;
        let b = roster_positions::byte_at(file, at + 1) as usize;
        let more = shift_count(row, (j + 1) as u8);
        if (LIST_LIMIT as usize) < a + b + more {
            return true;
        }
        at += ENTRY_WIDTH * (a + b) + 2;
    }
    false
}

// the roster of ns surveyors and nt stands with one surveyor more, who takes "the number after the highest"; the surveyors' lists end at a
// place of the file
pub(crate) fn joined(
    file: &[u8],
    ns: usize,
    nt: usize,
    end: usize,
    quota: u8,
    list: &[u8],
    row: &[bool; ROW],
) -> RosterBytes
    requires { (ns ≤ node_limit) × (nt ≤ node_limit) × (ns + nt + 4 ≤ end) × (end + 2 ≤ 20000) }
    ensures { Holds (joined_bytes file.now ns nt end quota list.now (marks_in row.now)) result }
{
    let joiner = (ns + 1) as u8;
    let mut out = nodes_with(file, ns, nt, quota);
    let lists = lists_with(file, ns + nt + 4, end, list);
    let rankings = rankings_with(file, end + 2, nt, joiner, row);
    out.append_section(ns + 1, &lists);
    out.append_section(2 * nt, &rankings);
    out
}

// with a list that is read up to a place of its file: "9 bytes after the end"; then "A joiner's entry that takes a stand's list past 32 meets
// 2, after all checks of the joiner's own list."
pub fn entered(
    file: &[u8],
    ns: usize,
    nt: usize,
    quota: u8,
    list: &[u8],
    read: usize,
    row: &[bool; ROW],
) -> Result<RosterBytes, Refusal>
    requires { (ns ≤ node_limit) × (nt ≤ node_limit) }
    ensures { EntersBy file.now ns nt quota list.now read (marks_in row.now) result }
{
    let end = roster_parts::lists_end(file, ns + nt + 4, ns);
    let long = too_long(file, end + 2, nt, row);
    if read < list.len() {
        return Err(Refusal::BytesLeft);
    }
    if long {
        return Err(Refusal::TooMany);
    }
    Ok(joined(file, ns, nt, end, quota, list, row))
}
