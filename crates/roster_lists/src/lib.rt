// Lists at places of the file. Each list's entries are handed on as a part of the file that starts at its offset; each list has a row
// of marks for its entries. `shifts` says how an entry stands in the file. This crate is a part of the roster reader (crate roster), whose
// public call needs none of what these functions require.
#![tactic(auto)]

ghost use Rattle.std.specs.Prelude.{[], ◌*◌, ◌≤◌, length};
ghost use Rattle.model.specs.Limits.{node_limit, shift_limit};
ghost use Rattle.model.specs.Roster.{entries};
ghost use Rattle.model.specs.RosterFile.{read_list, read_ranking, read_many};
ghost use Rattle.answers.specs.RefusalCases.{reading_of};
ghost use Rattle.roster_reading.specs.Layout.{layout_of, list_by, ranking_by};
ghost use Rattle.roster_reading.specs.Slot.{row_width};
ghost use Rattle.roster_reading.specs.Row.{Shows, Marked, EntriesAt};
ghost use Rattle.roster_reading.specs.Table.{ListsShown, RankingsShown};

use answers::Refusal;
use limits::NODE_LIMIT;
use roster_entries::SHIFTS;

// The marks of a row: one for each number from 1 to 32 and each of its shifts.
pub const ROW: usize = NODE_LIMIT as usize * SHIFTS;

// The marks of a side: a row for each of 32 nodes.
pub const TABLE: usize = NODE_LIMIT as usize * ROW;

// n entries of a list, or of its tie, from a place on.
pub fn entries_at(
    file: &[u8],
    at: usize,
    n: usize,
    other: u8,
    shifts: bool,
    tied: bool,
    row: &mut [bool],
) -> Result<usize, Refusal>
    requires { (at ≤ length file.now) × (other * shift_limit ≤ length row.old) }
    ensures { EntriesAt shifts tied other n file.now at row.old (reading_of result) row.new }
{
    let width = roster_entries::entry_width(shifts);
    let there = roster_fields::whole_fields(file.len(), at, n, width);
    let end = at + width * there;
    let checked = roster_fields::check_entries(&file[at..end], there, other, shifts, tied, row);
    roster_fields::part_answer(checked, there, n, end)
}

// "a length byte and stand numbers, best first": at most `longest` entries, each of a number up to `other`.
pub fn list_at(
    file: &[u8],
    at: usize,
    longest: u8,
    other: u8,
    shifts: bool,
    row: &mut [bool],
) -> Result<usize, Refusal>
    requires { (other * shift_limit ≤ length row.old) × Shows row.old [] }
    ensures { Marked (read_list (layout_of shifts) longest other) Shows file.now at (reading_of result) row.new }
{
    if file.len() <= at {
        return Err(Refusal::CutShort);
    }
    let n = file[at];
    if longest < n {
        return Err(Refusal::TooMany);
    }
    let start = at + 1;
    let count = n as usize;
    entries_at(file, start, count, other, shifts, false, row)
}

// "the strict length byte, the tie length byte, the strict surveyors best first, the tied ones ascending"; "A stand's two lengths are
// read, then their sum is checked."
pub fn ranking_at(
    file: &[u8],
    at: usize,
    longest: u8,
    other: u8,
    shifts: bool,
    row: &mut [bool],
) -> Result<usize, Refusal>
    requires { (at ≤ length file.now) × (other * shift_limit ≤ length row.old) × Shows row.old [] }
    ensures { Marked (read_ranking (layout_of shifts) longest other) (λ row R. Shows row (entries R)) file.now at (reading_of result) row.new }
{
    if file.len() - at < 2 {
        return Err(Refusal::CutShort);
    }
    let second = at + 1;
    let a = file[at];
    let b = file[second];
    let strict = a as usize;
    let tied = b as usize;
    if (longest as usize) < strict + tied {
        return Err(Refusal::TooMany);
    }
    let start = at + 2;
    let next = entries_at(file, start, strict, other, shifts, false, &mut *row)?;
    entries_at(file, next, tied, other, shifts, true, row)
}

// n surveyors' lists, one behind the other, each with its row of the table. `other` is the other side's count.
pub fn lists_at(
    file: &[u8],
    start: usize,
    n: usize,
    other: u8,
    shifts: bool,
    table: &mut [bool],
) -> Result<usize, Refusal>
    requires { (start ≤ length file.now) × (n * row_width ≤ length table.old) × (other ≤ node_limit) × ListsShown table.old [] }
    ensures { Marked (read_many (list_by shifts other) n) ListsShown file.now start (reading_of result) table.new }
{
    let longest = roster_reading::longest_list(other, shifts);
    let mut at = start;
    for k in 0..n {
        let low = k * ROW;
        let high = low + ROW;
        at = list_at(file, at, longest, other, shifts, &mut table[low..high])?;
    }
    Ok(at)
}

// n stands' lists, likewise.
pub fn rankings_at(
    file: &[u8],
    start: usize,
    n: usize,
    other: u8,
    shifts: bool,
    table: &mut [bool],
) -> Result<usize, Refusal>
    requires { (start ≤ length file.now) × (n * row_width ≤ length table.old) × (other ≤ node_limit) × RankingsShown table.old [] }
    ensures { Marked (read_many (ranking_by shifts other) n) RankingsShown file.now start (reading_of result) table.new }
{
    let longest = roster_reading::longest_list(other, shifts);
    let mut at = start;
    for k in 0..n {
        let low = k * ROW;
        let high = low + ROW;
        at = ranking_at(file, at, longest, other, shifts, &mut table[low..high])?;
    }
    Ok(at)
}
