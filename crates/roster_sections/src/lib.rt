// The four sections of a roster file, each after its count. `shifts` says how an entry stands in the file. This crate is a part of the
// roster reader (crate roster), whose public call needs none of what these functions require.
#![tactic(auto)]

ghost use Rattle.std.specs.Prelude.{◌≡◌, [], ◌+◌, ◌*◌, ◌≤◌, ◌<◌, length, drop};
ghost use Rattle.model.specs.Limits.{node_limit};
ghost use Rattle.model.specs.Roster.{total_s, total_t};
ghost use Rattle.model.specs.RosterFile.{read_quotas, read_nodes, read_section};
ghost use Rattle.model.specs.Reading.{accepted};
ghost use Rattle.answers.specs.RefusalCases.{reading_of};
ghost use Rattle.roster_reading.specs.Place.{placed};
ghost use Rattle.roster_reading.specs.Field as field;
ghost use Rattle.roster_reading.specs.Layout.{width_of, list_by, ranking_by};
ghost use Rattle.roster_reading.specs.Slot.{row_width};
ghost use Rattle.roster_reading.specs.Row.{Marked};
ghost use Rattle.roster_reading.specs.Many.{Told, ended_at};
ghost use Rattle.roster_reading.specs.Table.{ListsShown, RankingsShown};

use answers::Refusal;
use limits::{ENTRY_LIMIT, NODE_LIMIT};

// n quotas from a place on.
pub fn quotas_at(file: &[u8], at: usize, n: usize) -> Result<usize, Refusal>
    requires { at ≤ length file.now }
    ensures { reading_of result ≡ placed file.now (read_quotas n (drop at file.now)) }
{
    let there = roster_fields::whole_fields(file.len(), at, n, 1);
    let end = at + there;
    let checked = roster_fields::check_quotas(&file[at..end]);
    roster_fields::part_answer(checked, there, n, end)
}

// "a count byte 0 to 32, then one quota byte each"
pub fn nodes_at(file: &[u8], at: usize) -> Result<usize, Refusal>
    ensures { reading_of result ≡ placed file.now (read_nodes (drop at file.now)) }
{
    if file.len() <= at {
        return Err(Refusal::CutShort);
    }
    let n = file[at];
    if NODE_LIMIT < n {
        return Err(Refusal::TooMany);
    }
    let start = at + 1;
    let count = n as usize;
    quotas_at(file, start, count)
}

// "a two-byte count of all entries, low byte first"
pub fn wide(file: &[u8], at: usize) -> usize
    requires { at + 1 < length file.now }
    ensures { result ≡ field.wide file.now at }
{
    let second = at + 1;
    let low = file[at];
    let high = file[second];
    let a = low as usize;
    let b = high as usize;
    a + 256 * b
}

// The place behind a section, as its count says: two bytes of the count, the lists' length bytes, and as many entries.
pub(crate) fn told_end(file: &[u8], at: usize, heads: usize, shifts: bool) -> Result<usize, Refusal>
    requires { (at ≤ length file.now) × (heads ≤ 2 * node_limit) }
    ensures { Told (width_of shifts) file.now at heads (reading_of result) }
{
    if file.len() - at < 2 {
        return Err(Refusal::CutShort);
    }
    let total = wide(file, at);
    if ENTRY_LIMIT < total {
        return Err(Refusal::TooMany);
    }
    let width = roster_entries::entry_width(shifts);
    Ok(at + 2 + heads + width * total)
}

// "7 a section count that is not the sum of its lengths": the place behind the lists, if it is the one told.
pub(crate) fn ended(stop: usize, end: usize) -> Result<usize, Refusal>
    ensures { reading_of result ≡ ended_at (accepted stop) end }
{
    if stop == end {
        return Ok(stop);
    }
    Err(Refusal::WrongCount)
}

// The surveyors' lists: the count of all entries and n lists, with a length byte each beside their entries.
pub fn lists_section(
    file: &[u8],
    at: usize,
    n: usize,
    other: u8,
    shifts: bool,
    table: &mut [bool],
) -> Result<usize, Refusal>
    requires { (at ≤ length file.now) × (n ≤ node_limit) × (n * row_width ≤ length table.old) × (other ≤ node_limit) × ListsShown table.old [] }
    ensures { Marked (read_section (list_by shifts other) total_s n) ListsShown file.now at (reading_of result) table.new }
{
    let end = told_end(file, at, n, shifts)?;
    let stop = roster_lists::lists_at(file, at + 2, n, other, shifts, table)?;
    ended(stop, end)
}

// The stands' lists, likewise, with two length bytes each.
pub fn rankings_section(
    file: &[u8],
    at: usize,
    n: usize,
    other: u8,
    shifts: bool,
    table: &mut [bool],
) -> Result<usize, Refusal>
    requires { (at ≤ length file.now) × (n ≤ node_limit) × (n * row_width ≤ length table.old) × (other ≤ node_limit) × RankingsShown table.old [] }
    ensures { Marked (read_section (ranking_by shifts other) total_t n) RankingsShown file.now at (reading_of result) table.new }
{
    let end = told_end(file, at, 2 * n, shifts)?;
    let stop = roster_lists::rankings_at(file, at + 2, n, other, shifts, table)?;
    ended(stop, end)
}
