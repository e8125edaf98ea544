// One entry of a list: how it stands in the file, with its shift or as a number alone (`shifts`), the place of its mark, and its refusal. This
// crate is a part of the roster reader (crate roster), whose public call needs none of what these functions require.
#![tactic(auto)]

ghost use Rattle.std.specs.Prelude.{◌≡◌, ◌+◌, ◌*◌, ◌≤◌, length, drop};
ghost use Rattle.model.specs.Limits.{shift_limit};
ghost use Rattle.model.specs.Roster.{before};
ghost use Rattle.answers.specs.RefusalCases.{code_of};
ghost use Rattle.roster_reading.specs.Layout.{entry_of, width_of, entry_from};
ghost use Rattle.roster_reading.specs.Slot.{HasSlot, slot_of};
ghost use Rattle.roster_reading.specs.Row.{mark_check};

use answers::Refusal;
use limits::{ENTRY_WIDTH, SHIFT_LIMIT};
use roster_reading::Entry;

// The places of a number in a row of marks, one for each shift.
pub const SHIFTS: usize = SHIFT_LIMIT as usize;

// The bytes of an entry.
pub fn entry_width(shifts: bool) -> usize
    ensures { result ≡ width_of shifts }
{
    if shifts {
        return ENTRY_WIDTH;
    }
    1
}

// The entry at a place, counted in entries, of a part: "a shift byte, 1 to 3, after its number"; where the file has none, its shift is 1.
pub fn entry_at(part: &[u8], i: usize, shifts: bool) -> Entry
    requires { width_of shifts * i + width_of shifts ≤ length part.now }
    ensures { entry_of result ≡ entry_from shifts (drop (width_of shifts * i) part.now) }
{
    if shifts {
        let at = ENTRY_WIDTH * i;
        let behind = at + 1;
        return Entry {
            number: part[at],
            shift: part[behind],
        };
    }
    Entry {
        number: part[i],
        shift: 1,
    }
}

// The place of an entry's mark in a row.
pub fn slot(x: Entry) -> usize
    requires { HasSlot (entry_of x) }
    ensures { result ≡ slot_of (entry_of x) }
{
    let number = x.number as usize;
    let shift = x.shift as usize;
    SHIFTS * (number - 1) + (shift - 1)
}

// "ascending means by surveyor, stand, shift"
pub fn ascends(x: Entry, y: Entry) -> bool
    ensures { result ≡ before (entry_of x) (entry_of y) }
{
    if x.number < y.number {
        return true;
    }
    if x.number == y.number {
        return x.shift < y.shift;
    }
    false
}

// "4 a list entry that is 0 or above the other side's count", "a shift outside 1 to 3 in a list (18, straight after 4 ..)", "5 an entry
// twice in one list", and in a tie also "6 a tie that does not ascend". The row has a mark for each entry before it in its list.
pub fn check_entry(
    x: Entry,
    last: Entry,
    other: u8,
    tied: bool,
    row: &[bool],
) -> Result<(), Refusal>
    requires { other * shift_limit ≤ length row.now }
    ensures { code_of result ≡ mark_check tied other row.now (entry_of last) (entry_of x) }
{
    if x.number == 0 {
        return Err(Refusal::NoSuchNode);
    }
    if other < x.number {
        return Err(Refusal::NoSuchNode);
    }
    if x.shift == 0 {
        return Err(Refusal::NoSuchShift);
    }
    if SHIFT_LIMIT < x.shift {
        return Err(Refusal::NoSuchShift);
    }
    let k = slot(x);
    if row[k] {
        return Err(Refusal::ListedTwice);
    }
    if !tied {
        return Ok(());
    }
    if !ascends(last, x) {
        return Err(Refusal::TieNotAscending);
    }
    Ok(())
}
