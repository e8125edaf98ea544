// The checks of a part of the file that holds fields of one kind in a row: quotas, a list's entries. Each answers the first
// refusal among the fields that are there. A field that the file ends in is no matter of theirs. This crate is a part of the roster
// reader (crate roster), whose public call needs none of what these functions require.
#![tactic(auto)]

ghost use Rattle.std.specs.Prelude.{◌≡◌, ◌+◌, ◌*◌, ◌≤◌, ◌<◌, length};
ghost use Rattle.model.specs.Limits.{shift_limit};
ghost use Rattle.model.specs.RosterFile.{quota_check};
ghost use Rattle.answers.specs.RefusalCases.{code_of, reading_of};
ghost use Rattle.roster_reading.specs.Check.{refusal_of, whole_fields, part_answer};
ghost use Rattle.roster_reading.specs.Layout.{width_of, entries_in};
ghost use Rattle.roster_reading.specs.Row.{EntriesChecked};

use answers::Refusal;
use limits::{QUOTA_LIMIT, QUOTA_SUM_LIMIT};
use roster_reading::Entry;

// The whole fields of `width` bytes among n from a place on, in a file of so many bytes: "1 bytes end inside a field", so that one is not
// there.
pub fn whole_fields(size: usize, at: usize, n: usize, width: usize) -> usize
    requires { (at ≤ size) × (0 < width) }
    ensures { result ≡ whole_fields width size at n }
{
    let there = (size - at) / width;
    if there < n {
        return there;
    }
    n
}

// The answer for a part that should hold n fields, holds so many, and ends at `end`: the refusal of a field that is there, 1 where one is
// missing, or the place behind it.
pub fn part_answer(
    checked: Result<(), Refusal>,
    there: usize,
    n: usize,
    end: usize,
) -> Result<usize, Refusal>
    ensures { reading_of result ≡ part_answer (code_of checked) there n end }
{
    checked?;
    if there < n {
        return Err(Refusal::CutShort);
    }
    Ok(end)
}

// "3 a quota above 8, or the field that takes its side past 64"
pub fn check_quotas(part: &[u8]) -> Result<(), Refusal>
    ensures { code_of result ≡ refusal_of quota_check (λ so q. so + q) 0 part.now }
{
    let mut sum: u8 = 0;
    for i in 0..part.len() {
        let q = part[i];
        if QUOTA_LIMIT < q {
            return Err(Refusal::QuotaTooHigh);
        }
        sum += q;
        if QUOTA_SUM_LIMIT < sum {
            return Err(Refusal::QuotaTooHigh);
        }
    }
    Ok(())
}

// n entries of one list, or of its tie, which goes on in the same list. The row has a mark for each entry that stands before the part in
// its list, and then one for each entry of the part.
pub fn check_entries(
    part: &[u8],
    n: usize,
    other: u8,
    shifts: bool,
    tied: bool,
    row: &mut [bool],
) -> Result<(), Refusal>
    requires { (width_of shifts * n ≤ length part.now) × (other * shift_limit ≤ length row.old) }
    ensures { EntriesChecked tied other (entries_in shifts n part.now) row.old (code_of result) row.new }
{
    let mut last = Entry {
        number: 0,
        shift: 0,
    };
    for i in 0..n {
        let x = roster_entries::entry_at(part, i, shifts);
        roster_entries::check_entry(x, last, other, tied, &*row)?;
        let k = roster_entries::slot(x);
        row[k] = true;
        last = x;
    }
    Ok(())
}
