// What the readers of a roster's sections hand on: an entry of a list; and how long a list may be.
#![tactic(auto)]

ghost use Rattle.std.specs.Prelude.{◌≡◌};
ghost use Rattle.roster_reading.specs.Layout.{layout_of};

use limits::LIST_LIMIT;

// "Each list entry .. gains a shift byte, 1 to 3, after its number."
#[derive(Clone, Copy)]
pub struct Entry {
    pub number: u8,
    pub shift: u8,
}

// "A list .. has at most 32 entries"; a file without shifts "keeps the list limit from before W-204", the other side's count.
pub fn longest_list(other: u8, shifts: bool) -> u8
    ensures { result ≡ (layout_of shifts).longest other }
{
    if shifts {
        return LIST_LIMIT;
    }
    other
}
