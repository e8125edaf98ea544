// A roster's bytes from one layout into the other (W-205): entries with their shifts, or as numbers alone. `shifts` says how they stand in the
// file; the counts, the quotas and the lengths of lists stay as they are. Nothing here checks a roster: on bytes that are none, what is written
// is what these functions say and no more. What does not fit into an array of a roster's size is left out; a roster within the limits always fits.
#![tactic(auto)]

ghost use Rattle.std.specs.Prelude.{◌≡◌, ◌≤◌};
ghost use Rattle.model.specs.Limits.{node_limit};
ghost use Rattle.roster_reading.specs.Layout.{entry_of, layout_of};
ghost use Rattle.roster_parts.specs.Growth.{Grown};
ghost use Rattle.roster_turned.specs.Blocks.{heads_of, count_at, EntriesTurned, ListsTurned, RosterTurned};

use roster_parts::RosterBytes;
use roster_reading::Entry;

// The place of the file behind some lists, and whether all entries in them are of shift 1.
#[derive(Drop)]
pub struct Passed {
    pub at: usize,
    pub first: bool,
}

// A roster in the other layout, and whether all that its surveyors list is of shift 1. No option: its bytes are promised either way.
#[derive(Drop)]
pub struct Turned {
    pub roster: RosterBytes,
    pub first: bool,
}

// An entry more, in a file with shifts or without.
pub(crate) fn append_by(out: &mut RosterBytes, x: Entry, shifts: bool)
    ensures { Grown ((layout_of shifts).bytes (entry_of x)) out.old out.new }
{
    if shifts {
        out.push_entry(x.number, x.shift);
    } else {
        out.push(x.number);
    }
}

// The entries of a part of the file, each in the other layout: "shift 1 throughout", or its shift byte left out. Are all of shift 1?
pub(crate) fn append_entries(out: &mut RosterBytes, part: &[u8], shifts: bool) -> bool
    ensures { EntriesTurned shifts part.now out.old result out.new }
{
    let width = roster_entries::entry_width(shifts);
    let count = part.len() / width;
    let mut first = true;
    for i in 0..count {
        let x = roster_entries::entry_at(part, i, shifts);
        append_by(&mut *out, x, !shifts);
        first = first & (x.shift == 1);
    }
    first
}

// A list's length bytes: one, and for a stand's list two, of its strict part and its tie.
pub(crate) fn heads(ties: bool) -> usize
    ensures { result ≡ heads_of ties }
{
    if ties {
        return 2;
    }
    1
}

// How many entries the list at a place has, by these bytes.
pub(crate) fn list_length(file: &[u8], at: usize, ties: bool) -> usize
    requires { at ≤ 100000 }
    ensures { (result ≡ count_at ties file.now at) × (result ≤ 510) }
{
    let a = roster_positions::byte_at(file, at) as usize;
    if ties {
        let b = roster_positions::byte_at(file, at + 1) as usize;
        return a + b;
    }
    a
}

// `count` lists from a place of the file on, of surveyors or of stands.
pub(crate) fn append_lists(
    out: &mut RosterBytes,
    file: &[u8],
    start: usize,
    count: usize,
    ties: bool,
    shifts: bool,
) -> Passed
    requires { (start ≤ 40000) × (count ≤ node_limit) }
    ensures { ListsTurned shifts ties file.now count start out.old result out.new }
{
    let width = roster_entries::entry_width(shifts);
    let lengths = heads(ties);
    let mut at = start;
    let mut first = true;
    for i in 0..count {
        let size = width * list_length(file, at, ties);
        let head = roster_positions::part(file, at, lengths);
        let list = roster_positions::part(file, at + lengths, size);
        out.append(head);
        let ones = append_entries(&mut *out, list, shifts);
        first = first & ones;
        at += lengths + size;
    }
    Passed {
        at: at,
        first: first,
    }
}

// The roster of ns surveyors and nt stands; `first` is told of the surveyors' lists, as "a pair (..) stands in both lists or in neither".
pub fn turn(file: &[u8], ns: usize, nt: usize, shifts: bool) -> Turned
    requires { (ns ≤ node_limit) × (nt ≤ node_limit) }
    ensures { RosterTurned shifts ns nt file.now result }
{
    let start = ns + nt + 4;
    let mut out = RosterBytes::new();
    let nodes = roster_positions::part(file, 0, start);
    out.append(nodes);
    let s = append_lists(&mut out, file, start, ns, false, shifts);
    let total = roster_positions::part(file, s.at, 2);
    out.append(total);
    append_lists(&mut out, file, s.at + 2, nt, true, shifts);
    Turned {
        roster: out,
        first: s.first,
    }
}
