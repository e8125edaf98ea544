// A roster's bytes put together: parts appended behind what is there already, lists under other numbers (W-210, W-214: each entry's number by a table, its
// shift as it is), and sections with their counts. What does not fit into an array of a roster's size is left out; a roster within the limits always fits.
// Nothing here checks a roster: on bytes that are none, what is written is what these functions say and no more.
#![tactic(auto)]

ghost use Rattle.std.specs.Prelude.{◌≡◌, [], ◌∷◌, ◌+◌, ◌-◌, ◌*◌, ◌/◌, ◌≤◌};
ghost use Rattle.model.specs.Limits.{node_limit, roster_size, entry_width};
ghost use Rattle.roster_positions.specs.Tables.{lists_end, entries_in};
ghost use Rattle.roster_positions.specs.Rows.{bytes_of};
ghost use Rattle.roster_parts.specs.Mapped.{all_under, lists_under, rankings_under};

use limits::{ENTRY_WIDTH, ROSTER_SIZE};

// Bytes in the front of an array of a roster's size.
#[derive(Drop)]
pub struct RosterBytes {
    pub len: usize,
    pub roster: [u8; ROSTER_SIZE],
    pub ghost few: { len ≤ roster_size },
}

impl RosterBytes {
    ghost use Rattle.roster_parts.specs.Growth.{written, Grown, Holds, section_of};

    // none yet
    pub fn new() -> RosterBytes
        ensures { Holds [] result }
    {
        RosterBytes {
            len: 0,
            roster: [0; ROSTER_SIZE],
        }
    }

    // what is there
    pub fn bytes(&self) -> &[u8]
        ensures { result.now ≡ written self.now }
    {
        &self.roster[..self.len]
    }

    // one byte more
    pub fn push(&mut self, b: u8)
        ensures { Grown (b ∷ []) self.old self.new }
    {
        if self.len < ROSTER_SIZE {
            self.roster[self.len] = b;
            self.len += 1;
        }
    }

    // an entry more: "a shift byte, 1 to 3, after its number"
    pub fn push_entry(&mut self, number: u8, shift: u8)
        ensures { Grown (number ∷ shift ∷ []) self.old self.new }
    {
        self.push(number);
        self.push(shift);
    }

    // some bytes more, as many as there is room for: all, for a roster within the limits
    pub fn append(&mut self, part: &[u8])
        ensures { Grown part.now self.old self.new }
    {
        let n = self.len;
        let end = n + part.len().min(ROSTER_SIZE - n);
        self.roster[n..end].copy_from_slice(&part[..end - n]);
        self.len = end;
    }

    // "a two-byte count of all entries, low byte first", then the lists: so many of their bytes are lengths, the others entries
    pub fn append_section(&mut self, lengths: usize, lists: &RosterBytes)
        ensures { Grown (section_of lengths (written lists.now)) self.old self.new }
    {
        let part = lists.bytes();
        let total = entry_count(part.len(), lengths);
        let low = (total % 256) as u8;
        let high = (total / 256) as u8;
        self.push(low);
        self.push(high);
        self.append(part);
    }

    // the entries of a part of the file; a number behind the table's end becomes 0
    pub(crate) fn append_entries(&mut self, list: &[u8], table: &[u8])
        ensures { Grown (bytes_of (all_under table.now (entries_in list.now))) self.old self.new }
    {
        let count = list.len() / ENTRY_WIDTH;
        for i in 0..count {
            let at = ENTRY_WIDTH * i;
            let x = list[at] as usize;
            let shift = list[at + 1];
            let number = roster_positions::byte_at(table, x);
            self.push_entry(number, shift);
        }
    }

    // so many surveyors' lists from a place of the file on, a length byte before each
    pub fn append_lists(&mut self, file: &[u8], start: usize, count: usize, table: &[u8])
        requires { (start ≤ 20000) × (count ≤ node_limit) }
        ensures { Grown (lists_under table.now file.now count start) self.old self.new }
    {
        let mut at = start;
        for i in 0..count {
            let k = roster_positions::byte_at(file, at);
            let list = roster_positions::part(file, at + 1, ENTRY_WIDTH * (k as usize));
            self.push(k);
            self.append_entries(list, table);
            at += ENTRY_WIDTH * (k as usize) + 1;
        }
    }

    // so many stands' lists from a place of the file on, the strict length and the tie length before each
    // (beside append_lists: two lengths are read, added and written where a surveyor's list has one, so one function would be both, behind a flag)
    pub fn append_rankings(&mut self, file: &[u8], start: usize, count: usize, table: &[u8])
        requires { (start ≤ 40000) × (count ≤ node_limit) }
        ensures { Grown (rankings_under table.now file.now count start) self.old self.new }
    {
        let mut at = start;
        for j in 0..count {
            let a = roster_positions::byte_at(file, at);
            let b = roster_positions::byte_at(file, at + 1);
            let k = (a as usize) + (b as usize);
            let list = roster_positions::part(file, at + 2, ENTRY_WIDTH * k);
            self.push(a);
            self.push(b);
            self.append_entries(list, table);
            at += ENTRY_WIDTH * k + 2;
        }
    }
}

// the entries among the bytes of some lists, of which so many are lengths
pub(crate) fn entry_count(size: usize, lengths: usize) -> usize
    ensures { result ≡ (size - lengths) / entry_width }
{
    if lengths <= size {
        return (size - lengths) / ENTRY_WIDTH;
    }
    0
}

// the place behind n surveyors' lists, a length byte before each
pub fn lists_end(file: &[u8], start: usize, n: usize) -> usize
    requires { (start ≤ 20000) × (n ≤ node_limit) }
    ensures { (result ≡ lists_end file.now n start) × (start ≤ result) × (result ≤ start + 511 * n) }
{
    let mut at = start;
    for i in 0..n {
        let k = roster_positions::byte_at(file, at) as usize;
        at += ENTRY_WIDTH * k + 1;
    }
    at
}

// a table of numbers has a place for each up to 32
pub const NUMBERS: usize = 33;
