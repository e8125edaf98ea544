// A surveyor leaves the field: request W-202 of document 02. The bytes of the roster in which the leaver keeps the number, with quota zero and
// no pairs, made from the bytes of an accepted roster, part by part: the quotas, the surveyors' lists, the stands' lists.
#![tactic(auto)]

ghost use Rattle.std.specs.Prelude.{◌≤◌, ◌<◌, ◌≡◌, length};
ghost use Rattle.model.specs.Limits.{node_limit};
ghost use Rattle.model_changes.specs.Changes.{leave_on, without};
ghost use Rattle.instance.specs.Accepted.{RosterAccepted};
ghost use Rattle.roster_parts.specs.Growth.{Grown, Holds};
ghost use Rattle.roster_parts.specs.Gives.{ChangedBy};
ghost use Rattle.roster_leave.specs.Left.{rankings_left, left_bytes};
ghost use Rattle.roster_positions.specs.Tables.{entries_in};
ghost use Rattle.roster_positions.specs.Rows.{bytes_of};
ghost use Rattle.roster_leave.specs.LeftParts.{ranking_left, nodes_left, lists_left};

use answers::Refusal;
use limits::ENTRY_WIDTH;
use roster_parts::RosterBytes;

// how many entries of a list are of others than the leaver, whatever their shifts
pub(crate) fn others(list: &[u8], number: u8) -> usize
    requires { length list.now ≤ 510 }
    ensures { (result ≡ length (without number (entries_in list.now))) × (result ≤ 255) }
{
    let n = list.len() / ENTRY_WIDTH;
    let mut k: usize = 0;
    for i in 0..n {
        let at = ENTRY_WIDTH * i;
        if number == list[at] {
            continue;
        }
        k += 1;
    }
    k
}

// those entries
pub(crate) fn append_others(out: &mut RosterBytes, list: &[u8], number: u8)
    ensures { Grown (bytes_of (without number (entries_in list.now))) out.old out.new }
{
    let count = list.len() / ENTRY_WIDTH;
    for i in 0..count {
        let at = ENTRY_WIDTH * i;
        let x = list[at];
        let shift = list[at + 1];
        if number == x {
            continue;
        }
        out.push_entry(x, shift);
    }
}

// a stand's list without the leaver's entries; those behind them move up
pub fn append_ranking(out: &mut RosterBytes, strict: &[u8], tied: &[u8], number: u8)
    requires { (length strict.now ≤ 510) × (length tied.now ≤ 510) }
    ensures { Grown (ranking_left number strict.now tied.now) out.old out.new }
{
    let a = others(strict, number);
    let b = others(tied, number);
    out.push(a as u8);
    out.push(b as u8);
    append_others(&mut *out, strict, number);
    append_others(&mut *out, tied, number);
}

// both sides' counts and quotas, the first n bytes of the file: the leaver's quota is zero
pub fn nodes_left(file: &[u8], n: usize, number: u8) -> RosterBytes
    ensures { Holds (nodes_left file.now n number) result }
{
    let mut out = RosterBytes::new();
    out.append(roster_positions::part(file, 0, n));
    let place = number as usize;
    out.roster[place] = 0;
    out
}

// the surveyors' lists, which start at a place of the file and end at another; the leaver's, from `mine` to `next`, is empty
pub fn lists_left(file: &[u8], start: usize, mine: usize, next: usize, end: usize) -> RosterBytes
    requires { (start ≤ mine) × (next ≤ end) }
    ensures { Holds (lists_left file.now start mine next end) result }
{
    let before = roster_positions::part(file, start, mine - start);
    let behind = roster_positions::part(file, next, end - next);
    let mut out = RosterBytes::new();
    out.append(before);
    out.push(0);
    out.append(behind);
    out
}

// n stands' lists from a place of the file on
// (the walk of roster_with::rankings_with; one of both would take a closure, and ask in a `requires` for all that `append_ranking` promises here)
pub(crate) fn rankings_left(file: &[u8], start: usize, n: usize, number: u8) -> RosterBytes
    requires { (start ≤ 20000) × (n ≤ node_limit) }
    ensures { Holds (rankings_left file.now start n number) result }
{
    let mut out = RosterBytes::new();
    let mut at = start;
    for j in 0..n {
        let a = roster_positions::byte_at(file, at) as usize;
        let b = roster_positions::byte_at(file, at + 1) as usize;
        let strict = roster_positions::part(file, at + 2, ENTRY_WIDTH * a);
        let tied = roster_positions::part(file, at + 2 + ENTRY_WIDTH * a, ENTRY_WIDTH * b);
        append_ranking(&mut out, strict, tied, number);
        at += ENTRY_WIDTH * (a + b) + 2;
    }
    out
}

// the roster of ns surveyors and nt stands without the pairs of one of them
pub(crate) fn left(file: &[u8], ns: usize, nt: usize, number: u8) -> RosterBytes
    requires { (ns ≤ node_limit) × (nt ≤ node_limit) × (0 < number) × (number ≤ ns) }
    ensures { Holds (left_bytes file.now ns nt number) result }
{
    let s = number as usize;
    let start = ns + nt + 4;
    let mine = roster_parts::lists_end(file, start, s - 1);
    let next = roster_parts::lists_end(file, mine, 1);
    let end = roster_parts::lists_end(file, next, ns - s);
    let mut out = nodes_left(file, ns + nt + 2, number);
    let lists = lists_left(file, start, mine, next, end);
    let rankings = rankings_left(file, end + 2, nt, number);
    out.append_section(ns, &lists);
    out.append_section(2 * nt, &rankings);
    out
}

// "A leaver keeps the number, with quota zero and no pairs"; 16: "a leaver's number outside the surveyors"
pub fn leave(file: &[u8], number: u8) -> Result<RosterBytes, Refusal>
    requires { RosterAccepted file.now }
    ensures { ChangedBy (λ R. leave_on R number) file.now result }
{
    let ns = roster_positions::byte_at(file, 0);
    if number == 0 {
        return Err(Refusal::NoSuchSurveyor);
    }
    if ns < number {
        return Err(Refusal::NoSuchSurveyor);
    }
    let m = ns as usize;
    let n = roster_positions::byte_at(file, m + 1) as usize;
    Ok(left(file, m, n, number))
}
