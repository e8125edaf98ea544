// An accepted roster with its stands renumbered and reordered (request W-214 of document 02), from two tables that have a place for each number
// up to 32: `order` has for each new number the stand that takes it, `numbers` for each stand its new number. A route gives both, and its way
// back has them the other way round.
#![tactic(auto)]

ghost use Rattle.std.specs.Prelude.{◌≡◌, ◌+◌, ◌*◌, ◌≤◌, length};
ghost use Rattle.model.specs.Limits.{node_limit};
ghost use Rattle.roster_parts.specs.Growth.{Grown, Holds};
ghost use Rattle.roster_routes.specs.Reordered.{Ordered, rankings_end, quotas_in_order, rankings_in_order, reordered_bytes};
ghost use Rattle.roster_routes.specs.Marking.{RouteRead, Places};

use limits::ENTRY_WIDTH;
use roster_parts::{NUMBERS, RosterBytes};

// the new number of each stand, where a route names each once: "the first named becoming 1 and so on"; none for "a route that is not each stand exactly
// once": another count, 0, a number above the stands, one twice
pub fn route_of(route: &[u8], nt: usize) -> Option<[u8; NUMBERS]>
    requires { nt ≤ node_limit }
    ensures { RouteRead route.now nt result }
{
    if route.len() != nt {
        return None;
    }
    let mut numbers = [0u8; NUMBERS];
    for i in 0..nt {
        let t = route[i] as usize;
        if t == 0 {
            return None;
        }
        if nt < t {
            return None;
        }
        if 0 < numbers[t] {
            return None;
        }
        numbers[t] = (i + 1) as u8;
    }
    Some(numbers)
}

// the stands in the route's order, the first at place 1
pub fn places_of(route: &[u8]) -> [u8; NUMBERS]
    requires { length route.now ≤ node_limit }
    ensures { Places route.now result }
{
    let mut places = [0u8; NUMBERS];
    places[1..=route.len()].copy_from_slice(route);
    places
}

// the place behind k stands' lists
pub(crate) fn rankings_end(file: &[u8], start: usize, k: usize) -> usize
    requires { (start ≤ 40000) × (k ≤ node_limit) }
    ensures { (result ≡ rankings_end file.now k start) × (result ≤ start + 1022 * k) }
{
    let mut at = start;
    for i in 0..k {
        let a = roster_positions::byte_at(file, at) as usize;
        let b = roster_positions::byte_at(file, at + 1) as usize;
        at += ENTRY_WIDTH * (a + b) + 2;
    }
    at
}

// the stands' quotas in the order; that of stand t is so many bytes behind a place of the file
pub(crate) fn append_quotas(
    out: &mut RosterBytes,
    file: &[u8],
    place: usize,
    count: usize,
    order: &[u8],
)
    requires { (place ≤ 1000) × (count ≤ node_limit) }
    ensures { Grown (quotas_in_order file.now place order.now 0 count) out.old out.new }
{
    for i in 0..count {
        let t = roster_positions::byte_at(order, i + 1) as usize;
        let q = roster_positions::byte_at(file, place + t);
        out.push(q);
    }
}

// the stands' lists in the order, of those from a place of the file on
pub(crate) fn append_rankings_in_order(
    out: &mut RosterBytes,
    file: &[u8],
    start: usize,
    count: usize,
    order: &[u8],
)
    requires { (start ≤ 40000) × (count ≤ node_limit) × Ordered count order.now }
    ensures { Grown (rankings_in_order file.now start order.now 0 count) out.old out.new }
{
    for i in 0..count {
        let t = roster_positions::byte_at(order, i + 1) as usize;
        let at = rankings_end(file, start, t - 1);
        let a = roster_positions::byte_at(file, at) as usize;
        let b = roster_positions::byte_at(file, at + 1) as usize;
        let list = roster_positions::part(file, at, ENTRY_WIDTH * (a + b) + 2);
        out.append(list);
    }
}

// the roster of ns surveyors and nt stands, reordered
pub fn reordered(file: &[u8], ns: usize, nt: usize, order: &[u8], numbers: &[u8]) -> RosterBytes
    requires { (ns ≤ node_limit) × (nt ≤ node_limit) × Ordered nt order.now }
    ensures { Holds (reordered_bytes file.now ns nt order.now numbers.now) result }
{
    let start = ns + nt + 4;
    let end = roster_parts::lists_end(file, start, ns);
    let nodes = roster_positions::part(file, 0, ns + 2);
    let mut out = RosterBytes::new();
    out.append(nodes);
    append_quotas(&mut out, file, ns + 1, nt, order);
    // one part serves both sections: each is as large as a roster, and to make it costs its size
    let mut part = RosterBytes::new();
    part.append_lists(file, start, ns, numbers);
    out.append_section(ns, &part);
    part.len = 0;
    append_rankings_in_order(&mut part, file, end + 2, nt, order);
    out.append_section(2 * nt, &part);
    out
}
