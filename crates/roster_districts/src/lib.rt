// Two accepted rosters side by side (request W-210 of document 02): the bytes of the roster in which the second's surveyors and stands come
// after the first's, numbers moved up; or the refusal of their sums.
#![tactic(auto)]

ghost use Rattle.std.specs.Prelude.{◌≡◌, ◌+◌, ◌≤◌};
ghost use Rattle.model.specs.Limits.{node_limit};
ghost use Rattle.roster_parts.specs.Growth.{Grown, Holds};
ghost use Rattle.roster_districts.specs.Beside.{up_table, quotas_from, nodes_beside, lists_beside, rankings_beside, beside_bytes};
ghost use Rattle.roster_districts.specs.Joining.{Accepted, CountsJoin};

use answers::Refusal;
use limits::{NODE_LIMIT, QUOTA_SUM_LIMIT, ROSTER_SIZE};
use roster_parts::{NUMBERS, RosterBytes};

// "numbers moved up": what each number becomes
pub(crate) fn moved_up(n: u8) -> [u8; NUMBERS]
    requires { n ≤ node_limit }
    ensures { result ≡ up_table n }
{
    std::array::from_fn(|t| n + (t as u8))
}

// both sides' counts and quotas: ns surveyors and nt stands of the first file, ms and mt of the second
pub(crate) fn nodes_beside(
    first: &[u8],
    ns: usize,
    nt: usize,
    second: &[u8],
    ms: usize,
    mt: usize,
) -> RosterBytes
    requires { (ns + ms ≤ node_limit) × (nt + mt ≤ node_limit) }
    ensures { Holds (nodes_beside first.now ns nt second.now ms mt) result }
{
    let s = roster_positions::part(first, 1, ns);
    let s2 = roster_positions::part(second, 1, ms);
    let t = roster_positions::part(first, ns + 2, nt);
    let t2 = roster_positions::part(second, ms + 2, mt);
    let mut out = RosterBytes::new();
    out.push((ns + ms) as u8);
    out.append(s);
    out.append(s2);
    out.push((nt + mt) as u8);
    out.append(t);
    out.append(t2);
    out
}

// the first's surveyors' lists, which start at a place of its file and end at another, and ms of the second's, stand numbers by the table
pub(crate) fn append_lists_beside(
    out: &mut RosterBytes,
    first: &[u8],
    start: usize,
    end: usize,
    second: &[u8],
    place: usize,
    ms: usize,
    table: &[u8],
)
    requires { (start ≤ end) × (place ≤ 20000) × (ms ≤ node_limit) }
    ensures { Grown (lists_beside first.now start end second.now place ms table.now) out.old out.new }
{
    let lists = roster_positions::part(first, start, end - start);
    out.append(lists);
    out.append_lists(second, place, ms, table);
}

// the first's stands' lists, from a place of its file on to its end, and mt of the second's, surveyor numbers by the table
pub(crate) fn append_rankings_beside(
    out: &mut RosterBytes,
    first: &[u8],
    start: usize,
    second: &[u8],
    place: usize,
    mt: usize,
    table: &[u8],
)
    requires { (place ≤ 40000) × (mt ≤ node_limit) }
    ensures { Grown (rankings_beside first.now start second.now place mt table.now) out.old out.new }
{
    let lists = roster_positions::part(first, start, ROSTER_SIZE);
    out.append(lists);
    out.append_rankings(second, place, mt, table);
}

// the roster of both
pub fn beside(
    first: &[u8],
    ns: usize,
    nt: usize,
    second: &[u8],
    ms: usize,
    mt: usize,
) -> RosterBytes
    requires { (ns + ms ≤ node_limit) × (nt + mt ≤ node_limit) }
    ensures { Holds (beside_bytes first.now ns nt second.now ms mt) result }
{
    let end = roster_parts::lists_end(first, ns + nt + 4, ns);
    let end2 = roster_parts::lists_end(second, ms + mt + 4, ms);
    let stands = moved_up(nt as u8);
    let surveyors = moved_up(ns as u8);
    let mut out = nodes_beside(first, ns, nt, second, ms, mt);
    // one part serves both sections: each is as large as a roster, and to make it costs its size
    let mut part = RosterBytes::new();
    append_lists_beside(
        &mut part,
        first,
        ns + nt + 4,
        end,
        second,
        ms + mt + 4,
        ms,
        &stands,
    );
    out.append_section(ns + ms, &part);
    part.len = 0;
    append_rankings_beside(&mut part, first, end + 2, second, end2 + 2, mt, &surveyors);
    out.append_section(2 * (nt + mt), &part);
    out
}

// the sum of both sides' quotas, of so many nodes from a place of each file on
pub(crate) fn quotas_of_both(
    first: &[u8],
    at: usize,
    n: usize,
    second: &[u8],
    place: usize,
    m: usize,
) -> usize
    requires { (n ≤ node_limit) × (m ≤ node_limit) }
    ensures { result ≡ quotas_from first.now at n + quotas_from second.now place m }
{
    let a = roster_with::quota_sum(roster_positions::part(first, at, n));
    let b = roster_with::quota_sum(roster_positions::part(second, place, m));
    a + b
}

// How many surveyors and stands each of two files has.
#[derive(Clone, Copy)]
pub struct Counts {
    pub ns: usize,
    pub nt: usize,
    pub ms: usize,
    pub mt: usize,
}

// "then sums past document 01's limits meet 2 and then 3"; else the counts, by which `beside` joins the two. The roster of both is no part of the answer:
// each `Result` that is made of so large a value costs its size once more, cleared.
pub fn counts_of_both(first: &[u8], second: &[u8]) -> Result<Counts, Refusal>
    requires { Accepted first.now × Accepted second.now }
    ensures { CountsJoin first.now second.now result }
{
    let ns = roster_positions::byte_at(first, 0) as usize;
    let nt = roster_positions::byte_at(first, ns + 1) as usize;
    let ms = roster_positions::byte_at(second, 0) as usize;
    let mt = roster_positions::byte_at(second, ms + 1) as usize;
    if (NODE_LIMIT as usize) < ns + ms {
        return Err(Refusal::TooMany);
    }
    if (NODE_LIMIT as usize) < nt + mt {
        return Err(Refusal::TooMany);
    }
    let s = quotas_of_both(first, 1, ns, second, 1, ms);
    if (QUOTA_SUM_LIMIT as usize) < s {
        return Err(Refusal::QuotaTooHigh);
    }
    let t = quotas_of_both(first, ns + 2, nt, second, ms + 2, mt);
    if (QUOTA_SUM_LIMIT as usize) < t {
        return Err(Refusal::QuotaTooHigh);
    }
    Ok(Counts { ns, nt, ms, mt })
}
