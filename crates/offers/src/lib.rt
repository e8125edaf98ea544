// Plain offers (request W-212) on the arrays of an accepted roster of the one-to-one profile: "surveyors offer, best stand first, each stand keeps its
// best offer, and who is turned away offers on". One offer a turn, until nobody has one left to make; then the edges that the stands keep.
#![tactic(auto)]

ghost use Rattle.std.specs.Prelude.{false, ◌≤◌, ◌<◌};
ghost use Rattle.std.specs.Option.{SomeIff};
ghost use Rattle.model.specs.Limits.{node_limit, entry_limit, empty_rank};
ghost use Rattle.arrays.specs.Passes.{Low, Shows};
ghost use Rattle.offers.specs.NextEntry.{Inside, entry_from, offering, offer_of, Missed};
ghost use Rattle.offers.specs.Turned.{Sized, Turned};
ghost use Rattle.offers.specs.KeptEdges.{Own, is_kept};
ghost use Rattle.offers.specs.Running.{Ready, unmarked, Ended, Offered};
ghost use Rattle.reduction_cells.specs.Cells.{Celled};

use instance::Instance;
use limits::{EMPTY_RANK, ENTRY_LIMIT};
use reduction_cells::CELLS;

// Where the offers stand: for each surveyor the rank below which all pairs were turned away, for each stand the edge that it keeps, m if none, and for
// each surveyor whether a stand keeps a pair there. That a stand keeps none is a number too, since the laws of a turn (Turned.turn_of) read it so.
#[derive(Drop)]
pub struct Standing {
    pub next: [u8; 32],
    pub kept: [u16; 32],
    pub held: [bool; 32],
}

// A surveyor's first edge from a rank on. All pairs before that rank were turned away.
pub(crate) fn entry_from(m: usize, cell: &[u16; CELLS], s: usize, from: u8) -> Option<usize>
    requires { (s < node_limit) × (m ≤ entry_limit) × Inside m cell.now }
    ensures { SomeIff result (entry_from m cell.now s from < m) (entry_from m cell.now s from) }
{
    let b = s * EMPTY_RANK;
    for r in from as usize..EMPTY_RANK {
        let e = cell[b + r] as usize;
        if e < m {
            return Some(e);
        }
    }
    None
}

// The edge that is offered next, looked for from a surveyor on: nobody before that one has an offer to make.
pub(crate) fn next_offer(
    g: &Instance,
    cell: &[u16; CELLS],
    standing: &Standing,
    from: usize,
) -> Option<usize>
    requires { (g.now.ns ≤ node_limit) × (g.now.m ≤ entry_limit) × Inside g.now.m cell.now
        × Missed (offering g.now.m cell.now standing.now.next standing.now.held) from }
    ensures { SomeIff result (offer_of g.now.m g.now.ns cell.now standing.now.next standing.now.held < g.now.m)
        (offer_of g.now.m g.now.ns cell.now standing.now.next standing.now.held) }
{
    for s in from..g.ns {
        if standing.held[s] {
            continue;
        }
        if let Some(e) = entry_from(g.m, cell, s, standing.next[s]) {
            return Some(e);
        }
    }
    None
}

// After the offer of e: a stand without an edge keeps it; else it keeps the better of the two, and the other's surveyor goes on behind it. The lowest
// surveyor that it touched is returned: whoever is before that one stands as before.
pub(crate) fn turn(g: &Instance, standing: &mut Standing, e: usize) -> usize
    requires m_le_entry_limit { (g.now.m ≤ entry_limit) × (e < g.now.m) × Low g.now.m g.now.sv node_limit × Low g.now.m g.now.st node_limit
        × Low g.now.m g.now.rank_s empty_rank }
    requires sized { Sized standing.old × Low node_limit standing.old.kept 65536 }
    ensures { Turned g.now.m g.now.sv g.now.st g.now.rank_s g.now.rank_t standing.old e standing.new result }
{
    let s = g.sv[e] as usize;
    let t = g.st[e] as usize;
    let d = standing.kept[t] as usize;
    if g.m <= d {
        standing.kept[t] = e as u16;
        standing.held[s] = true;
        return s;
    }
    if g.rank_t[e] < g.rank_t[d] {
        let u = g.sv[d] as usize;
        standing.kept[t] = e as u16;
        standing.held[u] = false;
        standing.held[s] = true;
        standing.next[u] = g.rank_s[d] + 1;
        return u.min(s);
    }
    standing.next[s] = g.rank_s[e] + 1;
    s
}

// The edges that the stands keep, each an edge of its stand.
pub(crate) fn kept_edges(m: usize, st: &[u8; ENTRY_LIMIT], kept: &[u16; 32]) -> [bool; ENTRY_LIMIT]
    requires { (m ≤ entry_limit) × Low m st.now node_limit × Low node_limit kept.now 65536 × Own m st.now kept.now }
    ensures { Shows false result m (is_kept st.now kept.now) }
{
    let mut plan = [false; ENTRY_LIMIT];
    for k in kept {
        let e = *k as usize;
        if m <= e {
            continue;
        }
        plan[e] = true;
    }
    plan
}

// All offers, one a turn: each edge is offered at most once. At first nobody was turned away, and no stand keeps an edge.
pub(crate) fn run(g: &Instance, cell: &[u16; CELLS]) -> Standing
    requires { Ready g.now × Celled g.now.m g.now.sv g.now.rank_s unmarked cell.now }
    ensures { Ended g.now result }
{
    let mut standing = Standing {
        next: [0u8; 32],
        kept: [g.m as u16; 32],
        held: [false; 32],
    };
    let mut from: usize = 0;
    for i in 0..g.m {
        let Some(e) = next_offer(g, cell, &standing, from) else {
            break;
        };
        from = turn(g, &mut standing, e);
    }
    standing
}

// The plan of the offers, as the flags of its edges.
pub fn offers(g: Instance) -> [bool; ENTRY_LIMIT]
    requires { Ready g }
    ensures { Offered g result }
{
    let strict = [false; ENTRY_LIMIT];
    let mut cell = [g.m as u16; CELLS];
    reduction_cells::cells(g.m, &g.sv, &g.rank_s, &strict, &mut cell[..]);
    let standing = run(&g, &cell);
    kept_edges(g.m, &g.st, &standing.kept)
}
