// The search for a rival of a plan: the table of the ends; and on it and on the table of the arcs the search below 0, and the search below 1 if that one
// finds nothing. hs and ls are the links through the edges of each surveyor, ht and lt those of each stand: first edges and next ones.
#![tactic(auto)]

ghost use Rattle.std.specs.Prelude.{◌≡◌, ◌⊎◌, ◌≤◌, ◌<◌, IfSome};
ghost use Rattle.model.specs.Limits.{entry_limit, node_limit, plan_limit};
ghost use Rattle.arrays.specs.Passes.{Low};
ghost use Rattle.rival_tables.specs.Links.{LinksOf};
ghost use Rattle.rival_levels.specs.Layers.{Small, Cheap};
ghost use Rattle.rival_levels.specs.Levels.{SmallEnds};
ghost use Rattle.rival_certificate.specs.Certified.{Closed};
ghost use Rattle.rival_search.specs.SearchView.{EndsFor, alone_price, alone_at};
ghost use Rattle.rival_search.specs.TwoThresholds.{places_at, found_in, OnTables};
ghost use Rattle.rival_tables.specs.Within.{if_below};

use arrays::ListedPlan;
use instance::Instance;
use limits::ENTRY_LIMIT;
use rival_gains::Side;
use rival_levels::Found;
use rival_tables::{NodeLinks, Room};

// The table of the ends, from the ends of the plan's edges and the room at the nodes. Where no node has room, as in every plan of 64 edges, nothing can be
// gained: each edge of the plan is lost at both ends, which costs 6.
pub fn terminal_table(
    g: &Instance,
    plan: &ListedPlan,
    room: &Room,
    links_s: &NodeLinks,
    links_t: &NodeLinks,
    ps: &[u8; 64],
    pt: &[u8; 64],
) -> [u8; 4096]
    requires { (g.now.m ≤ entry_limit) × (plan.now.n ≤ plan_limit) × Low g.now.m g.now.sv node_limit × Low g.now.m g.now.st node_limit
        × LinksOf g.now.m g.now.sv links_s.now × LinksOf g.now.m g.now.st links_t.now
        × Low plan.now.n ps.now node_limit × Low plan.now.n pt.now node_limit × Low plan.now.n plan.now.edges.now entry_limit }
    ensures { EndsFor g.now.m g.now.sv g.now.st g.now.rank_s g.now.rank_t plan.now.has.now room.now.s
        room.now.t plan.now.n plan.now.edges.now ps.now pt.now result }
{
    if rival_tables::first_room(&room.s).is_none() {
        if rival_tables::first_room(&room.t).is_none() {
            return [6u8; 4096];
        }
    }
    let rps = rival_tables::gathered(plan.n, plan.edges, &g.rank_s);
    let rpt = rival_tables::gathered(plan.n, plan.edges, &g.rank_t);
    let starting = Side {
        m: g.m,
        other: &g.st,
        rank: &g.rank_s,
        plan: plan.has,
        room: &room.t,
        links: links_s,
    };
    let stopping = Side {
        m: g.m,
        other: &g.sv,
        rank: &g.rank_t,
        plan: plan.has,
        room: &room.s,
        links: links_t,
    };
    let starts = rival_gains::apart(&starting, plan.n, ps, pt, &rps);
    let stops = rival_gains::apart(&stopping, plan.n, pt, ps, &rpt);
    let gs = rival_gains::gains(&starting, plan.n, ps, &rps);
    let gt = rival_gains::gains(&stopping, plan.n, pt, &rpt);
    rival_tables::terminals(plan.n, &starts, &stops, &gs, &gt)
}

// The price of edge e of the plan if it is exchanged alone.
fn alone_price(
    g: &Instance,
    plan: &[bool; ENTRY_LIMIT],
    room: &Room,
    links_s: &NodeLinks,
    links_t: &NodeLinks,
    e: usize,
) -> u8
    requires { (g.now.m ≤ entry_limit) × (e < g.now.m) × Low g.now.m g.now.sv node_limit × Low g.now.m g.now.st node_limit
        × LinksOf g.now.m g.now.sv links_s.now × LinksOf g.now.m g.now.st links_t.now }
    ensures { result ≡ alone_price g.now.m g.now.sv g.now.st g.now.rank_s g.now.rank_t plan.now room.now.s
        room.now.t e }
{
    let s = g.sv[e];
    let t = g.st[e];
    let starting = Side {
        m: g.m,
        other: &g.st,
        rank: &g.rank_s,
        plan: plan,
        room: &room.t,
        links: links_s,
    };
    let stopping = Side {
        m: g.m,
        other: &g.sv,
        rank: &g.rank_t,
        plan: plan,
        room: &room.s,
        links: links_t,
    };
    let a = rival_gains::least_rates(&starting, s, g.rank_s[e], t);
    let b = rival_gains::least_rates(&stopping, t, g.rank_t[e], s);
    let apart = a.apart.min(b.apart);
    (apart + 3).min(a.all + b.all)
}

// The first edge of the plan that is better exchanged alone: its place on the diagonal of the table of the ends is below 4. Most plans with room are beaten
// by one, and it is found without the table.
pub fn alone(
    g: &Instance,
    plan: &ListedPlan,
    room: &Room,
    links_s: &NodeLinks,
    links_t: &NodeLinks,
) -> Option<usize>
    requires { (g.now.m ≤ entry_limit) × (plan.now.n ≤ plan_limit) × Low g.now.m g.now.sv node_limit × Low g.now.m g.now.st node_limit
        × LinksOf g.now.m g.now.sv links_s.now × LinksOf g.now.m g.now.st links_t.now × Low plan.now.n plan.now.edges.now g.now.m }
    ensures { result ≡ if_below plan.now.n (alone_at g.now.m g.now.sv g.now.st g.now.rank_s g.now.rank_t plan.now.has.now room.now.s room.now.t
        plan.now.edges.now plan.now.n) }
{
    if rival_tables::first_room(&room.s).is_none() {
        if rival_tables::first_room(&room.t).is_none() {
            return None;
        }
    }
    for i in 0..plan.n {
        let price = alone_price(g, plan.has, room, links_s, links_t, plan.edges[i] as usize);
        if price < 4 {
            return Some(i);
        }
    }
    None
}

// Two levels of the search below 0: what they find, or nothing, which decides nothing.
fn first_levels(n: usize, arcs: &[u8; 4096], ends: &[u8; 4096]) -> Option<Found>
    requires { (n ≤ plan_limit) × Small n arcs.now × Cheap n arcs.now × SmallEnds n ends.now }
    ensures { (result ≡ None) ⊎ (result ≡ places_at arcs.now ends.now n 0) }
{
    if let Some(i) = rival_levels::diagonal(n, ends, 4) {
        return Some(Found::Alone(i));
    }
    let b = if n < 2 { n } else { 2 };
    rival_levels::levels(n, b, arcs, ends, 0)
}

// The search below k: a walk without an arc, then the levels. Where a table of costs shows that no walk with a start and an end is below k, closed walks
// alone are left to look for.
fn search(
    n: usize,
    arcs: &[u8; 4096],
    ends: &[u8; 4096],
    certificate: &Option<[u8; 4096]>,
    k: u8,
) -> Option<Found>
    requires { (n ≤ plan_limit) × (k ≤ 1) × Small n arcs.now × Cheap n arcs.now × SmallEnds n ends.now
        × IfSome certificate.now (λ costs. Closed arcs.now costs n) }
    ensures { result ≡ places_at arcs.now ends.now n k }
{
    if let Some(i) = rival_levels::diagonal(n, ends, 4 + k) {
        return Some(Found::Alone(i));
    }
    if let Some(costs) = certificate {
        if rival_levels::pair(n, costs, ends, 68 + k).is_none() {
            return rival_tight::closed_walk(n, arcs, costs, k);
        }
    }
    rival_levels::levels(n, n, arcs, ends, k)
}

// What is found below 0, or else below 1, or nothing.
#[derive(Clone, Copy)]
pub enum Hunt {
    Win(Found),
    Draw(Found),
    Nothing,
}

impl Hunt {
    // What was found, whether below 0 or below 1.
    pub fn find(self) -> Option<Found>
        ensures { result ≡ found_in self }
    {
        match self {
            Hunt::Win(found) => Some(found),
            Hunt::Draw(found) => Some(found),
            Hunt::Nothing => None,
        }
    }
}

// Both searches with the table of costs.
fn searched_by_costs(n: usize, arcs: &[u8; 4096], ends: &[u8; 4096]) -> Hunt
    requires { (n ≤ plan_limit) × Small n arcs.now × Cheap n arcs.now × SmallEnds n ends.now }
    ensures { OnTables arcs.now ends.now n result }
{
    let certificate = rival_certificate::certificate(n, arcs);
    if let Some(found) = search(n, arcs, ends, &certificate, 0) {
        return Hunt::Win(found);
    }
    match search(n, arcs, ends, &certificate, 1) {
        Some(found) => Hunt::Draw(found),
        None => Hunt::Nothing,
    }
}

// Both searches on the two tables. Most plans that are beaten are so by a walk of the first two levels.
pub fn searched_on(n: usize, arcs: &[u8; 4096], ends: &[u8; 4096]) -> Hunt
    requires { (n ≤ plan_limit) × Small n arcs.now × Cheap n arcs.now × SmallEnds n ends.now }
    ensures { OnTables arcs.now ends.now n result }
{
    match first_levels(n, arcs, ends) {
        Some(found) => Hunt::Win(found),
        None => searched_by_costs(n, arcs, ends),
    }
}
