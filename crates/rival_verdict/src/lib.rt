// The verdict on a plan within the quotas with its rival: strong, popular or beaten by what the search found, and the plan without the
// edges that go and with those that come.
#![tactic(auto)]

ghost use Rattle.std.specs.Prelude.{◌≡◌, false, not, ◌&&◌, ◌||◌, ◌≤◌};
ghost use Rattle.lists.specs.Search.{low};
ghost use Rattle.model.specs.Limits.{entry_limit, node_limit, plan_limit};
ghost use Rattle.arrays.specs.ArrayInstance.{flag};
ghost use Rattle.arrays.specs.Passes.{Shows, Low};
ghost use Rattle.rival_tables.specs.Links.{LinksOf};
ghost use Rattle.rival_levels.specs.Layers.{Small, Cheap};
ghost use Rattle.rival_levels.specs.Levels.{SmallEnds};
ghost use Rattle.rival_search.specs.SearchView.{Lists, free_at};
ghost use Rattle.rival_verdict.specs.RivalOfArrays.{RivalShown, ShownFor, NodesAt, RivalOn};
ghost use Rattle.rival_verdict.specs.Judged.{verdict_for, standing_of};

use arrays::ListedPlan;
use instance::Instance;
use limits::ENTRY_LIMIT;
use rival_search::Hunt;
use rival_tables::{NodeLinks, Room};

// A plan is strong if no other draws with it, popular if none beats it.
#[derive(Clone, Copy)]
pub enum Standing {
    Strong,
    Popular,
    Beaten,
}

impl Standing {
    // By what the searches found: something below 0 beats the plan, something below 1 draws with it.
    pub fn of(hunt: Hunt) -> Standing
        ensures { result ≡ standing_of hunt }
    {
        match hunt {
            Hunt::Win(_) => Standing::Beaten,
            Hunt::Draw(_) => Standing::Popular,
            Hunt::Nothing => Standing::Strong,
        }
    }
}

// The plan without the edges that go and with those that come.
pub fn exchanged(
    m: usize,
    plan: &[bool; ENTRY_LIMIT],
    gone: &[bool; ENTRY_LIMIT],
    come: &[bool; ENTRY_LIMIT],
) -> [bool; ENTRY_LIMIT]
    requires { m ≤ entry_limit }
    ensures { Shows false result m (λ e. (flag plan.now e && not (flag gone.now e)) || flag come.now e) }
{
    let mut o = [false; ENTRY_LIMIT];
    for e in 0..m {
        o[e] = (plan[e] & !gone[e]) | come[e];
    }
    o
}

// How a plan stands, and its rival: that of a strong plan is the plan itself.
#[derive(Drop)]
pub struct Judged {
    pub standing: Standing,
    pub rival: [bool; ENTRY_LIMIT],
}

// By both tables: what the searches find, and the plan exchanged by it. hs and ls are the links through the edges of each surveyor, ht and lt those of each
// stand.
fn judged_by_arcs(
    g: &Instance,
    plan: &ListedPlan,
    room: &Room,
    links_s: &NodeLinks,
    links_t: &NodeLinks,
    arcs: &[u8; 4096],
    ends: &[u8; 4096],
) -> Judged
    requires { (g.now.m ≤ entry_limit) × (plan.now.n ≤ plan_limit) × Low g.now.m g.now.sv node_limit × Low g.now.m g.now.st node_limit
        × Low plan.now.n plan.now.edges.now g.now.m
        × Small plan.now.n arcs.now × Cheap plan.now.n arcs.now × SmallEnds plan.now.n ends.now
        × LinksOf g.now.m g.now.sv links_s.now × LinksOf g.now.m g.now.st links_t.now }
    ensures { RivalOn g.now.m g.now.sv g.now.st g.now.rank_s g.now.rank_t plan.now.has.now room.now.s
        room.now.t plan.now.n plan.now.edges.now arcs.now ends.now result.standing result.rival }
{
    let hunt = rival_search::searched_on(plan.n, arcs, ends);
    let found = hunt.find();
    let s = rival_exchange::swap(g, plan, room, links_s, links_t, arcs, found);
    let gone = s.gone;
    let come = s.come;
    let rival = exchanged(g.m, plan.has, &gone, &come);
    Judged {
        standing: Standing::of(hunt),
        rival: rival,
    }
}

// Where no edge has room at both ends. Most plans with room are beaten by an edge of theirs that is better exchanged alone; no table is needed then.
fn judged_by_tables(
    g: &Instance,
    plan: &ListedPlan,
    room: &Room,
    links_s: &NodeLinks,
    links_t: &NodeLinks,
    ps: &[u8; 64],
    pt: &[u8; 64],
) -> Judged
    requires { (g.now.m ≤ entry_limit) × (plan.now.n ≤ plan_limit) × Low g.now.m g.now.sv node_limit × Low g.now.m g.now.st node_limit
        × Lists g.now.m plan.now.has.now plan.now.n plan.now.edges.now
        × NodesAt plan.now.n plan.now.edges.now g.now.sv g.now.st ps.now pt.now
        × Low plan_limit ps.now node_limit × Low plan_limit pt.now node_limit
        × LinksOf g.now.m g.now.sv links_s.now × LinksOf g.now.m g.now.st links_t.now
        × (g.now.m ≤ low (free_at g.now.sv g.now.st plan.now.has.now room.now.s room.now.t) g.now.m) }
    ensures { ShownFor g.now.m g.now.sv g.now.st g.now.rank_s g.now.rank_t plan.now.has.now plan.now.n ps.now
        pt.now
        room.now.s room.now.t (verdict_for result.standing) result.rival }
{
    if let Some(i) = rival_search::alone(g, plan, room, links_s, links_t) {
        let x = plan.edges[i] as usize;
        let s = rival_exchange::ended(g, plan.has, room, links_s, links_t, x, x);
        let gone = s.gone;
        let come = s.come;
        let rival = exchanged(g.m, plan.has, &gone, &come);
        return Judged {
            standing: Standing::Beaten,
            rival: rival,
        };
    }
    let ends = rival_search::terminal_table(g, plan, room, links_s, links_t, ps, pt);
    let rps = rival_tables::gathered(plan.n, plan.edges, &g.rank_s);
    let rpt = rival_tables::gathered(plan.n, plan.edges, &g.rank_t);
    let arcs = rival_arcs::arcs(g, plan.has, links_t, plan.n, ps, pt, &rps, &rpt);
    judged_by_arcs(g, plan, room, links_s, links_t, &arcs, &ends)
}

// From the nodes of the plan's edges and the room at the nodes. An edge with room at both ends beats the plan, whatever the tables say, so it is looked for
// before they are made.
pub fn judged_on(
    g: &Instance,
    plan: &ListedPlan,
    room: &Room,
    ps: &[u8; 64],
    pt: &[u8; 64],
) -> Judged
    requires { (g.now.m ≤ entry_limit) × (plan.now.n ≤ plan_limit) × Low g.now.m g.now.sv node_limit × Low g.now.m g.now.st node_limit
        × Lists g.now.m plan.now.has.now plan.now.n plan.now.edges.now
        × NodesAt plan.now.n plan.now.edges.now g.now.sv g.now.st ps.now pt.now
        × Low plan_limit ps.now node_limit × Low plan_limit pt.now node_limit }
    ensures { ShownFor g.now.m g.now.sv g.now.st g.now.rank_s g.now.rank_t plan.now.has.now plan.now.n ps.now
        pt.now
        room.now.s room.now.t (verdict_for result.standing) result.rival }
{
    if let Some(f) = rival_tables::direct(g, plan.has, room) {
        let gone = [false; ENTRY_LIMIT];
        let come = rival_exchange::gained([false; ENTRY_LIMIT], g.m, f);
        let rival = exchanged(g.m, plan.has, &gone, &come);
        return Judged {
            standing: Standing::Beaten,
            rival: rival,
        };
    }
    let links_s = NodeLinks::of(g.m, &g.sv);
    let links_t = NodeLinks::of(g.m, &g.st);
    judged_by_tables(g, plan, room, &links_s, &links_t, ps, pt)
}

// From the plan's list and the quotas.
pub fn judge(g: &Instance, plan: &ListedPlan) -> Judged
    requires { (g.now.m ≤ entry_limit) × (plan.now.n ≤ plan_limit) × Low g.now.m g.now.sv node_limit × Low g.now.m g.now.st node_limit
        × Lists g.now.m plan.now.has.now plan.now.n plan.now.edges.now }
    ensures { RivalShown g.now.m g.now.sv g.now.st g.now.rank_s g.now.rank_t g.now.quota_s g.now.quota_t
        plan.now.has.now
        (verdict_for result.standing) result.rival }
{
    let ps = rival_tables::gathered(plan.n, plan.edges, &g.sv);
    let pt = rival_tables::gathered(plan.n, plan.edges, &g.st);
    let room = Room {
        s: rival_tables::rooms(plan.n, &ps, &g.quota_s),
        t: rival_tables::rooms(plan.n, &pt, &g.quota_t),
    };
    judged_on(g, plan, &room, &ps, &pt)
}
