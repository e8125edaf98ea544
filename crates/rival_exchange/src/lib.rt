// The exchange that makes a rival: what the search found is read back, with the first cheapest start and end of a walk, and the edges of the plan that go
// and those that come are marked. hs and ls are the links through the edges of each surveyor, ht and lt those of each stand.
#![tactic(auto)]

ghost use Rattle.std.specs.Prelude.{cond, List, [], ◌∷◌, ◌++◌, ℕ, ◌≤◌, ◌<◌, ltb, ◌≡◌};
ghost use Rattle.model.specs.Limits.{entry_limit, node_limit, plan_limit};
ghost use Rattle.theory_verdict.specs.Ends.{fresh};
ghost use Rattle.arrays.specs.Passes.{Low};
ghost use Rattle.rival_tables.specs.Links.{LinksOf};
ghost use Rattle.rival_levels.specs.Layers.{Small};
ghost use Rattle.rival_walk.specs.Edges.{arc_edge};
ghost use Rattle.rival_walk.specs.Marks.{Marked};
ghost use Rattle.rival_walk.specs.Walks.{walk_at, Walked};
ghost use Rattle.rival_exchange.specs.Ways.{terminal_by, way_of, told, Offered, Begun, round};
ghost use Rattle.rival_search.specs.TwoThresholds.{Bounded};
ghost use Rattle.rival_exchange.specs.Swaps.{Marks, gone_by, come_by};

use arrays::ListedPlan;
use instance::Instance;
use limits::ENTRY_LIMIT;
use rival_levels::Found;
use rival_tables::{NodeLinks, Room};
use rival_walk::Swap;

// The price, the edge gained at the start and the one gained at the end; the number of all edges where the plan's edge is lost. No Options: the test that the
// number is below m also keeps the mark of `gained` inside its array, of which it would have to ask its callers else.
#[derive(Drop)]
pub struct Ends {
    pub price: u8,
    pub start: usize,
    pub stop: usize,
}

// What is held, or a lower offer if it may come.
pub fn offered(ok: bool, p: u8, a: usize, b: usize, held: Ends) -> Ends
    ensures { Offered ok p a b held result }
{
    if ok & (p < held.price) {
        return Ends {
            price: p,
            start: a,
            stop: b,
        };
    }
    held
}

// One start of price a with every end; `free` says that the end may be lost with it. The promise holds for any ranks rs at surveyors that tell both.
pub fn round(
    g: &Instance,
    plan: &[bool; ENTRY_LIMIT],
    room: &Room,
    links_t: &NodeLinks,
    x: usize,
    y: usize,
    start: usize,
    a: u8,
    free: bool,
    held: Ends,
) -> Ends
    requires { (g.now.m ≤ entry_limit) × Low g.now.m g.now.sv node_limit × Low g.now.m g.now.st node_limit × LinksOf g.now.m g.now.st links_t.now
        × (x < g.now.m) × (y < g.now.m) × (a ≤ 3)
        × ((rs : List ℕ) × Begun g.now.m g.now.sv g.now.st rs g.now.rank_t x y start a free) }
    ensures { (rs : List ℕ) → Begun g.now.m g.now.sv g.now.st rs g.now.rank_t x y start a free
        → told g.now.m result ≡ round g.now.m g.now.sv g.now.st rs g.now.rank_t x y plan.now room.now.s
        (way_of g.now.m start) (told g.now.m held) }
{
    let s = g.sv[x];
    let t = g.st[y] as usize;
    let b = g.rank_t[y];
    let mut o = offered(free, a + 3, start, g.m, held);
    let mut d = links_t.head[t] as usize;
    while d < g.m {
        let v = g.sv[d] as usize;
        if !plan[d] & room.s[v] {
            let p = vote_ranks::rated(b, g.rank_t[d]);
            let next = offered((start < g.m) | !(g.sv[d] == s), a + p, start, d, o);
            o = next;
        }
        d = links_t.next[d] as usize;
    }
    o
}

// Every start with every end.
pub fn terminal(
    g: &Instance,
    plan: &[bool; ENTRY_LIMIT],
    room: &Room,
    links_s: &NodeLinks,
    links_t: &NodeLinks,
    x: usize,
    y: usize,
) -> Ends
    requires { (g.now.m ≤ entry_limit) × Low g.now.m g.now.sv node_limit × Low g.now.m g.now.st node_limit × LinksOf g.now.m g.now.sv links_s.now
        × LinksOf g.now.m g.now.st links_t.now × (x < g.now.m) × (y < g.now.m) }
    ensures { told g.now.m result ≡ terminal_by g.now.m g.now.sv g.now.st g.now.rank_s g.now.rank_t x y plan.now room.now.s
        room.now.t }
{
    let s = g.sv[x] as usize;
    let t = g.st[y];
    let b = g.rank_s[x];
    let blank = Ends {
        price: 6,
        start: g.m,
        stop: g.m,
    };
    let mut o = round(g, plan, room, links_t, x, y, g.m, 3, true, blank);
    let mut f = links_s.head[s] as usize;
    while f < g.m {
        let v = g.st[f] as usize;
        if !plan[f] & room.t[v] {
            let a = vote_ranks::rated(b, g.rank_s[f]);
            let next = round(g, plan, room, links_t, x, y, f, a, !(g.st[f] == t), o);
            o = next;
        }
        f = links_s.next[f] as usize;
    }
    o
}

// One more edge is marked, if there is one: the number of all edges stands for none.
pub fn gained(g: [bool; ENTRY_LIMIT], m: usize, c: usize) -> [bool; ENTRY_LIMIT]
    requires { m ≤ entry_limit }
    ensures { Marked g (cond (ltb c m) (c ∷ []) []) result }
{
    let mut o = g;
    if c < m {
        o[c] = true;
    }
    o
}

// The ends of a walk from edge x of the plan to edge y: x goes, and what is gained at the two ends comes.
pub fn ended(
    g: &Instance,
    plan: &[bool; ENTRY_LIMIT],
    room: &Room,
    links_s: &NodeLinks,
    links_t: &NodeLinks,
    x: usize,
    y: usize,
) -> Swap
    requires { (g.now.m ≤ entry_limit) × Low g.now.m g.now.sv node_limit × Low g.now.m g.now.st node_limit × LinksOf g.now.m g.now.sv links_s.now
        × LinksOf g.now.m g.now.st links_t.now × (x < g.now.m) × (y < g.now.m) }
    ensures { Marks result.gone (x ∷ [])
        × Marks result.come
        (fresh
        (terminal_by g.now.m g.now.sv g.now.st g.now.rank_s g.now.rank_t x y plan.now room.now.s
        room.now.t).1.0
        ++ fresh
        (terminal_by g.now.m g.now.sv g.now.st g.now.rank_s g.now.rank_t x y plan.now
        room.now.s room.now.t).1.1) }
{
    let t = terminal(g, plan, room, links_s, links_t, x, y);
    let a = t.start;
    let b = t.stop;
    let gone = gained([false; ENTRY_LIMIT], ENTRY_LIMIT, x);
    let first = gained([false; ENTRY_LIMIT], g.m, a);
    let come = gained(first, g.m, b);
    Swap {
        gone: gone,
        come: come,
    }
}

// What goes and what comes, by what was found.
pub fn swap(
    g: &Instance,
    plan: &ListedPlan,
    room: &Room,
    links_s: &NodeLinks,
    links_t: &NodeLinks,
    arcs: &[u8; 4096],
    found: Option<Found>,
) -> Swap
    requires { (g.now.m ≤ entry_limit) × (plan.now.n ≤ plan_limit) × Low g.now.m g.now.sv node_limit × Low g.now.m g.now.st node_limit
        × Low plan.now.n plan.now.edges.now g.now.m × Small plan.now.n arcs.now
        × Bounded g.now.m plan.now.n found × LinksOf g.now.m g.now.sv links_s.now × LinksOf g.now.m g.now.st links_t.now }
    ensures { Marks result.gone
        (gone_by g.now.m g.now.sv g.now.st g.now.rank_s g.now.rank_t plan.now.has.now room.now.s room.now.t
        plan.now.edges.now arcs.now plan.now.n found)
        × Marks result.come
        (come_by g.now.m g.now.sv g.now.st g.now.rank_s g.now.rank_t plan.now.has.now room.now.s
        room.now.t plan.now.edges.now arcs.now plan.now.n found) }
{
    let blank = Swap {
        gone: [false; ENTRY_LIMIT],
        come: [false; ENTRY_LIMIT],
    };
    let Some(place) = found else {
        return blank;
    };
    match place {
        Found::Direct(f) => Swap {
            gone: [false; ENTRY_LIMIT],
            come: gained([false; ENTRY_LIMIT], g.m, f),
        },
        Found::Alone(i) => {
            let x = plan.edges[i] as usize;
            ended(g, plan.has, room, links_s, links_t, x, x)
        }
        Found::Closed(l, i) => rival_walk::walk(g, plan, links_t, arcs, l, i, i, blank),
        Found::Open(l, i, j) => {
            let x = plan.edges[i] as usize;
            let y = plan.edges[j] as usize;
            let start = ended(g, plan.has, room, links_s, links_t, x, y);
            rival_walk::walk(g, plan, links_t, arcs, l, i, j, start)
        }
    }
}
