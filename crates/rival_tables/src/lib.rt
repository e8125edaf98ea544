// Tables of the search for a rival and what they are made of: room at the nodes, an offer taken or not, an array read through a list of edges, a row put
// into a table of 64 columns, and the table of the ends.
#![tactic(auto)]

ghost use Rattle.std.specs.Prelude.{◌≡◌, ◌≤◌, ◌<◌, min, length, not, ◌&&◌, false, eqb, ltb};
ghost use Rattle.model.specs.Limits.{entry_limit, plan_limit, node_limit};
ghost use Rattle.arrays.specs.ArrayInstance.{at, flag};
ghost use Rattle.arrays.specs.Passes.{Low, Shows};
ghost use Rattle.rival_tables.specs.Filled.{Put, Grid};
ghost use Rattle.rival_tables.specs.Cheapest.{offer};
ghost use Rattle.arrays.specs.Filled.{Made};
ghost use Rattle.rival_tables.specs.Terminals.{terminal_at, Rates};
ghost use Rattle.lists.specs.Sum.{count};
ghost use Rattle.lists.specs.Search.{low};
ghost use Rattle.rival_tables.specs.Links.{LinksOf};
ghost use Rattle.rival_tables.specs.Within.{if_below};

use instance::Instance;
use limits::ENTRY_LIMIT;

// The links through the edges of each node: its first edge, and from each edge the next one there; the number of all edges where there is none. No Options:
// a link stays two bytes, and the one test that ends a walk is also the one that keeps it inside the arrays. Walks along links have no count to go by.
#[derive(Drop)]
pub struct NodeLinks {
    pub head: [u16; 32],
    pub next: [u16; ENTRY_LIMIT],
}

impl NodeLinks {
    // By the node of each edge.
    pub fn of(m: usize, end: &[u8; ENTRY_LIMIT]) -> NodeLinks
        requires { (m ≤ entry_limit) × Low m end.now node_limit }
        ensures { LinksOf m end.now result }
    {
        let mut next = [0u16; ENTRY_LIMIT];
        let head = arrays::links(m, &end[..], &mut next[..]);
        NodeLinks { head, next }
    }
}

// Whether each surveyor has room, and each stand.
#[derive(Drop)]
pub struct Room {
    pub s: [bool; 32],
    pub t: [bool; 32],
}

// How many edges of the plan lie at a node, from the nodes of its n edges.
pub fn lying(n: usize, nodes: &[u8; 64], v: u8) -> u8
    requires { n ≤ plan_limit }
    ensures { result ≡ count (λ j. eqb (at nodes.now j) v) n }
{
    let mut c = 0;
    for j in 0..n {
        c += (nodes[j] == v) as u8;
    }
    c
}

// The nodes that have room.
pub fn rooms(n: usize, nodes: &[u8; 64], quota: &[u8; 32]) -> [bool; 32]
    requires { n ≤ plan_limit }
    ensures { Made false result (λ v. ltb (count (λ j. eqb (at nodes.now j) v) n) (at quota.now v)) 32 }
{
    let mut o = [false; 32];
    for v in 0..32 {
        let c = lying(n, nodes, v as u8);
        o[v] = c < quota[v];
    }
    o
}

// The first node with room.
pub fn first_room(room: &[bool; 32]) -> Option<usize>
    ensures { result ≡ if_below 32 (low (flag room.now) 32) }
{
    for v in 0..32 {
        if room[v] {
            return Some(v);
        }
    }
    None
}

// The first edge outside the plan with room at both ends.
pub fn direct(g: &Instance, plan: &[bool; ENTRY_LIMIT], room: &Room) -> Option<usize>
    requires { (g.now.m ≤ entry_limit) × Low g.now.m g.now.sv node_limit × Low g.now.m g.now.st node_limit }
    ensures { result ≡ if_below g.now.m (low (λ f. not (flag plan.now f) && (flag room.now.s (at g.now.sv f) && flag room.now.t (at g.now.st f))) g.now.m) }
{
    for f in 0..g.m {
        let s = g.sv[f] as usize;
        let t = g.st[f] as usize;
        if !plan[f] & (room.s[s] & room.t[t]) {
            return Some(f);
        }
    }
    None
}

// The row of starts at place i.
pub fn terminal_row(
    n: usize,
    starts: &[u8; 4096],
    stops: &[u8; 4096],
    gs: &[u8; 64],
    gt: &[u8; 64],
    i: usize,
) -> [u8; 64]
    requires { (n ≤ plan_limit) × (i < n) × Rates n starts.now stops.now gs.now gt.now }
    ensures { Made 0 result (terminal_at starts.now stops.now gs.now gt.now i) n }
{
    let mut o = [0u8; 64];
    for j in 0..n {
        let a = starts[i * 64 + j].min(stops[j * 64 + i]);
        let b = a + 3;
        let c = gs[i] + gt[j];
        o[j] = b.min(c);
    }
    o
}

// All rows.
pub fn terminals(
    n: usize,
    starts: &[u8; 4096],
    stops: &[u8; 4096],
    gs: &[u8; 64],
    gt: &[u8; 64],
) -> [u8; 4096]
    requires { (n ≤ plan_limit) × Rates n starts.now stops.now gs.now gt.now }
    ensures { Grid result n (terminal_at starts.now stops.now gs.now gt.now) }
{
    let mut o = [0u8; 4096];
    for i in 0..n {
        let row = terminal_row(n, starts, stops, gs, gt, i);
        put_row(&mut o, &row, i);
    }
    o
}

// What is held, or a lower price if it may come.
pub fn offered(t: bool, p: u8, v: u8) -> u8
    ensures { result ≡ offer t p v }
{
    let l = p.min(v);
    if t { l } else { v }
}

// What an array has for the first n edges of a list; 0 behind them.
pub fn gathered(n: usize, es: &[u16; 64], xs: &[u8; ENTRY_LIMIT]) -> [u8; 64]
    requires { (n ≤ plan_limit) × Low n es.now entry_limit }
    ensures { Shows 0 result n (λ i. at xs.now (at es.now i)) }
{
    let mut o = [0u8; 64];
    for i in 0..n {
        let e = es[i] as usize;
        o[i] = xs[e];
    }
    o
}

// Row i of a table becomes another one.
pub fn put_row(table: &mut [u8; 4096], row: &[u8; 64], i: usize)
    requires { (i < 64) × (length table.old ≡ 4096) }
    ensures { (length table.new ≡ 4096) × Put table.old row.now i table.new }
{
    let from = i * 64;
    table[from..from + 64].copy_from_slice(&row[..]);
}
