// The walk that a search found, read back: one column of the layers, level by level, tells how it leads off from a place, and the edges of the plan that go
// and the edges that come are marked, arc by arc.
#![tactic(auto)]

ghost use Rattle.std.specs.Prelude.{◌≡◌, ◌-◌, ◌≤◌, ◌<◌, ℕ};
ghost use Rattle.model.specs.Limits.{entry_limit, node_limit, plan_limit};
ghost use Rattle.arrays.specs.Passes.{Low};
ghost use Rattle.rival_tables.specs.Links.{LinksOf};
ghost use Rattle.rival_levels.specs.Layers.{Small};
ghost use Rattle.rival_walk.specs.Leads.{Column, lead_at};
ghost use Rattle.rival_walk.specs.Edges.{arc_edge};
ghost use Rattle.rival_walk.specs.Walks.{walk_at, Walked};
ghost use Rattle.arrays.specs.Filled.{Made};
ghost use Rattle.rival_tables.specs.Filled.{cell};
ghost use Rattle.rival_tables.specs.Within.{if_below};

use arrays::ListedPlan;
use instance::Instance;
use limits::ENTRY_LIMIT;
use rival_tables::NodeLinks;

// The price of the next layer, and the place that the walk leads to first, if it is not the walk of the layer before.
#[derive(Drop)]
pub struct Way {
    pub price: u8,
    pub place: Option<usize>,
}

// From place i, where row k of the table is the column of the layer before.
pub fn lead(n: usize, arcs: &[u8; 4096], table: &[u8; 4096], k: usize, i: usize) -> Way
    requires { (n ≤ plan_limit) × (i < n) × (k < 64) × Small n arcs.now × ((y : ℕ) → y < n → cell table.now k y ≤ 133) }
    ensures { (result.price ≡ (lead_at arcs.now n (cell table.now k) i).0) × (result.place ≡ if_below n (lead_at arcs.now n (cell table.now k) i).1) }
{
    let b = i * 64;
    let c = k * 64;
    let mut v = 133u8.min(table[c + i] + 2) as usize;
    let mut place = None;
    for y in 0..n {
        let s = arcs[b + y] as usize + table[c + y] as usize;
        if s < v {
            v = s;
            place = Some(y);
        }
    }
    Way {
        price: v as u8,
        place,
    }
}

// The price alone. The sum of two prices is cut off at 255, which is above all that counts, so that it stays a byte.
fn price(n: usize, arcs: &[u8; 4096], table: &[u8; 4096], k: usize, i: usize) -> u8
    requires { (n ≤ plan_limit) × (i < n) × (k < 64) × ((y : ℕ) → y < n → cell table.now k y ≤ 133) }
    ensures { result ≡ (lead_at arcs.now n (cell table.now k) i).0 }
{
    let b = i * 64;
    let c = k * 64;
    let mut v = 133u8.min(table[c + i] + 2);
    for y in 0..n {
        let onward = table[c + y];
        let a = arcs[b + y].min(255 - onward);
        v = (a + onward).min(v);
    }
    v
}

// The column in the layer of the arcs.
pub fn first_column(n: usize, arcs: &[u8; 4096], j: usize) -> [u8; 64]
    requires { (n ≤ plan_limit) × (j < n) }
    ensures { Made 0 result (λ i. cell arcs.now i j) n }
{
    let mut o = [133u8; 64];
    for i in 0..n {
        o[i] = arcs[i * 64 + j];
    }
    o
}

// The column in the layer after that of row k.
pub fn next_column(n: usize, arcs: &[u8; 4096], table: &[u8; 4096], k: usize) -> [u8; 64]
    requires { (n ≤ plan_limit) × (k < 64) × ((y : ℕ) → y < n → cell table.now k y ≤ 133) }
    ensures { Made 0 result (λ i. (lead_at arcs.now n (cell table.now k) i).0) n }
{
    let mut o = [133u8; 64];
    for i in 0..n {
        o[i] = price(n, arcs, table, k, i);
    }
    o
}

// Column j of the layers up to l, a row for each.
pub fn columns(n: usize, arcs: &[u8; 4096], j: usize, l: usize) -> [u8; 4096]
    requires { (n ≤ plan_limit) × (j < n) × (l < 64) × Small n arcs.now }
    ensures { Column arcs.now n j l result }
{
    let first = first_column(n, arcs, j);
    let mut o = [133u8; 4096];
    rival_tables::put_row(&mut o, &first, 0);
    for k in 0..l {
        let row = next_column(n, arcs, &o, k);
        rival_tables::put_row(&mut o, &row, k + 1);
    }
    o
}

// The edges that go, and those that come.
#[derive(Drop)]
pub struct Swap {
    pub gone: [bool; ENTRY_LIMIT],
    pub come: [bool; ENTRY_LIMIT],
}

// The edge of an arc from edge x of the plan to edge z: the first cheapest one. ht and lt are the links through the edges of each stand.
pub fn arc_edge(
    g: &Instance,
    plan: &[bool; ENTRY_LIMIT],
    links_t: &NodeLinks,
    x: usize,
    z: usize,
) -> usize
    requires { (g.now.m ≤ entry_limit) × (x < g.now.m) × (z < g.now.m) × Low g.now.m g.now.st node_limit × LinksOf g.now.m g.now.st links_t.now }
    ensures { (result ≡ arc_edge g.now.m g.now.sv g.now.st g.now.rank_s g.now.rank_t plan.now x z) × (result < 1024) }
{
    let t = g.st[x] as usize;
    let b = g.rank_t[x];
    let s = g.sv[z];
    let a = g.rank_s[z];
    let mut v = 133;
    let mut o = 0;
    let mut f = links_t.head[t] as usize;
    while f < g.m {
        let p = vote_ranks::rated(b, g.rank_t[f]);
        let q = vote_ranks::rated(a, g.rank_s[f]);
        if (!plan[f] & (g.sv[f] == s)) & (p + q < v) {
            v = p + q;
            o = f;
        }
        f = links_t.next[f] as usize;
    }
    o
}

// The walk of level l from place i to place j. It is read back by the layers below l, whose column of place j is made first.
pub fn walk(
    g: &Instance,
    plan: &ListedPlan,
    links_t: &NodeLinks,
    arcs: &[u8; 4096],
    l: usize,
    i: usize,
    j: usize,
    start: Swap,
) -> Swap
    requires { (g.now.m ≤ entry_limit) × (plan.now.n ≤ plan_limit) × Low plan.now.n plan.now.edges.now g.now.m × Small plan.now.n arcs.now × (l < 64)
        × (i < plan.now.n) × (j < plan.now.n)
        × Low g.now.m g.now.st node_limit × LinksOf g.now.m g.now.st links_t.now }
    ensures { Walked start
        (walk_at (arc_edge g.now.m g.now.sv g.now.st g.now.rank_s g.now.rank_t plan.now.has.now) plan.now.edges.now
        arcs.now plan.now.n j l i) result }
{
    let last = if l > 0 { l - 1 } else { 0 };
    let table = columns(plan.n, arcs, j, last);
    let mut gone = start.gone;
    let mut come = start.come;
    let mut c = i;
    for k in (0..l).rev() {
        if let Some(y) = lead(plan.n, arcs, &table, k, c).place {
            let x = plan.edges[c] as usize;
            let z = plan.edges[y] as usize;
            let f = arc_edge(g, plan.has, links_t, x, z);
            gone[z] = true;
            come[f] = true;
            c = y;
        }
    }
    let x = plan.edges[c] as usize;
    let z = plan.edges[j] as usize;
    let f = arc_edge(g, plan.has, links_t, x, z);
    gone[z] = true;
    come[f] = true;
    Swap {
        gone: gone,
        come: come,
    }
}
