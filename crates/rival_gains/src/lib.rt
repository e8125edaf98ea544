// What a walk may gain at an end: the least rate of an edge outside the plan that lies at the same node as an edge of the plan on one side and has
// room on the other, for each edge of the plan; the same with a node of the other side shut out. The two sides are told apart by the arrays. The edges
// of a node are found by the links alone, and the promises hold for any ends that these link.
#![tactic(auto)]

ghost use Rattle.std.specs.Prelude.{◌≡◌, not, List, ℕ, ◌≤◌, ◌<◌, length, eqb};
ghost use Rattle.model.specs.Limits.{entry_limit, node_limit, plan_limit};
ghost use Rattle.arrays.specs.ArrayInstance.{at};
ghost use Rattle.arrays.specs.Passes.{Low};
ghost use Rattle.arrays.specs.Filled.{Made};
ghost use Rattle.rival_tables.specs.Links.{LinksOf};
ghost use Rattle.rival_tables.specs.Filled.{Rows};
ghost use Rattle.rival_tables.specs.Cheapest.{offer};
ghost use Rattle.rival_gains.specs.Gains.{gain_price, gain_price_but};

use limits::ENTRY_LIMIT;
use rival_tables::NodeLinks;

// What a gain on one side is told by: the number of edges, their nodes on the other side and their ranks on this one, the edges of the plan, the room on the
// other side, and the links on this one.
#[derive(Clone, Copy)]
pub struct Side<'a> {
    pub m: usize,
    pub other: &'a [u8; ENTRY_LIMIT],
    pub rank: &'a [u8; ENTRY_LIMIT],
    pub plan: &'a [bool; ENTRY_LIMIT],
    pub room: &'a [bool; 32],
    pub links: &'a NodeLinks,
}

// a number that is no node's. No Option: what least_rates promises holds of any number, and the innermost loop compares it without a test of its own.
const NO_NODE: u8 = 32;

// One more edge is offered to a row, in the columns of other nodes than its own, d; its rate is p.
pub fn parted(row: &mut [u8; 64], po: &[u8; 64], d: u8, p: u8)
    requires { length row.old ≡ 64 }
    ensures { (length row.new ≡ 64)
        × Made 0 row.new (λ j. offer (not (eqb d (at po.now j))) p (at row.old j)) 64 }
{
    for j in 0..64 {
        row[j] = rival_tables::offered(!(d == po[j]), p, row[j]);
    }
}

// The least rates for an edge of the plan at node e with rank b, each column's node shut out; 3 if there is none.
pub fn apart_row(side: &Side, po: &[u8; 64], e: u8, b: u8) -> [u8; 64]
    requires { (side.now.m ≤ entry_limit) × Low side.now.m side.now.other.now node_limit × ((end : List ℕ) × LinksOf side.now.m end side.now.links.now)
        × (e < 32) }
    ensures { (end : List ℕ) → LinksOf side.now.m end side.now.links.now
        → Made 0 result (λ j. gain_price_but side.now.m end side.now.other.now side.now.rank.now side.now.plan.now side.now.room.now 3 e b
        (at po.now j)) 64 }
{
    let mut o = [3u8; 64];
    let u = e as usize;
    let mut f = side.links.head[u] as usize;
    while f < side.m {
        let d = side.other[f];
        let v = d as usize;
        if !side.plan[f] & side.room[v] {
            let p = vote_ranks::rated(b, side.rank[f]);
            parted(&mut o, po, d, p);
        }
        f = side.links.next[f] as usize;
    }
    o
}

// The same for all edges of the plan, a row for each. Where no node has room, nothing can be gained.
pub fn apart(side: &Side, n: usize, pe: &[u8; 64], po: &[u8; 64], pr: &[u8; 64]) -> [u8; 4096]
    requires { (side.now.m ≤ entry_limit) × Low side.now.m side.now.other.now node_limit × ((end : List ℕ) × LinksOf side.now.m end side.now.links.now)
        × (n ≤ plan_limit) × Low n pe.now node_limit }
    ensures { (end : List ℕ) → LinksOf side.now.m end side.now.links.now
        → Rows result n (λ i j. gain_price_but side.now.m end side.now.other.now side.now.rank.now side.now.plan.now side.now.room.now 3
        (at pe.now i) (at pr.now i) (at po.now j)) }
{
    let mut o = [3u8; 4096];
    if rival_tables::first_room(side.room).is_none() {
        return o;
    }
    for i in 0..n {
        let row = apart_row(side, po, pe[i], pr[i]);
        rival_tables::put_row(&mut o, &row, i);
    }
    o
}

// The least rates for one edge of the plan: of all edges that may be gained at its node, 6 if there is none, and of those whose other node is not the
// plan's edge's own, 3 if there is none.
#[derive(Drop)]
pub struct LeastRates {
    pub all: u8,
    pub apart: u8,
}

// Both by one walk along the edges of node e; b is the rank there of the plan's edge, d its other node, or a number that is no node's.
pub fn least_rates(side: &Side, e: u8, b: u8, d: u8) -> LeastRates
    requires { (side.now.m ≤ entry_limit) × Low side.now.m side.now.other.now node_limit × ((end : List ℕ) × LinksOf side.now.m end side.now.links.now)
        × (e < 32) }
    ensures { (end : List ℕ) → LinksOf side.now.m end side.now.links.now
        → (result.all ≡ gain_price side.now.m end side.now.other.now side.now.rank.now side.now.plan.now side.now.room.now 6 e b)
        × (result.apart ≡ gain_price_but side.now.m end side.now.other.now side.now.rank.now side.now.plan.now side.now.room.now 3 e b d) }
{
    let mut all = 6;
    let mut apart = 3;
    let u = e as usize;
    let mut f = side.links.head[u] as usize;
    while f < side.m {
        let o = side.other[f];
        let v = o as usize;
        let ok = !side.plan[f] & side.room[v];
        if ok {
            let p = vote_ranks::rated(b, side.rank[f]);
            all = p.min(all);
            apart = rival_tables::offered(!(o == d), p, apart);
        }
        f = side.links.next[f] as usize;
    }
    LeastRates {
        all: all,
        apart: apart,
    }
}

// The least rates for all edges of the plan, no node shut out; 6 if there is none.
pub fn gains(side: &Side, n: usize, pe: &[u8; 64], pr: &[u8; 64]) -> [u8; 64]
    requires { (side.now.m ≤ entry_limit) × Low side.now.m side.now.other.now node_limit × ((end : List ℕ) × LinksOf side.now.m end side.now.links.now)
        × (n ≤ plan_limit) × Low n pe.now node_limit }
    ensures { (end : List ℕ) → LinksOf side.now.m end side.now.links.now
        → Made 0 result (λ i. gain_price side.now.m end side.now.other.now side.now.rank.now side.now.plan.now side.now.room.now 6
        (at pe.now i) (at pr.now i)) n }
{
    let mut o = [6u8; 64];
    if rival_tables::first_room(side.room).is_none() {
        return o;
    }
    for i in 0..n {
        let r = least_rates(side, pe[i], pr[i], NO_NODE);
        o[i] = r.all;
    }
    o
}
