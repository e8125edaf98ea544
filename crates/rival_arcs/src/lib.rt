// The table of the arcs between the edges of a plan: for two places in the plan's list, the least price of an edge outside the plan that lies at the
// stand of the first and at the surveyor of the second; 133 where there is none, a price above all that count (arc_price says so), so that sums and minima
// of bytes need no test. A row is made by the links through the edges of its stand and, for
// each of them, through the places of its surveyor.
#![tactic(auto)]

ghost use Rattle.std.specs.Prelude.{◌≡◌, List, ℕ, ◌+◌, ◌≤◌, ◌<◌, length, eqb};
ghost use Rattle.model.specs.Limits.{entry_limit, node_limit, plan_limit};
ghost use Rattle.theory_votes.specs.Score.{rate};
ghost use Rattle.arrays.specs.ArrayInstance.{at};
ghost use Rattle.arrays.specs.Passes.{Low};
ghost use Rattle.arrays.specs.Filled.{Made};
ghost use Rattle.arrays.specs.Linked.{Linked};
ghost use Rattle.rival_tables.specs.Links.{LinksOf};
ghost use Rattle.rival_tables.specs.Filled.{Rows};
ghost use Rattle.rival_tables.specs.Cheapest.{offer};
ghost use Rattle.rival_arcs.specs.Arcs.{arc_price};

use instance::Instance;
use limits::ENTRY_LIMIT;
use rival_tables::NodeLinks;

// One more edge is offered to a row: it lies at surveyor s with rank r there, and its price at the stand is a. The promise holds for any surveyors ps of
// the places that are linked so, and those below for any stands st of the edges.
pub fn joined(
    row: &mut [u8; 64],
    rps: &[u8; 64],
    first: &[u16; 32],
    after: &[u16; 64],
    s: u8,
    r: u8,
    a: u8,
)
    requires { (length row.old ≡ 64) × ((ps : List ℕ) × Linked 64 ps first.now after.now) × (s < 32) × (a ≤ 2) }
    ensures { (length row.new ≡ 64) × ((ps : List ℕ) → Linked 64 ps first.now after.now
        → Made 0 row.new (λ j. offer (eqb s (at ps j)) (a + rate (at rps.now j) r) (at row.old j)) 64) }
{
    let v = s as usize;
    let mut j = first[v] as usize;
    while j < 64 {
        let p = a + vote_ranks::rated(rps[j], r);
        row[j] = p.min(row[j]);
        j = after[j] as usize;
    }
}

// The row of an edge of the plan with stand t and rank b there.
pub fn arc_row(
    g: &Instance,
    plan: &[bool; ENTRY_LIMIT],
    links_t: &NodeLinks,
    rps: &[u8; 64],
    first: &[u16; 32],
    after: &[u16; 64],
    t: u8,
    b: u8,
) -> [u8; 64]
    requires { (g.now.m ≤ entry_limit) × Low g.now.m g.now.sv node_limit × ((st : List ℕ) × LinksOf g.now.m st links_t.now)
        × ((ps : List ℕ) × Linked 64 ps first.now after.now) × (t < 32) }
    ensures { (st ps : List ℕ) → LinksOf g.now.m st links_t.now → Linked 64 ps first.now after.now
        → Made 0 result (λ j. arc_price g.now.m g.now.sv st g.now.rank_s g.now.rank_t plan.now t b (at ps j) (at rps.now j))
        64 }
{
    let mut o = [133u8; 64];
    let v = t as usize;
    let mut f = links_t.head[v] as usize;
    while f < g.m {
        if !plan[f] {
            let a = vote_ranks::rated(b, g.rank_t[f]);
            joined(&mut o, rps, first, after, g.sv[f], g.rank_s[f], a);
        }
        f = links_t.next[f] as usize;
    }
    o
}

// The whole table: the first n rows.
pub fn arcs(
    g: &Instance,
    plan: &[bool; ENTRY_LIMIT],
    links_t: &NodeLinks,
    n: usize,
    ps: &[u8; 64],
    pt: &[u8; 64],
    rps: &[u8; 64],
    rpt: &[u8; 64],
) -> [u8; 4096]
    requires { (g.now.m ≤ entry_limit) × (n ≤ plan_limit) × Low g.now.m g.now.sv node_limit × ((st : List ℕ) × LinksOf g.now.m st links_t.now)
        × Low plan_limit ps.now node_limit × Low n pt.now node_limit }
    ensures { (st : List ℕ) → LinksOf g.now.m st links_t.now → Rows result n
        (λ i j. arc_price g.now.m g.now.sv st g.now.rank_s g.now.rank_t plan.now (at pt.now i)
        (at rpt.now i) (at ps.now j) (at rps.now j)) }
{
    let mut after = [0u16; 64];
    let first = arrays::links(64, &ps[..], &mut after[..]);
    let mut o = [133u8; 4096];
    for i in 0..n {
        let row = arc_row(g, plan, links_t, rps, &first, &after, pt[i], rpt[i]);
        rival_tables::put_row(&mut o, &row, i);
    }
    o
}
