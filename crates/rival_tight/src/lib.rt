// The first closed walk below k, by tight arcs alone: those that some closed walk below k may go by, as the table of costs tells. They are few, and a pass
// over the arcs of a row goes from one to the next.
#![tactic(auto)]

ghost use Rattle.std.specs.Prelude.{◌≡◌, ◌≤◌, ◌<◌};
ghost use Rattle.model.specs.Limits.{plan_limit};
ghost use Rattle.arrays.specs.ArrayInstance.{at};
ghost use Rattle.arrays.specs.Filled.{Made};
ghost use Rattle.rival_tables.specs.Filled.{Rows, cell};
ghost use Rattle.rival_levels.specs.Layers.{Small, Cheap, next_price};
ghost use Rattle.rival_certificate.specs.Certified.{Closed};
ghost use Rattle.rival_tight.specs.Nexts.{NextsRow, Nexts};
ghost use Rattle.rival_tight.specs.Tight.{loops_at, tight_price};

// The tight arcs from place i, with their prices.
fn tight_row(arcs: &[u8; 4096], costs: &[u8; 4096], i: usize, k: u8) -> [u8; 64]
    requires { (i < 64) × (k ≤ 1) }
    ensures { Made 0 result (tight_price arcs.now costs.now k i) 64 }
{
    let mut o = [133u8; 64];
    if costs[i * 64 + i] >= 64 + k {
        return o;
    }
    for j in 0..64 {
        let a = arcs[i * 64 + j];
        let back = costs[j * 64 + i].min(66 + k);
        o[j] = if a < 66 + k - back { a } else { 133 };
    }
    o
}

// The tight arcs from all places.
fn tight(n: usize, arcs: &[u8; 4096], costs: &[u8; 4096], k: u8) -> [u8; 4096]
    requires { (n ≤ plan_limit) × (k ≤ 1) }
    ensures { Rows result n (tight_price arcs.now costs.now k) }
{
    let mut o = [133u8; 4096];
    for i in 0..n {
        let row = tight_row(arcs, costs, i, k);
        rival_tables::put_row(&mut o, &row, i);
    }
    o
}

// From each column of row i the next one that has an arc, 64 if there is none: a byte and no Option, as its one test ends the pass and keeps it inside the row.
fn nexts_row(arcs: &[u8; 4096], i: usize) -> [u8; 64]
    requires { i < 64 }
    ensures { NextsRow (cell arcs.now i) (at result) }
{
    let mut o = [64u8; 64];
    let mut next = 64u8;
    for y in (0..64).rev() {
        o[y] = next;
        if arcs[i * 64 + y] < 133 {
            next = y as u8;
        }
    }
    o
}

// The same for all rows.
fn nexts(n: usize, arcs: &[u8; 4096]) -> [u8; 4096]
    requires { n ≤ plan_limit }
    ensures { Nexts n arcs.now result }
{
    let mut o = [64u8; 4096];
    for i in 0..n {
        let row = nexts_row(arcs, i);
        rival_tables::put_row(&mut o, &row, i);
    }
    o
}

// Row i of the next layer, arc by arc.
fn sparse_row(n: usize, arcs: &[u8; 4096], nexts: &[u8; 4096], d: &[u8; 4096], i: usize) -> [u8; 64]
    requires { (n ≤ plan_limit) × (i < n) × Small n d.now × Cheap n arcs.now × Nexts n arcs.now nexts.now }
    ensures { Made 0 result (next_price arcs.now d.now n i) 64 }
{
    let b = i * 64;
    let mut o = rival_levels::kept_row(d, b);
    let mut y = 0;
    while y < n {
        let a = arcs[b + y];
        if a < 133 {
            let c = y * 64;
            rival_levels::lower(&mut o, d, c, a);
        }
        y = nexts[b + y] as usize;
    }
    o
}

// The next layer, arc by arc.
fn sparse_layer(n: usize, arcs: &[u8; 4096], nexts: &[u8; 4096], d: &[u8; 4096]) -> [u8; 4096]
    requires { (n ≤ plan_limit) × Small n d.now × Cheap n arcs.now × Nexts n arcs.now nexts.now }
    ensures { Rows result n (next_price arcs.now d.now n) }
{
    let mut o = [133u8; 4096];
    for i in 0..n {
        let row = sparse_row(n, arcs, nexts, d, i);
        rival_tables::put_row(&mut o, &row, i);
    }
    o
}

// The first level at which a diagonal is below k, and the place.
fn first_loop(n: usize, arcs: &[u8; 4096], nexts: &[u8; 4096], k: u8) -> Option<rival_levels::Found>
    requires { (n ≤ plan_limit) × (k ≤ 1) × Small n arcs.now × Cheap n arcs.now × Nexts n arcs.now nexts.now }
    ensures { result ≡ loops_at arcs.now n k n 0 }
{
    let mut d = *arcs;
    for l in 0..n {
        let bound = (2 * (l + 1)) as u8 + k;
        if let Some(i) = rival_levels::diagonal(n, &d, bound) {
            return Some(rival_levels::Found::Closed(l, i));
        }
        d = sparse_layer(n, arcs, nexts, &d);
    }
    None
}

// The first closed walk below k, if the table of costs shows that there may be one. One of a single arc needs no tables.
pub fn closed_walk(
    n: usize,
    arcs: &[u8; 4096],
    costs: &[u8; 4096],
    k: u8,
) -> Option<rival_levels::Found>
    requires { (n ≤ plan_limit) × (k ≤ 1) × Small n arcs.now × Cheap n arcs.now × Closed arcs.now costs.now n }
    ensures { result ≡ loops_at arcs.now n k n 0 }
{
    if rival_levels::diagonal(n, costs, 64 + k).is_none() {
        return None;
    }
    if let Some(i) = rival_levels::diagonal(n, arcs, 2 + k) {
        return Some(rival_levels::Found::Closed(0, i));
    }
    let few = tight(n, arcs, costs, k);
    let following = nexts(n, &few);
    first_loop(n, &few, &following, k)
}
