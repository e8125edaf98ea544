// A table of costs, 64 added, one for each two places, that no arc makes lower: no walk costs less than it says. It is made as the costs of the least
// walks; nothing is promised of how it is made, since one pass over it checks all that is asked.
#![tactic(auto)]

ghost use Rattle.std.specs.Prelude.{IfSome, ◌≡◌, true, ℕ, ◌+◌, ◌*◌, ◌≤◌, ◌<◌, min};
ghost use Rattle.model.specs.Limits.{plan_limit};
ghost use Rattle.arrays.specs.ArrayInstance.{at};
ghost use Rattle.rival_levels.specs.Layers.{Cheap};
ghost use Rattle.rival_certificate.specs.Certified.{Closed};

// The cost of an arc, 64 added and its two votes taken off; 127 where there is none.
fn arc_cost(a: u8) -> u8
    ensures { result ≡ min a 65 + 62 }
{
    a.min(65) + 62
}

// The costs of the walks of one arc.
fn arc_costs(arcs: &[u8; 4096]) -> [u8; 4096] {
    let mut o = [127u8; 4096];
    for c in 0..4096 {
        o[c] = arc_cost(arcs[c]);
    }
    o
}

// The cost of one walk after another: costs are at most 127.
fn joint(a: u8, b: u8) -> u8 {
    let x = a.min(127);
    let y = b.min(127);
    let s = x + y;
    if s < 64 { 0 } else { s - 64 }
}

// Row v of a table.
fn row_of(d: &[u8; 4096], v: usize) -> [u8; 64]
    requires { v < 64 }
{
    let mut o = [0u8; 64];
    let from = v * 64;
    o.copy_from_slice(&d[from..from + 64]);
    o
}

// Row i made lower by walks that cost a and go on as row `on`.
fn row_through(d: &mut [u8; 4096], on: &[u8; 64], i: usize, a: u8)
    requires { i < 64 }
{
    for j in 0..64 {
        let s = joint(a, on[j]);
        d[i * 64 + j] = s.min(d[i * 64 + j]);
    }
}

// All rows made lower by walks through place v, whose row is `on`.
fn rows_through(n: usize, d: &mut [u8; 4096], on: &[u8; 64], v: usize)
    requires { (n ≤ plan_limit) × (v < 64) }
{
    for i in 0..n {
        let a = d[i * 64 + v];
        if a < 127 {
            row_through(&mut *d, on, i, a);
        }
    }
}

// The costs of the least walks, by all places that they may go through.
fn walk_costs(n: usize, arcs: &[u8; 4096]) -> [u8; 4096]
    requires { n ≤ plan_limit }
{
    let mut d = arc_costs(arcs);
    for v in 0..n {
        let on = row_of(&d, v);
        rows_through(n, &mut d, &on, v);
    }
    d
}

// Whether no cost in the first n rows is above that of an arc. Without a way out of the loop, so that the built code compares many costs at once.
fn within(n: usize, arcs: &[u8; 4096], d: &[u8; 4096]) -> bool
    requires { n ≤ plan_limit }
    ensures { result ≡ true → (c : ℕ) → c < n * 64 → at d.now c ≤ min (at arcs.now c) 65 + 62 }
{
    let mut ok = true;
    for c in 0..n * 64 {
        let most = arc_cost(arcs[c]);
        ok = ok & (d[c] <= most);
    }
    ok
}

// The table, if no arc makes it lower: its next layer is nowhere below it.
pub fn certificate(n: usize, arcs: &[u8; 4096]) -> Option<[u8; 4096]>
    requires { (n ≤ plan_limit) × Cheap n arcs.now }
    ensures { IfSome result (λ table. Closed arcs.now table n) }
{
    let d = walk_costs(n, arcs);
    if !within(n, arcs, &d) {
        return None;
    }
    let e = rival_levels::next_layer(n, arcs, &d);
    if rival_levels::changed(n, &d, &e).is_some() {
        return None;
    }
    Some(d)
}
