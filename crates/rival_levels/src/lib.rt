// The layers of the search for a rival, their tests, and the search level by level. A layer is a table of 64 columns, one row for each edge of the plan.
#![tactic(auto)]

ghost use Rattle.std.specs.Prelude.{◌≡◌, ℕ, ◌+◌, ◌*◌, ◌≤◌, ◌<◌, min, ltb, length};
ghost use Rattle.lists.specs.Search.{low};
ghost use Rattle.model.specs.Limits.{plan_limit};
ghost use Rattle.arrays.specs.ArrayInstance.{at};
ghost use Rattle.rival_tables.specs.Filled.{cell, Rows};
ghost use Rattle.rival_tables.specs.Within.{if_below};
ghost use Rattle.rival_levels.specs.Layers.{kept_price, Small, Cheap, next_price};
ghost use Rattle.rival_levels.specs.Levels.{SmallEnds, diag_at, place_at, changed_at, levels_at};
ghost use Rattle.arrays.specs.Filled.{Made};

// A row as it is counted with one arc more.
pub fn kept_row(d: &[u8; 4096], b: usize) -> [u8; 64]
    requires { (b + 64 ≤ 4096) × ((j : ℕ) → j < 64 → at d.now (b + j) ≤ 133) }
    ensures { Made 0 result (λ j. kept_price (at d.now (b + j))) 64 }
{
    let mut o = [0u8; 64];
    for j in 0..64 {
        o[j] = 133u8.min(d[b + j] + 2);
    }
    o
}

// A row made lower where an arc of price a and the row from b on are lower together.
pub fn lower(row: &mut [u8; 64], d: &[u8; 4096], b: usize, a: u8)
    requires { (length row.old ≡ 64) × (b + 64 ≤ 4096) × ((j : ℕ) → j < 64 → at d.now (b + j) ≤ 133) × (a ≤ 4) }
    ensures { (length row.new ≡ 64)
        × Made 0 row.new (λ j. min (a + at d.now (b + j)) (at row.old j)) 64 }
{
    for j in 0..64 {
        row[j] = (a + d[b + j]).min(row[j]);
    }
}

// Row i of the next layer.
pub fn next_row(n: usize, arcs: &[u8; 4096], d: &[u8; 4096], i: usize) -> [u8; 64]
    requires { (n ≤ plan_limit) × (i < n) × Small n d.now × Cheap n arcs.now }
    ensures { Made 0 result (next_price arcs.now d.now n i) 64 }
{
    let b = i * 64;
    let mut o = kept_row(d, b);
    for y in 0..n {
        let a = arcs[b + y];
        if a < 133 {
            let c = y * 64;
            lower(&mut o, d, c, a);
        }
    }
    o
}

// The next layer.
pub fn next_layer(n: usize, arcs: &[u8; 4096], d: &[u8; 4096]) -> [u8; 4096]
    requires { (n ≤ plan_limit) × Small n d.now × Cheap n arcs.now }
    ensures { Rows result n (next_price arcs.now d.now n) }
{
    let mut o = [133u8; 4096];
    for i in 0..n {
        let row = next_row(n, arcs, d, i);
        rival_tables::put_row(&mut o, &row, i);
    }
    o
}

// What a search finds, by places in the plan's list: an edge with room at both ends, a walk without an arc, a closed walk of a level, a walk of a level with
// a start and an end.
#[derive(Clone, Copy)]
pub enum Found {
    Direct(usize),
    Alone(usize),
    Closed(usize, usize),
    Open(usize, usize, usize),
}

#[derive(Clone, Copy)]
pub struct Place {
    pub row: usize,
    pub column: usize,
}

// The first place on the diagonal that is below a bound.
pub fn diagonal(n: usize, d: &[u8; 4096], bound: u8) -> Option<usize>
    requires { n ≤ plan_limit }
    ensures { result ≡ if_below n (diag_at (cell d.now) n bound) }
{
    for i in 0..n {
        if d[i * 64 + i] < bound {
            return Some(i);
        }
    }
    None
}

// The least of the sums of a row of prices and a row of ends.
fn least_end(n: usize, d: &[u8; 4096], terminals: &[u8; 4096], b: usize) -> u8
    requires { (n ≤ plan_limit) × (b + 64 ≤ 4096) × ((j : ℕ) → j < n → at d.now (b + j) + at terminals.now (b + j) ≤ 139) }
    ensures { (j : ℕ) → j < n → result ≤ at d.now (b + j) + at terminals.now (b + j) }
{
    let mut v = 139;
    for j in 0..n {
        v = (d[b + j] + terminals[b + j]).min(v);
    }
    v
}

// The first column in which a row of prices and a row of ends are below a bound together: most rows have none, which their least sum tells sooner.
pub fn ends(n: usize, d: &[u8; 4096], terminals: &[u8; 4096], b: usize, bound: u8) -> Option<usize>
    requires { (n ≤ plan_limit) × (b + 64 ≤ 4096) × ((j : ℕ) → j < n → at d.now (b + j) + at terminals.now (b + j) ≤ 139) }
    ensures { result ≡ if_below n (low (λ j. ltb (at d.now (b + j) + at terminals.now (b + j)) bound) n) }
{
    let least = least_end(n, d, terminals, b);
    if least >= bound {
        return None;
    }
    for j in 0..n {
        if d[b + j] + terminals[b + j] < bound {
            return Some(j);
        }
    }
    None
}

// The first row in which that finds a column, and the column.
pub fn pair(n: usize, d: &[u8; 4096], terminals: &[u8; 4096], bound: u8) -> Option<Place>
    requires { (n ≤ plan_limit) × Small n d.now × SmallEnds n terminals.now }
    ensures { result ≡ place_at (cell d.now) terminals.now n bound }
{
    for i in 0..n {
        let b = i * 64;
        if let Some(j) = ends(n, d, terminals, b, bound) {
            return Some(Place { row: i, column: j });
        }
    }
    None
}

// The first column in which the next layer's row is lower than the row kept.
pub fn lowered(n: usize, d: &[u8; 4096], e: &[u8; 4096], b: usize) -> Option<usize>
    requires { (n ≤ plan_limit) × (b + 64 ≤ 4096) × ((j : ℕ) → j < 64 → at d.now (b + j) ≤ 133) }
    ensures { result ≡ if_below n (low (λ j. ltb (at e.now (b + j)) (kept_price (at d.now (b + j)))) n) }
{
    for j in 0..n {
        let kept = 133u8.min(d[b + j] + 2);
        if e[b + j] < kept {
            return Some(j);
        }
    }
    None
}

// The first row that has such a column.
pub fn changed(n: usize, d: &[u8; 4096], e: &[u8; 4096]) -> Option<usize>
    requires { (n ≤ plan_limit) × Small n d.now }
    ensures { result ≡ if_below n (changed_at (cell d.now) (cell e.now) n) }
{
    for i in 0..n {
        let b = i * 64;
        if lowered(n, d, e, b).is_some() {
            return Some(i);
        }
    }
    None
}

// The first b levels, until a layer changes nothing.
pub fn levels(n: usize, b: usize, arcs: &[u8; 4096], terminals: &[u8; 4096], k: u8) -> Option<Found>
    requires { (n ≤ plan_limit) × (b ≤ n) × (k ≤ 1) × Small n arcs.now × Cheap n arcs.now × SmallEnds n terminals.now }
    ensures { result ≡ levels_at arcs.now terminals.now n k b 0 }
{
    let mut d = *arcs;
    for l in 0..b {
        let bound = (2 * (l + 1)) as u8 + k;
        if let Some(i) = diagonal(n, &d, bound) {
            return Some(Found::Closed(l, i));
        }
        if let Some(p) = pair(n, &d, terminals, bound + 4) {
            return Some(Found::Open(l, p.row, p.column));
        }
        if l + 1 >= b {
            return None;
        }
        let e = next_layer(n, arcs, &d);
        if changed(n, &d, &e).is_none() {
            return None;
        }
        d = e;
    }
    None
}
