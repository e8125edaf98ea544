// By node, the lowest edge that each rule names there, m if it names none: rules 1, 4, 5, 6 and one half of rule 2 by surveyor, rules 3, 7 and the
// other half by stand; and which stands are loose. Each is read from the node's own edges; after a step only the nodes that due a change are read
// anew. Rules 1 and 2 are asked at every step, the later ones only where both are silent, so each group has its own functions.
// That a rule names no edge is the number m, no None: a step takes the least of a row of numbers, which m never is where there is an edge. And a function
// here takes the arrays of a node's side one by one, since which of the two sides' arrays it reads is what its two calls differ in.
#![tactic(auto)]

ghost use Rattle.std.specs.Prelude.{◌≡◌, ◌&&◌, ◌||◌, cond, List, ℕ, ◌≤◌, ◌<◌, length, leb, ltb};
ghost use Rattle.lists.specs.Search.{low};
ghost use Rattle.model.specs.Limits.{node_limit, empty_rank};
ghost use Rattle.arrays.specs.ArrayInstance.{at, flag};
ghost use Rattle.arrays.specs.Passes.{Low};
ghost use Rattle.reduction_lists.specs.Listed.{Listed, Shelved};
ghost use Rattle.reduction_lists.specs.Walks.{at_node};
ghost use Rattle.reduction_cells.specs.Cells.{Spread, best_of, worst_of};
ghost use Rattle.reduction_cells.specs.Painted.{among};
ghost use Rattle.reduction_nodes.specs.Renewed.{RenewedBy};
ghost use Rattle.reduction_nodes.specs.Numbers.{Readable, first_of, second_of, seconds_of, surveyor_of, stand_of, surveyors_of, stands_of};
ghost use Rattle.reduction_nodes.specs.Numbers.{Rows, Surveyed, Stood, surveyor_numbers, stand_numbers};

use limits::{EMPTY_RANK, ENTRY_LIMIT};
use reduction_cells::TABLE;

// Of one node, by rule.
#[derive(Drop)]
pub struct Surveyor {
    pub rule4: u16,
    pub rule5: u16,
    pub rule6: u16,
}

#[derive(Drop)]
pub struct Stand {
    pub rule3: u16,
    pub rule7: u16,
    pub loose: bool,
}

// The tables of both sides: their cells and lists.
#[derive(Drop)]
pub struct EdgeTables {
    pub surveyors: [u16; TABLE],
    pub stands: [u16; TABLE],
}

// The nodes whose later numbers are old, and due to be read anew.
#[derive(Drop)]
pub struct DueNodes {
    pub surveyors: [bool; 32],
    pub stands: [bool; 32],
}

// The numbers of the later rules by node: of surveyors rules 4, 5 and 6, a row each, of stands rules 3 and 7, and which stands are loose.
#[derive(Drop)]
pub struct LateNumbers {
    pub surveyors: [[u16; 32]; 3],
    pub stands: [[u16; 32]; 2],
    pub loose: [bool; 32],
    pub due: DueNodes,
}

// Rule 2 at one end: at least as many better arrows come in as the quota.
pub fn second(
    m: usize,
    rank: &[u8; ENTRY_LIMIT],
    table: &[u16; TABLE],
    v: usize,
    rem: &[bool; ENTRY_LIMIT],
    f: &[bool; ENTRY_LIMIT],
    q: u16,
) -> u16
    requires { (v < node_limit) × Readable m table.now × Low m rank.now empty_rank }
    ensures { (end : List ℕ) → Listed m end table.now
        → result ≡ second_of m end rank.now table.now rem.now f.now q v }
{
    let bar = reduction_cells::bar(m, table, v, f, q);
    if bar >= 33 {
        return m as u16;
    }
    reduction_lists::behind(m, table, v, rem, rank, bar) as u16
}

// Rule 3: the first arrow in, where there are no more arrows than the quota, n in all.
pub fn third(
    m: usize,
    table: &[u16; TABLE],
    v: usize,
    rem: &[bool; ENTRY_LIMIT],
    f: &[bool; ENTRY_LIMIT],
    n: u16,
    q: u16,
) -> u16
    requires { (v < node_limit) × Shelved m table.now }
    ensures { (end : List ℕ) → Listed m end table.now
        → result ≡ cond (leb n q) (low (at_node end v (λ d. flag rem.now d && flag f.now d)) m) m }
{
    if n <= q {
        return reduction_lists::both(m, table, v, rem, f) as u16;
    }
    m as u16
}

// Rule 4: the worst of N(s), where it is larger than the quota.
pub fn fourth(
    m: usize,
    table: &[u16; TABLE],
    v: usize,
    other: &[u8; ENTRY_LIMIT],
    rem: &[bool; ENTRY_LIMIT],
    lo: &[bool; 32],
    f: &[bool; ENTRY_LIMIT],
    n: u16,
    q: u16,
) -> u16
    requires { (v < node_limit) × Spread m table.now × Low m other.now node_limit }
    ensures { result ≡ cond (ltb q n) (worst_of m table.now
        (λ d. flag rem.now d && (flag lo.now (at other.now d) || flag f.now d)) v) m }
{
    if q < n {
        return reduction_cells::worst(m, table, v, other, rem, lo, f) as u16;
    }
    m as u16
}

// Rules 6 and 7: the best remaining strict edge, where the node has n, fewer than its quota.
pub fn short(
    m: usize,
    table: &[u16; TABLE],
    v: usize,
    rem: &[bool; ENTRY_LIMIT],
    n: u16,
    q: u16,
) -> u16
    requires { (v < node_limit) × Spread m table.now }
    ensures { result ≡ cond (ltb n q) (best_of m table.now (flag rem.now) v) m }
{
    if n < q {
        return reduction_cells::best(m, table, v, rem) as u16;
    }
    m as u16
}

pub fn surveyor_now(
    m: usize,
    st: &[u8; ENTRY_LIMIT],
    table: &[u16; TABLE],
    rem: &[bool; ENTRY_LIMIT],
    fs: &[bool; ENTRY_LIMIT],
    ft: &[bool; ENTRY_LIMIT],
    lo: &[bool; 32],
    q: u16,
    v: usize,
) -> Surveyor
    requires { (v < node_limit) × Readable m table.now × Low m st.now node_limit }
    ensures { (sv : List ℕ) → Listed m sv table.now
        → result ≡ surveyor_of m sv st.now table.now rem.now fs.now ft.now lo.now q v }
{
    let n = reduction_lists::size(m, table, v, st, rem, lo, ft);
    let rule4 = fourth(m, table, v, st, rem, lo, ft, n, q);
    let rule5 = reduction_lists::idle(m, table, v, st, rem, lo, fs, ft) as u16;
    let rule6 = short(m, table, v, rem, n, q);
    Surveyor {
        rule4: rule4,
        rule5: rule5,
        rule6: rule6,
    }
}

pub fn stand_now(
    m: usize,
    table: &[u16; TABLE],
    rem: &[bool; ENTRY_LIMIT],
    fs: &[bool; ENTRY_LIMIT],
    ft: &[bool; ENTRY_LIMIT],
    q: u16,
    v: usize,
) -> Stand
    requires { (v < node_limit) × Readable m table.now }
    ensures { (st : List ℕ) → Listed m st table.now
        → result ≡ stand_of m st table.now rem.now fs.now ft.now q v }
{
    let n = reduction_lists::tallies(m, table, v, fs, ft);
    let got = n.p;
    let sent = n.q;
    let rule3 = third(m, table, v, rem, fs, got + sent, q);
    let rule7 = short(m, table, v, rem, got, q);
    Stand {
        rule3: rule3,
        rule7: rule7,
        loose: (sent < q) & (got == 0),
    }
}

// Rule 1 at the surveyors of a list, its first n, anew. The list is an array with its number, since memory is fixed; and this and the next stay two
// loops of two lines, for one with a closure would be longer than both.
pub fn first_renewed(
    m: usize,
    table: &[u16; TABLE],
    fs: &[bool; ENTRY_LIMIT],
    ft: &[bool; ENTRY_LIMIT],
    turned: &[u8; EMPTY_RANK],
    n: usize,
    x: &mut [u16; 32],
)
    requires { Shelved m table.now × (length x.old ≡ node_limit) × (n ≤ empty_rank) × Low n turned.now node_limit }
    ensures { (length x.new ≡ node_limit) × ((sv : List ℕ) → Listed m sv table.now → RenewedBy (among turned.now n)
        (first_of m sv fs.now ft.now) x.old x.new) }
{
    for i in 0..n {
        let v = turned[i] as usize;
        x[v] = reduction_lists::both(m, table, v, fs, ft) as u16;
    }
}

// Rule 2 at the nodes of a list, all of one side, anew.
pub fn second_renewed(
    m: usize,
    rank: &[u8; ENTRY_LIMIT],
    table: &[u16; TABLE],
    rem: &[bool; ENTRY_LIMIT],
    f: &[bool; ENTRY_LIMIT],
    q: &[u16; 32],
    turned: &[u8; EMPTY_RANK],
    n: usize,
    x: &mut [u16; 32],
)
    requires { Readable m table.now × Low m rank.now empty_rank × (length x.old ≡ node_limit) × (n ≤ empty_rank) × Low n turned.now node_limit }
    ensures { (length x.new ≡ node_limit) × ((end : List ℕ) → Listed m end table.now → RenewedBy (among turned.now n)
        (seconds_of m end rank.now table.now rem.now f.now q.now)
        x.old x.new) }
{
    for i in 0..n {
        let v = turned[i] as usize;
        x[v] = second(m, rank, table, v, rem, f, q[v]);
    }
}

// Rules 4, 5 and 6, a row each, at the surveyors in `due`, anew.
pub fn surveyors_renewed(
    m: usize,
    st: &[u8; ENTRY_LIMIT],
    table: &[u16; TABLE],
    rem: &[bool; ENTRY_LIMIT],
    fs: &[bool; ENTRY_LIMIT],
    ft: &[bool; ENTRY_LIMIT],
    lo: &[bool; 32],
    q: &[u16; 32],
    due: &[bool; 32],
    late: &mut [[u16; 32]; 3],
)
    requires readable { Readable m table.now × Low m st.now node_limit }
    requires rows { Rows 3 late.old }
    ensures rows_2 { Rows 3 late.new }
    ensures by_index { (sv : List ℕ) → Listed m sv table.now → Surveyed (surveyors_of m sv st.now table.now rem.now
        fs.now ft.now lo.now q.now) due.now
        (surveyor_numbers late.old) node_limit
        (surveyor_numbers late.new) }
{
    for v in 0..32 {
        if !due[v] {
            continue;
        }
        let s = surveyor_now(m, st, table, rem, fs, ft, lo, q[v], v);
        late[0][v] = s.rule4;
        late[1][v] = s.rule5;
        late[2][v] = s.rule6;
    }
}

// Rules 3 and 7, a row each, at the stands in `due`, anew, and whether they are loose.
pub fn stands_renewed(
    m: usize,
    table: &[u16; TABLE],
    rem: &[bool; ENTRY_LIMIT],
    fs: &[bool; ENTRY_LIMIT],
    ft: &[bool; ENTRY_LIMIT],
    q: &[u16; 32],
    due: &[bool; 32],
    late: &mut [[u16; 32]; 2],
    loose: &mut [bool; 32],
)
    requires readable { Readable m table.now }
    requires rows { Rows 2 late.old × (length loose.old ≡ node_limit) }
    ensures rows_2 { Rows 2 late.new × (length loose.new ≡ node_limit) }
    ensures by_index { (st : List ℕ) → Listed m st table.now → Stood (stands_of m st table.now rem.now fs.now
        ft.now q.now) due.now (stand_numbers late.old loose.old) node_limit
        (stand_numbers late.new loose.new) }
{
    for v in 0..32 {
        if !due[v] {
            continue;
        }
        let s = stand_now(m, table, rem, fs, ft, q[v], v);
        late[0][v] = s.rule3;
        late[1][v] = s.rule7;
        loose[v] = s.loose;
    }
}
