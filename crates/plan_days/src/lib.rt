// Days for the entries of a plan (W-209), over arrays: entry by entry a day that is free at both its ends, or one that is free at its surveyor; an
// entry of its stand that is on that day goes to another, and so on along a chain. Days are counted from 0 here; the sheet's bytes are one more.
// Two tables, by surveyor and by stand, tell for each node and day which entry is there: its number, counted from 1, or 0, one byte as the laws of the tables read it (Tables.Held).
#![tactic(auto)]

ghost use Rattle.std.specs.Prelude.{◌≡◌, map, ◌++◌, ℕ, suc, ◌+◌, ◌≤◌, ◌<◌, length, set, take, drop, eqb};
ghost use Rattle.lists.specs.Search.{low};
ghost use Rattle.lists.specs.Sum.{count};
ghost use Rattle.model.specs.Limits.{node_limit, entry_limit, day_size, last_day};
ghost use Rattle.arrays.specs.ArrayInstance.{at};
ghost use Rattle.arrays.specs.Passes.{Low};
ghost use Rattle.theory_days.specs.Sheets.{spread_by};
ghost use Rattle.plan_days.specs.Chase.{chase_in};
ghost use Rattle.plan_days.specs.DayByDay.{with_day_in, spread_in};
ghost use Rattle.plan_days.specs.Tables.{place, settled, Held};
ghost use Rattle.plan_days.specs.Turns.{Chasing, Placing};
ghost use Rattle.plan_days.specs.Bytes.{Ends};

use limits::{ENTRY_LIMIT, LAST_DAY, PLAN_LIMIT};

// The places of a node in a table, more than there are days, and of all nodes.
const ROW: usize = 16;

const PLACES: usize = 512;

// The ends of the entries on both sides.
#[derive(Drop)]
pub struct EntryEnds {
    pub surveyors: [u8; PLAN_LIMIT],
    pub stands: [u8; PLAN_LIMIT],
}

// The day of each entry, and the tables that tell who is at a node on a day.
#[derive(Drop)]
pub struct Sheet {
    pub day: [u8; PLAN_LIMIT],
    pub at_surveyors: [u8; PLACES],
    pub at_stands: [u8; PLACES],
}

// The ends of a plan's n entries on one side, in the plan's order; 0 behind them.
pub fn ends(n: usize, es: &[u16; PLAN_LIMIT], end: &[u8; ENTRY_LIMIT]) -> [u8; PLAN_LIMIT]
    requires { (n ≤ 64) × (n ≤ length es.now) × ((k : ℕ) → k < n → at es.now k < entry_limit) }
    ensures { Ends n es.now end.now result }
{
    let mut r = [0u8; PLAN_LIMIT];
    for k in 0..n {
        let e = es[k] as usize;
        r[k] = end[e];
    }
    r
}

// Entry cur is on day `to` at its end, and whoever was on it there on the day `other`; who it was.
pub fn settle(end: &[u8; PLAN_LIMIT], cur: usize, to: u8, other: u8, who: &mut [u8; PLACES]) -> u8
    requires { (cur < day_size) × (at end.now cur < node_limit) × (to ≤ last_day) × (other ≤ last_day) }
    ensures { (result ≡ at who.old (place (at end.now cur) to))
        × (who.new ≡ settled who.old (at end.now cur) to other cur) }
{
    let row = ROW * (end[cur] as usize);
    let e = who[row + to as usize];
    who[row + to as usize] = cur as u8 + 1;
    who[row + other as usize] = e;
    e
}

// Who is at entry k's end on a day.
pub fn who_at(end: &[u8; PLAN_LIMIT], k: usize, day: u8, who: &[u8; PLACES]) -> u8
    requires { (k < day_size) × (at end.now k < node_limit) × (day ≤ last_day) }
    ensures { result ≡ at who.now (place (at end.now k) day) }
{
    who[ROW * (end[k] as usize) + day as usize]
}

// Entry k is told at its end on a day.
pub fn tell(end: &[u8; PLAN_LIMIT], k: usize, day: u8, who: &mut [u8; PLACES])
    requires { (k < day_size) × (at end.now k < node_limit) × (day ≤ last_day) }
    ensures { who.new ≡ set who.old (place (at end.now k) day) (k + 1) }
{
    who[ROW * (end[k] as usize) + day as usize] = k as u8 + 1;
}

// The first day free at entry k's end; 9 if there is none.
pub fn free_day(end: &[u8; PLAN_LIMIT], k: usize, who: &[u8; PLACES]) -> u8
    requires { (k < day_size) × (at end.now k < node_limit) }
    ensures { result ≡ low (λ d. eqb (at who.now (place (at end.now k) d)) 0) last_day }
{
    let row = ROW * (end[k] as usize);
    for d in 0..LAST_DAY {
        if who[row + d as usize] == 0 {
            return d;
        }
    }
    LAST_DAY
}

// Entry k has day a; each entry that it and those after it meet takes the other of the two days, at stands b, at surveyors a. Fewer entries than n
// change their days, so that the last to be settled meets nobody.
pub fn chase(n: usize, ends: &EntryEnds, a: u8, b: u8, k: usize, sheet: &mut Sheet)
    requires { Chasing n ends.now.surveyors ends.now.stands a b k sheet.old.day sheet.old.at_surveyors sheet.old.at_stands }
    ensures { (sheet.new.day ≡ chase_in n ends.now.surveyors ends.now.stands a b n k sheet.old.day)
        × Held n ends.now.surveyors sheet.new.day sheet.new.at_surveyors × Held n ends.now.stands sheet.new.day sheet.new.at_stands }
{
    let mut cur = k;
    for i in 0..n {
        let e = settle(&ends.stands, cur, a, b, &mut sheet.at_stands);
        if e == 0 {
            return;
        }
        let x = (e - 1) as usize;
        sheet.day[x] = b;
        let f = settle(&ends.surveyors, x, b, a, &mut sheet.at_surveyors);
        if f == 0 {
            return;
        }
        cur = (f - 1) as usize;
        sheet.day[cur] = a;
    }
    settle(&ends.stands, cur, a, b, &mut sheet.at_stands);
}

// One entry more, the k-th: the first day free at its stand, if it is free at its surveyor too; else a day free at the surveyor, mended at the
// stand.
pub fn with_day(k: usize, ends: &EntryEnds, sheet: &mut Sheet)
    requires { Placing k ends.now.surveyors ends.now.stands sheet.old.day sheet.old.at_surveyors sheet.old.at_stands }
    ensures { (sheet.new.day ≡ with_day_in k ends.now.surveyors ends.now.stands sheet.old.day)
        × Held (k + 1) ends.now.surveyors sheet.new.day sheet.new.at_surveyors
        × Held (k + 1) ends.now.stands sheet.new.day sheet.new.at_stands }
{
    let b = free_day(&ends.stands, k, &sheet.at_stands);
    if who_at(&ends.surveyors, k, b, &sheet.at_surveyors) == 0 {
        sheet.day[k] = b;
        tell(&ends.surveyors, k, b, &mut sheet.at_surveyors);
        tell(&ends.stands, k, b, &mut sheet.at_stands);
        return;
    }
    let a = free_day(&ends.surveyors, k, &sheet.at_surveyors);
    sheet.day[k] = a;
    tell(&ends.surveyors, k, a, &mut sheet.at_surveyors);
    chase(k + 1, ends, a, b, k, sheet);
}

// The days of n entries by their ends, no more of them at one node than there are days.
pub fn days_of(n: usize, ends: &EntryEnds) -> [u8; PLAN_LIMIT]
    requires { (n ≤ day_size) × Low n ends.now.surveyors node_limit × Low n ends.now.stands node_limit
        × ((v : ℕ) → count (λ j. eqb (at ends.now.surveyors j) v) n ≤ last_day) × ((v : ℕ) → count (λ j. eqb (at ends.now.stands j) v) n ≤ last_day) }
    ensures { result ≡ spread_in n ends.now.surveyors ends.now.stands }
{
    let mut sheet = Sheet {
        day: [0u8; PLAN_LIMIT],
        at_surveyors: [0u8; PLACES],
        at_stands: [0u8; PLACES],
    };
    for k in 0..n {
        with_day(k, ends, &mut sheet);
    }
    sheet.day
}

// The first n days, counted from 1, into a buffer's front.
pub fn put_days(n: usize, day: &[u8; PLAN_LIMIT], out: &mut [u8])
    requires { (n ≤ 64) × (n ≤ length day.now) × (n ≤ length out.old) × ((j : ℕ) → at day.now j ≤ last_day) }
    ensures { out.new ≡ map suc (take n day.now) ++ drop n out.old }
{
    for j in 0..n {
        out[j] = day[j] + 1;
    }
}

// A plan's n entries, as edges in the plan's order, with the surveyors and the stands of all edges: a day byte for each entry.
pub fn spread(
    n: usize,
    es: &[u16; PLAN_LIMIT],
    sv: &[u8; ENTRY_LIMIT],
    st: &[u8; ENTRY_LIMIT],
    out: &mut [u8],
)
    requires { (n ≤ 64) × (n ≤ length es.now) × ((k : ℕ) → k < n → at es.now k < entry_limit) × (day_size ≤ length out.old)
        × ((k : ℕ) → k < n → (at sv.now (at es.now k) < node_limit) × (at st.now (at es.now k) < node_limit))
        × ((v : ℕ) → (count (λ j. eqb (at sv.now (at es.now j)) v) n ≤ last_day) × (count (λ j. eqb (at st.now (at es.now j)) v) n ≤ last_day)) }
    ensures { out.new ≡ spread_by (at sv.now) (at st.now) (take n es.now) ++ drop n out.old }
{
    let s = ends(n, es, sv);
    let t = ends(n, es, st);
    let both = EntryEnds {
        surveyors: s,
        stands: t,
    };
    let day = days_of(n, &both);
    put_days(n, &day, &mut *out);
}
