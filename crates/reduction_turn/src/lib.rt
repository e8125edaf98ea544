// One turn of a run: the arrows of the state after a step at e, and the numbers of the nodes. An end of e whose arrow e was not, and whose quota
// stays, keeps its arrows; else they are painted anew, and the nodes across an arrow that turned are read anew. Rule 2's number at an end of e is read
// anew if it was e or if the quota fell there. What the later rules name is marked old at both ends, and at every node across an arrow that turned.
#![tactic(auto)]

ghost use Rattle.std.specs.Prelude.{◌≡◌, ◌&&◌, ◌||◌, List, ℕ, ◌≤◌, ◌<◌, length, eqb};
ghost use Rattle.model.specs.Limits.{node_limit, entry_limit, empty_rank};
ghost use Rattle.arrays.specs.ArrayInstance.{at};
ghost use Rattle.arrays.specs.Passes.{Low};
ghost use Rattle.reduction_lists.specs.Listed.{Listed};
ghost use Rattle.reduction_cells.specs.Painted.{among};
ghost use Rattle.reduction_nodes.specs.Renewed.{RenewedBy};
ghost use Rattle.reduction_nodes.specs.Numbers.{Readable, row, Rows, first_of, seconds_of};
ghost use Rattle.reduction_nodes.specs.Kept.{Tables, edges, tables_of};
ghost use Rattle.reduction_state.specs.Lent.{edges_of};
ghost use Rattle.reduction_turn.specs.Onward.{Marked, Carried, SizedN, numbers};
ghost use Rattle.reduction_turn.specs.Onward as onward;
ghost use Rattle.reduction_turn.specs.AfterTurn.{Turns};

use instance::Instance;
use limits::{EMPTY_RANK, ENTRY_LIMIT};
use reduction_cells::TABLE;
use reduction_nodes::{DueNodes, EdgeTables};
use reduction_state::{Acted, Arrows, State};

// Rule 2's numbers of one side after e, an edge of v, is gone: that of v is read anew if it was e or if v's quota fell.
pub fn passed_over(
    m: usize,
    rank: &[u8; ENTRY_LIMIT],
    table: &[u16; TABLE],
    rem: &[bool; ENTRY_LIMIT],
    f: &[bool; ENTRY_LIMIT],
    q: &[u16; 32],
    v: usize,
    e: usize,
    fell: bool,
    x: &mut [u16; 32],
)
    requires { (v < node_limit) × (e < m) × Readable m table.now × Low m rank.now empty_rank × (length x.old ≡ node_limit) }
    ensures { (length x.new ≡ node_limit) × ((end : List ℕ) → Listed m end table.now
        → RenewedBy (λ u. eqb u v && (fell || eqb (at x.old v) e))
        (seconds_of m end rank.now table.now rem.now f.now q.now)
        x.old x.new) }
{
    if fell | (x[v] == e as u16) {
        x[v] = reduction_nodes::second(m, rank, table, v, rem, f, q[v]);
    }
}

// The nodes across an arrow that turned are marked old.
pub fn marked(turned: &[u8; EMPTY_RANK], n: usize, old: &mut [bool; 32])
    requires { (n ≤ empty_rank) × Low n turned.now node_limit × (length old.old ≡ node_limit) }
    ensures { (length old.new ≡ node_limit) × Marked (among turned.now n) old.old old.new }
{
    for i in 0..n {
        let v = turned[i] as usize;
        old[v] = true;
    }
}

// This and the next are no twins: the number of rule 1 is entered at the surveyor itself here, and there at the surveyors across.
// The arrows of the surveyor s, painted anew if `on`: rule 1's number there, and rule 2's at the stands across one that turned.
pub fn from_surveyor(
    g: &Instance,
    tables: &EdgeTables,
    state: &State,
    fs: &mut [bool; ENTRY_LIMIT],
    ft: &[bool; ENTRY_LIMIT],
    s: usize,
    on: bool,
    lead: &mut [[u16; 32]; 3],
    oldt: &mut [bool; 32],
)
    requires low { Low g.now.m g.now.st node_limit × Low g.now.m g.now.rank_t empty_rank
        × Readable g.now.m tables.now.surveyors × Readable g.now.m tables.now.stands }
    requires s_lt_node_limit { (s < node_limit) × (length fs.old ≡ entry_limit) × Rows 3 lead.old × (length oldt.old ≡ node_limit) }
    ensures rows { Rows 3 lead.new × (length oldt.new ≡ node_limit) × (row lead.new 1 ≡ row lead.old 1) }
    ensures arrows { onward.Arrows g.now.m g.now.st tables.now.surveyors state.now.rem s (at state.now.qs s) on fs.old fs.new }
    ensures by_index { (sv rs : List ℕ) → Tables (edges g.now.m sv g.now.st rs g.now.rank_t) (tables_of tables.now)
        → Carried g.now.m sv sv g.now.st s fs.old fs.new (first_of g.now.m sv fs.new ft.now)
        (seconds_of g.now.m g.now.st g.now.rank_t tables.now.stands state.now.rem fs.new state.now.qt)
        (row lead.old 0) (row lead.new 0) (row lead.old 2) (row lead.new 2)
        oldt.old oldt.new }
{
    if !on {
        return;
    }
    let mut turned = [0u8; EMPTY_RANK];
    let n = reduction_cells::paint(
        g.m,
        &tables.surveyors,
        s,
        state.qs[s],
        &g.st,
        &state.rem,
        fs,
        &mut turned,
    );
    lead[0][s] = reduction_lists::both(g.m, &tables.surveyors, s, fs, ft) as u16;
    reduction_nodes::second_renewed(
        g.m,
        &g.rank_t,
        &tables.stands,
        &state.rem,
        fs,
        &state.qt,
        &turned,
        n,
        &mut lead[2],
    );
    marked(&turned, n, oldt);
}

// The arrows of the stand t, painted anew if `on`: the numbers of rules 1 and 2 at the surveyors across one that turned.
pub fn from_stand(
    g: &Instance,
    tables: &EdgeTables,
    state: &State,
    fs: &[bool; ENTRY_LIMIT],
    ft: &mut [bool; ENTRY_LIMIT],
    t: usize,
    on: bool,
    lead: &mut [[u16; 32]; 3],
    olds: &mut [bool; 32],
)
    requires low { Low g.now.m g.now.sv node_limit × Low g.now.m g.now.rank_s empty_rank
        × Readable g.now.m tables.now.surveyors × Readable g.now.m tables.now.stands }
    requires t_lt_node_limit { (t < node_limit) × (length ft.old ≡ entry_limit) × Rows 3 lead.old × (length olds.old ≡ node_limit) }
    ensures rows { Rows 3 lead.new × (length olds.new ≡ node_limit) × (row lead.new 2 ≡ row lead.old 2) }
    ensures arrows { onward.Arrows g.now.m g.now.sv tables.now.stands state.now.rem t (at state.now.qt t) on ft.old ft.new }
    ensures by_index { (st rt : List ℕ) → Tables (edges g.now.m g.now.sv st g.now.rank_s rt) (tables_of tables.now)
        → Carried g.now.m g.now.sv st g.now.sv t ft.old ft.new
        (first_of g.now.m g.now.sv fs.now ft.new)
        (seconds_of g.now.m g.now.sv g.now.rank_s tables.now.surveyors state.now.rem ft.new state.now.qs)
        (row lead.old 0) (row lead.new 0) (row lead.old 1) (row lead.new 1)
        olds.old olds.new }
{
    if !on {
        return;
    }
    let mut turned = [0u8; EMPTY_RANK];
    let n = reduction_cells::paint(
        g.m,
        &tables.stands,
        t,
        state.qt[t],
        &g.sv,
        &state.rem,
        ft,
        &mut turned,
    );
    reduction_nodes::first_renewed(g.m, &tables.surveyors, fs, ft, &turned, n, &mut lead[0]);
    reduction_nodes::second_renewed(
        g.m,
        &g.rank_s,
        &tables.surveyors,
        &state.rem,
        ft,
        &state.qs,
        &turned,
        n,
        &mut lead[1],
    );
    marked(&turned, n, olds);
}

// The turn behind a step at an edge, which struck it from what remains and renewed the quotas: the arrows and the numbers. It is told
// of every state and rule whose step left these arrays; the state before the step it does not see.
pub fn turn(
    g: &Instance,
    tables: &EdgeTables,
    d: Acted,
    state: &State,
    arrows: &mut Arrows,
    lead: &mut [[u16; 32]; 3],
    due: &mut DueNodes,
)
    requires edge_lt_m { (d.edge < g.now.m) × Tables (edges_of g.now) (tables_of tables.now) }
    requires sized_n { SizedN lead.old due.old.surveyors due.old.stands × (length arrows.old.surveyors ≡ entry_limit)
        × (length arrows.old.stands ≡ entry_limit) }
    ensures sized_n_2 { SizedN lead.new due.new.surveyors due.new.stands
        × (length arrows.new.surveyors ≡ entry_limit) × (length arrows.new.stands ≡ entry_limit) }
    ensures turns { Turns (edges_of g.now) (tables_of tables.now) d state.now.rem state.now.qs state.now.qt
        arrows.old.surveyors arrows.old.stands (numbers lead.old due.old.surveyors due.old.stands)
        arrows.new.surveyors arrows.new.stands (numbers lead.new due.new.surveyors due.new.stands) }
{
    let e = d.edge;
    let s = g.sv[e] as usize;
    let t = g.st[e] as usize;
    let fells = d.fells;
    let fellt = d.fellt;
    let ons = arrows.surveyors[e] | fells;
    let ont = arrows.stands[e] | fellt;
    due.surveyors[s] = true;
    due.stands[t] = true;
    from_surveyor(
        g,
        tables,
        state,
        &mut arrows.surveyors,
        &arrows.stands,
        s,
        ons,
        lead,
        &mut due.stands,
    );
    from_stand(
        g,
        tables,
        state,
        &arrows.surveyors,
        &mut arrows.stands,
        t,
        ont,
        lead,
        &mut due.surveyors,
    );
    passed_over(
        g.m,
        &g.rank_s,
        &tables.surveyors,
        &state.rem,
        &arrows.stands,
        &state.qs,
        s,
        e,
        fells,
        &mut lead[1],
    );
    passed_over(
        g.m,
        &g.rank_t,
        &tables.stands,
        &state.rem,
        &arrows.surveyors,
        &state.qt,
        t,
        e,
        fellt,
        &mut lead[2],
    );
}
