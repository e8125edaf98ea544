// The beginning of a run: the state and its arrows, and the numbers of rules 1 and 2 at all nodes.
#![tactic(auto)]

ghost use Rattle.std.specs.Prelude.{List, ℕ};
ghost use Rattle.model.specs.Limits.{node_limit, empty_rank};
ghost use Rattle.arrays.specs.Passes.{Low};
ghost use Rattle.arrays.specs.Filled.{Made};
ghost use Rattle.reduction_cells.specs.Cells.{Spread};
ghost use Rattle.reduction_nodes.specs.Numbers.{Readable, row, Rows};
ghost use Rattle.reduction_nodes.specs.Kept.{Tables, Leads, edges, tables_of};
ghost use Rattle.reduction_state.specs.Lent.{looks_of};
ghost use Rattle.reduction_start.specs.Beginning.{Begun};

use instance::Instance;
use limits::EMPTY_RANK;
use reduction_nodes::EdgeTables;
use reduction_state::{Arrows, State};

// The beginning: the state, and its arrows.
#[derive(Drop)]
pub struct Start {
    pub state: State,
    pub arrows: Arrows,
}

pub fn begun(g: &Instance, tables: &EdgeTables) -> Start
    requires { Low g.now.m g.now.sv node_limit × Low g.now.m g.now.st node_limit
        × Spread g.now.m tables.now.surveyors × Spread g.now.m tables.now.stands }
    ensures { Begun g.now.m g.now.sv g.now.st (tables_of tables.now) g.now.quota_s g.now.quota_t result }
{
    let state = reduction_state::start(g);
    let s = reduction_cells::painted(g.m, &tables.surveyors, &state.qs, &g.st, &state.rem);
    let t = reduction_cells::painted(g.m, &tables.stands, &state.qt, &g.sv, &state.rem);
    Start {
        state,
        arrows: Arrows {
            surveyors: s,
            stands: t,
        },
    }
}

// A list of all nodes of a side.
pub(crate) fn everyone() -> [u8; EMPTY_RANK]
    ensures { Made 0 result (λ v. v) node_limit }
{
    let mut o = [0u8; EMPTY_RANK];
    for i in 0..32 {
        o[i] = i as u8;
    }
    o
}

// The numbers of rules 1 and 2 at all nodes.
pub fn numbered(
    g: &Instance,
    tables: &EdgeTables,
    state: &State,
    arrows: &Arrows,
    lead: &mut [[u16; 32]; 3],
)
    requires { Low g.now.m g.now.rank_s empty_rank × Low g.now.m g.now.rank_t empty_rank
        × Readable g.now.m tables.now.surveyors × Readable g.now.m tables.now.stands × Rows 3 lead.old }
    ensures rows { Rows 3 lead.new }
    ensures by_index { (sv st : List ℕ) → Tables (edges g.now.m sv st g.now.rank_s g.now.rank_t) (tables_of tables.now)
        → Leads (edges g.now.m sv st g.now.rank_s g.now.rank_t) (tables_of tables.now)
        (looks_of state.now arrows.now)
        (row lead.new 0) (row lead.new 1) (row lead.new 2) }
{
    let all = everyone();
    reduction_nodes::first_renewed(
        g.m,
        &tables.surveyors,
        &arrows.surveyors,
        &arrows.stands,
        &all,
        32,
        &mut lead[0],
    );
    reduction_nodes::second_renewed(
        g.m,
        &g.rank_s,
        &tables.surveyors,
        &state.rem,
        &arrows.stands,
        &state.qs,
        &all,
        32,
        &mut lead[1],
    );
    reduction_nodes::second_renewed(
        g.m,
        &g.rank_t,
        &tables.stands,
        &state.rem,
        &arrows.surveyors,
        &state.qt,
        &all,
        32,
        &mut lead[2],
    );
}
