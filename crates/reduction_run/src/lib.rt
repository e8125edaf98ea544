// The whole reduction: all steps, each entered in the trace, and what remains and what is fixed at the end. Beside the state and its arrows a run
// carries the numbers of the nodes, which say what the rules name; a step renews them where it changed something (crate reduction_turn). All of
// that stays in place, lent to each step and turn.
#![tactic(auto)]

ghost use Rattle.std.specs.Prelude.{◌≤◌, ◌<◌};
ghost use Rattle.model.specs.Limits.{node_limit, entry_limit, empty_rank};
ghost use Rattle.arrays.specs.Passes.{Low};
ghost use Rattle.reduction_nodes.specs.Known.{Known, instance_of};
ghost use Rattle.reduction_nodes.specs.Kept.{Tables, Filled, tables_of};
ghost use Rattle.reduction_state.specs.Lent.{edges_of};
ghost use Rattle.reduction_state.specs.Outcome.{Reduced, ReducedFrom};

use instance::Instance;
use limits::ENTRY_LIMIT;
use reduction_cells::TABLE;
use reduction_nodes::{DueNodes, EdgeTables, LateNumbers};
use reduction_state::{State, Trace};

// What a run leaves: the state in which no rule acts, and its trace.
#[derive(Drop)]
pub struct Reduction {
    pub state: State,
    pub trace: Trace,
}

// All steps, with the tables of the edges. At the beginning what the later rules name is old at every node.
pub(crate) fn run(g: &Instance, tables: &EdgeTables) -> Reduction
    requires { Tables (edges_of g.now) (tables_of tables.now) }
    ensures { (K : Known (edges_of g.now) g.now.quota_s g.now.quota_t)
        → Filled (edges_of g.now) K.tied (tables_of tables.now) → Reduced (instance_of K) result.state.rem result.state.fixed result.trace }
{
    let mut edges = [0u16; ENTRY_LIMIT];
    let mut rules = [0u8; ENTRY_LIMIT];
    let begun = reduction_start::begun(g, tables);
    let mut state = begun.state;
    let mut arrows = begun.arrows;
    let mut lead = [[0u16; 32]; 3];
    reduction_start::numbered(g, tables, &state, &arrows, &mut lead);
    let mut later = LateNumbers {
        surveyors: [[0u16; 32]; 3],
        stands: [[0u16; 32]; 2],
        loose: [false; 32],
        due: DueNodes {
            surveyors: [true; 32],
            stands: [true; 32],
        },
    };
    let mut steps = g.m;
    for n in 0..g.m {
        let Some(a) = reduction_step::step(g, tables, &state, &arrows, &lead, &mut later) else {
            steps = n;
            break;
        };
        let rule = a.rule;
        let e = a.edge;
        edges[n] = e as u16;
        rules[n] = rule;
        let d = reduction_state::act(g, &mut state, rule, e);
        reduction_turn::turn(g, tables, d, &state, &mut arrows, &mut lead, &mut later.due);
    }
    Reduction {
        state,
        trace: Trace {
            edges,
            rules,
            steps,
        },
    }
}

// All steps of an instance. Surveyors tie nothing. Not inlined: its tables need not lie
// on the stack below the search for a rival.
#[inline(never)]
pub fn reduce(g: &Instance) -> Reduction
    requires { (g.now.m ≤ entry_limit) × Low g.now.m g.now.sv node_limit × Low g.now.m g.now.st node_limit
        × Low g.now.m g.now.rank_s empty_rank × Low g.now.m g.now.rank_t empty_rank }
    ensures { ReducedFrom g.now.m g.now.sv g.now.st g.now.rank_s g.now.rank_t g.now.tied g.now.quota_s
        g.now.quota_t result.state.rem result.state.fixed result.trace }
{
    let untied = [false; ENTRY_LIMIT];
    let mut s = [g.m as u16; TABLE];
    reduction_cells::cells(g.m, &g.sv, &g.rank_s, &untied, &mut s[..]);
    reduction_lists::lists(g.m, &g.sv, &mut s);
    let mut t = [g.m as u16; TABLE];
    reduction_cells::cells(g.m, &g.st, &g.rank_t, &g.tied, &mut t[..]);
    reduction_lists::lists(g.m, &g.st, &mut t);
    let tables = EdgeTables {
        surveyors: s,
        stands: t,
    };
    run(g, &tables)
}
