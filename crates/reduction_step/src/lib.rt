// One step of the reduction: the first rule that names an edge, and the lowest edge that it names, from the numbers of the nodes. Those of the later
// rules are made anew, where they are old, only if rules 1 and 2 are silent.
#![tactic(auto)]

ghost use Rattle.std.specs.Prelude.{◌≡◌, ◌<◌, cond, true, replicate};
ghost use Rattle.std.specs.Option.{IfSome};
ghost use Rattle.model.specs.Limits.{node_limit};
ghost use Rattle.arrays.specs.Passes.{Low};
ghost use Rattle.reduction_nodes.specs.Numbers.{Readable};
ghost use Rattle.reduction_nodes.specs.Kept.{SizedLate, tables_of, later_of};
ghost use Rattle.reduction_state.specs.Lent.{looks_of};
ghost use Rattle.reduction_step.specs.Least.{Least};
ghost use Rattle.reduction_step.specs.RuleChosen.{Later37, Renews, Stepped, rule_told, edge_told};

use instance::Instance;
use reduction_nodes::{DueNodes, EdgeTables, LateNumbers};
use reduction_state::{Arrows, State};

// A rule and the edge that it names. The rule is its number, from 1 to 7: the trace and the diary hold it as that byte.
#[derive(Drop)]
pub struct Named {
    pub rule: u8,
    pub edge: usize,
}

// The least number of a side.
pub fn least(xs: &[u16; 32]) -> u16
    ensures { Least xs.now node_limit result }
{
    let mut l = xs[0];
    for i in 1..32 {
        l = l.min(xs[i]);
    }
    l
}

// Which surveyors are read anew: all of them, where some stand's looseness turned.
pub fn touched(turned: bool, old: [bool; 32]) -> [bool; 32]
    ensures { result ≡ cond turned (replicate node_limit true) old }
{
    if turned {
        return [true; 32];
    }
    old
}

// The later numbers, those that are old made anew.
pub fn renewed(
    g: &Instance,
    tables: &EdgeTables,
    state: &State,
    arrows: &Arrows,
    later: &mut LateNumbers,
)
    requires low { Low g.now.m g.now.st node_limit × Readable g.now.m tables.now.surveyors × Readable g.now.m tables.now.stands }
    requires sized_l { SizedLate later.old }
    ensures sized_l_2 { SizedLate later.new }
    ensures renews { Renews g.now.m g.now.st (tables_of tables.now) (looks_of state.now arrows.now)
        (later_of later.old) (later_of later.new) }
{
    let before = later.loose;
    reduction_nodes::stands_renewed(
        g.m,
        &tables.stands,
        &state.rem,
        &arrows.surveyors,
        &arrows.stands,
        &state.qt,
        &later.due.stands,
        &mut later.stands,
        &mut later.loose,
    );
    let known = later.due.surveyors;
    let due = touched(before != later.loose, known);
    reduction_nodes::surveyors_renewed(
        g.m,
        &g.st,
        &tables.surveyors,
        &state.rem,
        &arrows.surveyors,
        &arrows.stands,
        &later.loose,
        &state.qs,
        &due,
        &mut later.surveyors,
    );
    later.due = DueNodes {
        surveyors: [false; 32],
        stands: [false; 32],
    };
}

// Rules 3 to 7, where the rules before are silent; none if these are silent too.
pub fn late(m: usize, later: &LateNumbers) -> Option<Named>
    ensures inside { IfSome result (λ a. a.edge < m) }
    ensures named { Later37 m later.now.surveyors later.now.stands (rule_told result) (edge_told m result) }
{
    let e3 = least(&later.stands[0]) as usize;
    if e3 < m {
        return Some(Named { rule: 3, edge: e3 });
    }
    let e4 = least(&later.surveyors[0]) as usize;
    if e4 < m {
        return Some(Named { rule: 4, edge: e4 });
    }
    let e5 = least(&later.surveyors[1]) as usize;
    if e5 < m {
        return Some(Named { rule: 5, edge: e5 });
    }
    let e6 = least(&later.surveyors[2]) as usize;
    if e6 < m {
        return Some(Named { rule: 6, edge: e6 });
    }
    let e7 = least(&later.stands[1]) as usize;
    if e7 < m {
        return Some(Named { rule: 7, edge: e7 });
    }
    None
}

// The first rule that names an edge, and the lowest edge that it names; none if no rule names one. The rows of `lead` are the
// numbers of rule 1, and of rule 2 by surveyor and by stand.
pub fn step(
    g: &Instance,
    tables: &EdgeTables,
    state: &State,
    arrows: &Arrows,
    lead: &[[u16; 32]; 3],
    later: &mut LateNumbers,
) -> Option<Named>
    requires low { Low g.now.m g.now.st node_limit × Readable g.now.m tables.now.surveyors × Readable g.now.m tables.now.stands }
    requires sized_l { SizedLate later.old }
    ensures sized_l_2 { SizedLate later.new }
    ensures inside { IfSome result (λ a. a.edge < g.now.m) }
    ensures stepped { Stepped g.now.m g.now.st (tables_of tables.now) (looks_of state.now arrows.now)
        lead.now (later_of later.old) (later_of later.new)
        (rule_told result) (edge_told g.now.m result) }
{
    let m = g.m;
    let e1 = least(&lead[0]) as usize;
    if e1 < m {
        return Some(Named { rule: 1, edge: e1 });
    }
    let e2 = least(&lead[1]).min(least(&lead[2])) as usize;
    if e2 < m {
        return Some(Named { rule: 2, edge: e2 });
    }
    renewed(g, tables, state, arrows, later);
    late(m, later)
}
