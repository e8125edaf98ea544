// Into the diary that a caller lends, a slice of step records (crate diary). A run leaves a trace (crate reduction_state); `flat_records` makes its
// records as numbers, five a record, and `fill` puts the records of such a flat diary to the front of the lent slice. No other function of the
// planner writes into a slice of structs.
#![tactic(auto)]

ghost use Rattle.std.specs.Prelude.{◌≡◌, ◌<◌, ◌≤◌, length};
ghost use Rattle.model.specs.Limits.{diary_size};
ghost use Rattle.model_desk.specs.Desk.{onto};
ghost use Rattle.diary.specs.LentSteps.{step_at, steps_in};
ghost use Rattle.diary_records.specs.TraceRecords.{Readable, flat_of};

use diary::Step;
use limits::{ENTRY_LIMIT, FLAT_SIZE, RECORD_WIDTH};
use reduction_state::Trace;

// The records of a trace, five numbers each. Surveyors and stands are there as the arrays have them, from 0; shifts as files have them, from 1.
pub fn flat_records(
    sv: &[u8; ENTRY_LIMIT],
    st: &[u8; ENTRY_LIMIT],
    sh: &[u8; ENTRY_LIMIT],
    trace: Trace,
) -> [u8; FLAT_SIZE]
    requires { Readable sv.now st.now trace }
    ensures { result ≡ flat_of sv.now st.now sh.now trace }
{
    let mut flat = [0u8; FLAT_SIZE];
    for i in 0..trace.steps {
        let e = trace.edges[i] as usize;
        let rule = trace.rules[i];
        let fix = reduction_state::fixes(rule);
        let b = i * RECORD_WIDTH;
        flat[b] = 2 - fix as u8;
        flat[b + 1] = sv[e] + 1;
        flat[b + 2] = st[e] + 1;
        flat[b + 3] = sh[e];
        flat[b + 4] = rule;
    }
    flat
}

// The i-th record of a flat diary.
pub(crate) fn step_at(flat: &[u8; FLAT_SIZE], i: usize) -> Step
    requires { i < diary_size }
    ensures { result ≡ step_at flat.now i }
{
    let b = i * RECORD_WIDTH;
    Step {
        fate: flat[b],
        surveyor: flat[b + 1],
        stand: flat[b + 2],
        shift: flat[b + 3],
        rule: flat[b + 4],
    }
}

// The first n records of a flat diary go to the front of the lent one; behind them it keeps its records.
pub fn fill(diary: &mut [Step], flat: [u8; FLAT_SIZE], n: usize)
    requires { (n ≤ diary_size) × (n ≤ length diary.old) }
    ensures { diary.new ≡ onto (steps_in n flat) diary.old }
{
    for i in 0..n {
        diary[i] = step_at(&flat, i);
    }
}
