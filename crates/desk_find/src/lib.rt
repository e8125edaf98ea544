// The finder on the roster that a desk holds, with a flat diary (crate diary): the state's refusal first. It stands below the desk,
// and asks nothing of its caller; a user calls the desk.
#![tactic(auto)]

ghost use Rattle.std.specs.Prelude.{◌≤◌, ◌≡◌, length};
ghost use Rattle.model.specs.Limits.{plan_size, left_size};
ghost use Rattle.answers.specs.RefusalCases.{number_of};
ghost use Rattle.instance.specs.Decoded.{shown_by};
ghost use Rattle.instance.specs.Loaded.{Loaded};
ghost use Rattle.desk_find.specs.Lengths.{lengths_in};
ghost use Rattle.desk_find.specs.Outcomes.{Refuses, Works, Outcomes};
ghost use Rattle.desk_find.specs.Finding.{Settled, Done};

use answers::{Found, NoneKind, Refusal};
use desk_files::Files;
use instance::Instance;
use limits::FLAT_SIZE;

// How many bytes of a plan or candidate and of its rival were written, 0 where none was.
#[derive(Drop)]
pub struct Lengths {
    pub plan: usize,
    pub rival: usize,
}

// What the finder answers, how much it has written, and the diary as numbers, five a record, with the number of its records: 0 of them on a refusal.
#[derive(Drop)]
pub struct Outcome {
    pub answer: Result<Found, Refusal>,
    pub lengths: Lengths,
    pub flat: [u8; FLAT_SIZE],
    pub steps: usize,
}

// The same, with the files that the desk holds then.
#[derive(Drop)]
pub struct Searched {
    pub files: Files,
    pub outcome: Outcome,
}

// A refusal: nothing written, no record.
pub fn refused(refusal: Refusal) -> Outcome
    ensures { Refuses (number_of refusal) result }
{
    Outcome {
        answer: Err(refusal),
        lengths: Lengths { plan: 0, rival: 0 },
        flat: [0; FLAT_SIZE],
        steps: 0,
    }
}

// The lengths that go with an answer, by the count bytes in front of both buffers.
pub(crate) fn written_lengths(answer: &Found, plan: u8, rival: u8) -> Lengths
    ensures { result ≡ lengths_in answer.now plan rival }
{
    match answer {
        Found::Plan(_) => Lengths {
            plan: desk_files::plan_length(plan),
            rival: 0,
        },
        Found::None(_, why) => match why {
            NoneKind::Left(_) => Lengths { plan: 0, rival: 0 },
            NoneKind::Rivalled(_) => Lengths {
                plan: desk_files::plan_length(plan),
                rival: desk_files::plan_length(rival),
            },
        },
    }
}

// The finder on the arrays of an accepted roster, how much it has written, and the flat diary of its trace.
pub(crate) fn worked(g: Instance, left: &mut [u8], plan: &mut [u8], rival: &mut [u8]) -> Outcome
    requires { Loaded g × (left_size ≤ length left.old) × (plan_size ≤ length plan.old) × (plan_size ≤ length rival.old) }
    ensures { Works (shown_by g) left.old plan.old rival.old result left.new plan.new
        rival.new }
{
    let sv = g.sv;
    let st = g.st;
    let sh = g.sh;
    let o = finder_run::find(g, left, &mut *plan, &mut *rival);
    let answer = o.answer;
    let written = written_lengths(&answer, plan[0], rival[0]);
    let trace = o.trace;
    let steps = trace.steps;
    let flat = diary_records::flat_records(&sv, &st, &sh, trace);
    Outcome {
        answer: Ok(answer),
        lengths: written,
        flat: flat,
        steps: steps,
    }
}

// The finder on the roster held, for a lent diary of so many records: 13 if there is none, then 15 if a buffer is below its size. `roster`
// and `held` are the bytes of the roster and of the plan held.
pub(crate) fn found(
    roster: &[u8],
    held: &[u8],
    room: usize,
    left: &mut [u8],
    plan: &mut [u8],
    rival: &mut [u8],
) -> Outcome
    ensures { Outcomes roster.now room left.old plan.old rival.old result left.new plan.new
        rival.new }
{
    let short = desk_files::finder_short(room, left.len(), plan.len(), rival.len());
    match desk_loaded::loaded(roster, held, false, short) {
        Err(refusal) => refused(refusal),
        Ok(l) => worked(l.g, left, plan, rival),
    }
}

// The finder on the files of a desk, which stay.
pub fn search(
    files: Files,
    room: usize,
    left: &mut [u8],
    plan: &mut [u8],
    rival: &mut [u8],
) -> Searched
    ensures { Done files room left.old plan.old rival.old result left.new plan.new
        rival.new }
{
    let roster = files.roster;
    let held = files.plan;
    let r = desk_files::front(&roster, files.roster_len);
    let p = desk_files::front(&held, files.plan_len);
    let o = found(r, p, room, left, plan, rival);
    Searched {
        files: files,
        outcome: o,
    }
}

// The same behind a change, whose roster is accepted and for whose call the buffers had their sizes: neither is judged again.
pub fn search_changed(
    files: Files,
    room: usize,
    left: &mut [u8],
    plan: &mut [u8],
    rival: &mut [u8],
) -> Searched
    requires { Settled files room left.old plan.old rival.old }
    ensures { Done files room left.old plan.old rival.old result left.new plan.new
        rival.new }
{
    let roster = files.roster;
    let g = desk_loaded::arrays_of(desk_files::front(&roster, files.roster_len));
    let o = worked(g, left, plan, rival);
    Searched {
        files: files,
        outcome: o,
    }
}
