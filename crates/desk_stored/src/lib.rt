// Surveyors who join and leave in the field (request W-202): the changed roster stored in the desk's files, with it the held plan less a leaver's pairs,
// and the proposal open or closed (W-207); or the refusal, and the files as they were.
#![tactic(auto)]

ghost use Rattle.std.specs.Prelude.{◌≡◌, take};
ghost use Rattle.model.specs.Reading.{accepted};
ghost use Rattle.model.specs.Roster.{Roster};
ghost use Rattle.model.specs.RosterFile.{read_roster};
ghost use Rattle.model.specs.PlanFile.{read_plan};
ghost use Rattle.answers.specs.RefusalCases.{number_of};
ghost use Rattle.instance.specs.Decoded.{shown_by};
ghost use Rattle.instance.specs.Loaded.{Loaded};
ghost use Rattle.desk_files.specs.Held.{roster_bytes};
ghost use Rattle.desk_stored.specs.Storing.{Unchanged, LessOf, LessHeld, StoredAs, ClosedFor, Taken};
ghost use Rattle.model_changes.specs.Changes.{join_on, leave_on};
ghost use Rattle.desk_stored.specs.Changing.{ChangedTo};

use answers::Refusal;
use desk_files::Files;
use instance::Instance;
use limits::{PLAN_SIZE, ROSTER_SIZE};
use plan_carried::CarriedPlan;
use roster_parts::RosterBytes;

// Taken or refused, and the files afterwards: on a refusal as they came.
#[derive(Drop)]
pub struct Change {
    pub answer: Result<(), Refusal>,
    pub files: Files,
}

pub(crate) fn unchanged(files: Files, refusal: Refusal) -> Change
    ensures { Unchanged (number_of refusal) files result }
{
    Change {
        answer: Err(refusal),
        files: files,
    }
}

// The plan held less the pairs of a leaver's number, by the arrays of the roster held; where its bytes are no plan there is none: "nothing stale" stays.
pub(crate) fn less(g: Instance, plan: &[u8], number: u8) -> CarriedPlan
    requires { Loaded g }
    ensures { LessOf (shown_by g) number (read_plan (shown_by g) plan.now) (take result.len result.bytes) }
{
    match desk_loaded::with_plan(g, plan, false) {
        Err(_) => CarriedPlan {
            len: 0,
            bytes: [0; PLAN_SIZE],
        },
        Ok(read) => plan_carried::carried(g, &read.chosen, number),
    }
}

// The same of the files: the roster held is decoded for it.
pub(crate) fn less_held(files: Files, number: u8) -> CarriedPlan
    requires { (R : Roster) × (read_roster (roster_bytes files) ≡ accepted R) }
    ensures { LessHeld files number (take result.len result.bytes) }
{
    let array = files.plan;
    let plan = desk_files::front(&array, files.plan_len);
    let old = files.roster;
    let g = desk_loaded::arrays_of(desk_files::front(&old, files.roster_len));
    less(g, plan, number)
}

// The changed roster in the place of the one held, and the plan held, where there is one, without the pairs of a leaver's number; the proposal's bytes
// as they are.
pub(crate) fn stored(files: Files, roster: [u8; ROSTER_SIZE], n: usize, number: u8) -> Files
    requires { (R : Roster) × (read_roster (roster_bytes files) ≡ accepted R) }
    ensures { StoredAs files number (take n roster) result }
{
    let mut next = files;
    next.roster_len = n;
    next.roster = roster;
    if files.plan_len == 0 {
        return next;
    }
    let c = less_held(files, number);
    let bytes = c.bytes;
    next.plan_len = c.len;
    next.plan = bytes;
    next
}

// W-207: "joining, or a leaving that changes the roster closes it". The proposal stays open where the roster's bytes are those that they were.
pub(crate) fn closed(files: Files, next: Files) -> Files
    ensures { ClosedFor files next result }
{
    let old = files.roster;
    let new = next.roster;
    let a = desk_files::front(&old, files.roster_len);
    let b = desk_files::front(&new, next.roster_len);
    let mut r = next;
    if byte_slices::same(a, b) {
        return r;
    }
    r.proposal_len = 0;
    r
}

// the answer of a change of the roster held
pub(crate) fn taken(files: Files, c: Result<RosterBytes, Refusal>, number: u8) -> Change
    requires { (R : Roster) × (read_roster (roster_bytes files) ≡ accepted R) }
    ensures { Taken files number c result }
{
    match c {
        Err(refusal) => unchanged(files, refusal),
        Ok(made) => {
            let roster = made.roster;
            let next = stored(files, roster, made.len, number);
            let d = closed(files, next);
            Change {
                answer: Ok(()),
                files: d,
            }
        }
    }
}

// a surveyor joins; `short`: a buffer lent to the call is below its size. Not inlined: what it makes of the roster need not lie on the stack below the
// finder.
#[inline(never)]
pub fn joined(files: Files, short: bool, quota: u8, list: &[u8]) -> Change
    ensures { ChangedTo files short (λ R. join_on R quota list.now) 0 result }
{
    let array = files.roster;
    let file = desk_files::front(&array, files.roster_len);
    match desk_loaded::check_roster(file, short) {
        Err(refusal) => unchanged(files, refusal),
        Ok(()) => {
            let c = roster_join::join(file, quota, list);
            taken(files, c, 0)
        }
    }
}

// a surveyor leaves; `short`: a buffer lent to the call is below its size. Not inlined, as above.
#[inline(never)]
pub fn departed(files: Files, short: bool, number: u8) -> Change
    ensures { ChangedTo files short (λ R. leave_on R number) number result }
{
    let array = files.roster;
    let held = desk_files::front(&array, files.roster_len);
    match desk_loaded::check_roster(held, short) {
        Err(refusal) => unchanged(files, refusal),
        Ok(()) => {
            let c = roster_leave::leave(held, number);
            taken(files, c, number)
        }
    }
}
