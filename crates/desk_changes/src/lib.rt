// Surveyors who join and leave in the field (request W-202): the finder on the desk's files behind the change, or the change's refusal.
#![tactic(auto)]

ghost use Rattle.std.specs.Prelude.{◌≤◌};
ghost use Rattle.model_changes.specs.Changes.{leave_on};
ghost use Rattle.answers.specs.RefusalCases.{code_of};
ghost use Rattle.desk_find.specs.Finding.{Settled};
ghost use Rattle.desk_changes.specs.AfterChange.{FoundOn, ChangeDone, JoinDone};

use desk_files::Files;
use desk_find::Searched;
use desk_stored::Change;

// the finder behind a change, or the change's refusal; that the changed roster is accepted is a theorem, and the buffers' sizes were tested
pub(crate) fn found_on(
    c: Change,
    room: usize,
    left: &mut [u8],
    plan: &mut [u8],
    rival: &mut [u8],
) -> Searched
    requires { code_of c.answer ≤ 0 → Settled c.files room left.old plan.old rival.old }
    ensures { FoundOn c room left.old plan.old rival.old result left.new plan.new rival.new }
{
    let files = c.files;
    match c.answer {
        Err(refusal) => Searched {
            files: files,
            outcome: desk_find::refused(refusal),
        },
        Ok(()) => desk_find::search_changed(files, room, left, plan, rival),
    }
}

// All of a join but the lent diary, of which it is told the length.
pub fn join(
    files: Files,
    quota: u8,
    list: &[u8],
    room: usize,
    left: &mut [u8],
    plan: &mut [u8],
    rival: &mut [u8],
) -> Searched
    ensures { JoinDone files quota list.now room left.old plan.old rival.old result left.new
        plan.new rival.new }
{
    let short = desk_files::finder_short(room, left.len(), plan.len(), rival.len());
    let c = desk_stored::joined(files, short, quota, list);
    found_on(c, room, left, plan, rival)
}

// All of a leave but the lent diary, of which it is told the length.
pub fn leave(
    files: Files,
    number: u8,
    room: usize,
    left: &mut [u8],
    plan: &mut [u8],
    rival: &mut [u8],
) -> Searched
    ensures { ChangeDone files (λ R. leave_on R number) number room left.old plan.old rival.old result left.new
        plan.new rival.new }
{
    let short = desk_files::finder_short(room, left.len(), plan.len(), rival.len());
    let c = desk_stored::departed(files, short, number);
    found_on(c, room, left, plan, rival)
}
