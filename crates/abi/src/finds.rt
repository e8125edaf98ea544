// The finder for C, and joining and leaving, which are lent its buffers: the desk goes in by value and comes back; the diary is a lent list of step
// records.
ghost use Rattle.std.specs.Prelude.{◌≡◌};
ghost use Rattle.model_desk.specs.Desk.{join, leave};
ghost use Rattle.desk_find.specs.Finding.{Finds};
ghost use Rattle.desk_changes.specs.Changes.{Changes};
ghost use Rattle.abi.specs.Finds.{numbers_of, Numbered};

use desk::{Desk, FindReply};
use diary::Step;

// the desk, the numbers of what was found (abi_numbers, FoundNumbers), and how many bytes of a plan or candidate and of a rival were written, 0 where
// none was
#[repr(C)]
#[derive(Drop)]
pub struct DeskFound {
    pub desk: Desk,
    pub kind: u8,
    pub refusal: u8,
    pub vote: i16,
    pub steps: usize,
    pub left: usize,
    pub plan_length: usize,
    pub rival_length: usize,
}

pub(crate) fn numbers_of(r: FindReply) -> DeskFound
    ensures { result ≡ numbers_of r }
{
    let d = r.desk;
    let a = r.answer;
    let w = r.lengths;
    let n = abi_numbers::found_numbers(a);
    DeskFound {
        desk: d,
        kind: n.kind,
        refusal: n.refusal,
        vote: n.vote,
        steps: n.steps,
        left: n.left,
        plan_length: w.plan,
        rival_length: w.rival,
    }
}

// the finder on the held roster: diary of at least 1,024 records, left of 3,072 bytes, plan and rival of 193 bytes each, else 15
#[unsafe(no_mangle)]
pub extern "C" fn crew_find(
    desk: Desk,
    diary: &mut [Step],
    left: &mut [u8],
    plan: &mut [u8],
    rival: &mut [u8],
) -> DeskFound
    ensures { Numbered (λ x. Finds desk.files diary.old left.old plan.old rival.old x.answer
        x.lengths diary.new left.new plan.new rival.new x.desk.files) result }
{
    let r = desk.find(diary, left, plan, rival);
    numbers_of(r)
}

// a surveyor joins the held roster, with a quota and a list file; the buffers are the finder's
#[unsafe(no_mangle)]
pub extern "C" fn crew_join(
    desk: Desk,
    quota: u8,
    list: &[u8],
    diary: &mut [Step],
    left: &mut [u8],
    plan: &mut [u8],
    rival: &mut [u8],
) -> DeskFound
    ensures { Numbered (λ x. Changes desk.files (join quota list.now) diary.old left.old plan.old
        rival.old x.answer x.lengths diary.new left.new plan.new rival.new x.desk.files) result }
{
    let r = desk.join(quota, list, diary, left, plan, rival);
    numbers_of(r)
}

// the surveyor of a number leaves the held roster; the buffers are the finder's
#[unsafe(no_mangle)]
pub extern "C" fn crew_leave(
    desk: Desk,
    number: u8,
    diary: &mut [Step],
    left: &mut [u8],
    plan: &mut [u8],
    rival: &mut [u8],
) -> DeskFound
    ensures { Numbered (λ x. Changes desk.files (leave number) diary.old left.old plan.old rival.old
        x.answer x.lengths diary.new left.new plan.new rival.new x.desk.files) result }
{
    let r = desk.leave(number, diary, left, plan, rival);
    numbers_of(r)
}
