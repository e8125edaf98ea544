// The files of a desk, as bytes at the front of their arrays. What they hold is said by the bytes alone, so any field values may come in: a length above
// its array is cut to it, bytes that are no roster are nothing loaded, bytes that are no plan of the roster are no plan held, and beside a plan held
// bytes that are no plan of the roster are no proposal. And the lengths of what is lent to a call, and of what it writes.
#![tactic(auto)]

ghost use Rattle.std.specs.Prelude.{◌≡◌, ◌||◌, ◌≤◌, length, take, ltb};
ghost use Rattle.model.specs.Limits.{plan_size, diary_size, left_size};
ghost use Rattle.model_desk.specs.Desk.{onto};
ghost use Rattle.answers.specs.RefusalCases.{code_of};
ghost use Rattle.desk_loaded.specs.OnDesk.{LoadedAs};
ghost use Rattle.desk_files.specs.Held.{roster_bytes, plan_bytes, New};
ghost use Rattle.desk_files.specs.Open.{Opened};
ghost use Rattle.desk_files.specs.PlanLength.{length_of};

use answers::Refusal;
use desk_loaded::OnDesk;
use limits::{DIARY_SIZE, LEFT_SIZE, PAIR_WIDTH, PLAN_SIZE, ROSTER_SIZE};

#[repr(C)]
#[derive(Clone, Copy)]
pub struct Files {
    pub roster_len: usize,
    pub roster: [u8; ROSTER_SIZE],
    pub plan_len: usize,
    pub plan: [u8; PLAN_SIZE],
    pub proposal_len: usize,
    pub proposal: [u8; PLAN_SIZE],
}

// nothing loaded
pub fn none() -> Files
    ensures { New result }
{
    Files {
        roster_len: 0,
        roster: [0; ROSTER_SIZE],
        plan_len: 0,
        plan: [0; PLAN_SIZE],
        proposal_len: 0,
        proposal: [0; PLAN_SIZE],
    }
}

// the front of an array, as long as its length says, or the whole of it
pub fn front<'a>(array: &'a [u8], len: usize) -> &'a [u8]
    ensures { result.now ≡ take len array.now }
{
    if len < array.len() {
        return &array[..len];
    }
    array
}

// the front of an array written to the front of a buffer; gives its length
pub fn copied(array: &[u8], len: usize, out: &mut [u8]) -> usize
    requires { length array.now ≤ length out.old }
    ensures { (result ≡ length (take len array.now)) × (out.new ≡ onto (take len array.now) out.old) }
{
    let held = front(array, len);
    byte_slices::copy(held, out)
}

// how long a plan's bytes are, by the count byte in front of its pairs
pub fn plan_length(pairs: u8) -> usize
    ensures { result ≡ length_of pairs }
{
    PAIR_WIDTH * (pairs as usize) + 1
}

// what a call has to work on; `needs`: it needs a plan; `short`: a buffer lent to it is below its size
pub fn loaded(files: Files, needs: bool, short: bool) -> Result<OnDesk, Refusal>
    ensures { LoadedAs (roster_bytes files) (plan_bytes files) needs short result }
{
    let roster = files.roster;
    let plan = files.plan;
    let r = front(&roster, files.roster_len);
    let p = front(&plan, files.plan_len);
    desk_loaded::loaded(r, p, needs, short)
}

// The state's refusal of a call that needs an open proposal: 13, 14, 20, then 15, where a buffer lent to it is below its size.
pub fn check_open(files: Files, short: bool) -> Result<(), Refusal>
    ensures { Opened files short (code_of result) }
{
    let here = loaded(files, true, false)?;
    let proposal = files.proposal;
    let file = front(&proposal, files.proposal_len);
    match desk_loaded::with_plan(here.g, file, false) {
        Err(_) => Err(Refusal::NoProposal),
        Ok(_) => desk_loaded::check_buffers(short),
    }
}

// "15 a lent buffer below its size": those that the finder, a join and a leave are lent. `records`: how many a lent diary has room for; then the bytes
// for the pairs left, the plan or candidate, and the rival.
pub fn finder_short(records: usize, left: usize, plan: usize, rival: usize) -> bool
    ensures { result ≡ ltb records diary_size || (ltb left left_size || (ltb plan plan_size || ltb rival plan_size)) }
{
    (records < DIARY_SIZE) | ((left < LEFT_SIZE) | ((plan < PLAN_SIZE) | (rival < PLAN_SIZE)))
}
