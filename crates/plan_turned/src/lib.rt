// A plan file from one layout into the other (W-205): pairs with their shifts, or without, where every pair is in shift 1. `shifts` says how
// they stand in the file. Whether it is a plan of the roster is told by its reading (crate plan_reader); this crate serves the desk.
#![tactic(auto)]

ghost use Rattle.std.specs.Prelude.{◌≡◌, ◌+◌, ◌*◌, ◌≤◌, length};
ghost use Rattle.lists.specs.Keep.{all?};
ghost use Rattle.model.specs.Limits.{plan_limit, plan_size};
ghost use Rattle.model_desk.specs.Desk.{onto};
ghost use Rattle.pair_bytes.specs.PairAt.{width_of};
ghost use Rattle.plan_reader.specs.Answers.{answered};
ghost use Rattle.plan_turned.specs.Pairs.{pairs_from, first_pair, other_plan, PairsTurned};
ghost use Rattle.plan_turned.specs.Turning.{SomePlan, PlanTurned};

use answers::Refusal;
use plan_reader::PlanRead;

// Whether the n pairs of a file are all in shift 1.
pub(crate) fn only_first(file: &[u8], n: usize, shifts: bool) -> bool
    requires { (n ≤ plan_limit) × (width_of shifts * n + 1 ≤ length file.now) }
    ensures { result ≡ all? first_pair (pairs_from shifts file.now n 1) }
{
    let width = pair_bytes::width(shifts);
    let mut at = 1;
    for k in 0..n {
        let p = pair_bytes::get(file, at, shifts);
        if p.shift != 1 {
            return false;
        }
        at += width;
    }
    true
}

// The count byte and the n pairs in the other layout, at the front of the buffer; gives their length.
pub(crate) fn copy_pairs(file: &[u8], n: usize, shifts: bool, out: &mut [u8]) -> usize
    requires { (n ≤ plan_limit) × (width_of shifts * n + 1 ≤ length file.now) × (plan_size ≤ length out.old) }
    ensures { (result ≡ length (other_plan shifts file.now n))
        × (out.new ≡ onto (other_plan shifts file.now n) out.old) }
{
    let width = pair_bytes::width(shifts);
    let other = pair_bytes::width(!shifts);
    out[0] = n as u8;
    let mut at = 1;
    let mut to = 1;
    for k in 0..n {
        let p = pair_bytes::get(file, at, shifts);
        pair_bytes::put_by(&mut *out, to, p, !shifts);
        at += width;
        to += other;
    }
    to
}

// The pairs of an accepted file; 19 where one of them is in another shift than 1.
pub(crate) fn settled(file: &[u8], n: usize, shifts: bool, out: &mut [u8]) -> Result<usize, Refusal>
    requires { (n ≤ plan_limit) × (width_of shifts * n + 1 ≤ length file.now) × (plan_size ≤ length out.old) }
    ensures { PairsTurned shifts file.now n out.old result out.new }
{
    if !only_first(file, n, shifts) {
        return Err(Refusal::OtherShift);
    }
    Ok(copy_pairs(file, n, shifts, out))
}

// A plan file with shifts or without, in the other layout, by what it was read to: the plan's refusal, then 19.
pub fn turn(
    read: Result<PlanRead, Refusal>,
    file: &[u8],
    shifts: bool,
    out: &mut [u8],
) -> Result<usize, Refusal>
    requires { SomePlan shifts file.now (answered read) × (plan_size ≤ length out.old) }
    ensures { PlanTurned shifts (answered read) file.now out.old result out.new }
{
    let plan = read?;
    settled(file, plan.n, shifts, out)
}
