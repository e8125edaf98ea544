// The program's text: the finder's answer with its diary and its pairs, written into a lent buffer; section "The program" of
// document 01.
#![tactic(auto)]

ghost use Rattle.std.specs.Prelude.{◌≤◌, length};
ghost use Rattle.text_answer.specs.Printable.{Printable, text_size};
ghost use Rattle.text_answer.specs.Answered.{Answered};

use answers::{Found, Refusal};

// the answer's text in the buffer's front, and its length
pub fn answer_text(
    answer: Result<Found, Refusal>,
    flat: &[u8],
    left: &[u8],
    plan: &[u8],
    rival: &[u8],
    out: &mut [u8],
) -> usize
    requires { Printable answer flat.now left.now plan.now rival.now × (text_size ≤ length out.old) }
    ensures { Answered answer flat.now left.now plan.now rival.now out.old result out.new }
{
    match answer {
        Ok(found) => match found {
            Found::Plan(steps) => {
                let next = text_lines::put_diary(out, 0, flat, steps);
                text_lines::put_plan(out, next, b"plan ", plan)
            }
            Found::None(steps, kind) => {
                let next = text_lines::put_diary(out, 0, flat, steps);
                text_lines::put_none(out, next, kind, left, plan, rival)
            }
        },
        Err(refusal) => text_lines::put_refused(out, 0, refusal.number(), refusal.group()),
    }
}
