// The program's answer: the text that it prints for what it read. The program itself (crate crew) only reads, calls this and writes.
#![tactic(auto)]

ghost use Rattle.std.specs.Prelude.{◌≡◌, replicate};
ghost use Rattle.model.specs.Limits.{input_size};
ghost use Rattle.model.specs.Printed.{printed};
ghost use Rattle.theory_verdict.specs.Rival.{rival_of};
ghost use Rattle.instance.specs.Accepted.{RosterAccepted};
ghost use Rattle.program.specs.Printing.{Prints};

use limits::{INPUT_SIZE, LEFT_SIZE, PLAN_SIZE, TEXT_SIZE};

// The text for an accepted roster.
pub(crate) fn worked(roster: &[u8], out: &mut [u8; TEXT_SIZE]) -> usize
    requires { RosterAccepted roster.now }
    ensures { Prints roster.now out.old result out.new }
{
    let g = instance::instance_of(roster);
    let sv = g.sv;
    let st = g.st;
    let sh = g.sh;
    let mut left = [0u8; LEFT_SIZE];
    let mut plan = [0u8; PLAN_SIZE];
    let mut rival = [0u8; PLAN_SIZE];
    let o = finder_run::find(g, &mut left, &mut plan, &mut rival);
    let trace = o.trace;
    let flat = diary_records::flat_records(&sv, &st, &sh, trace);
    text_answer::answer_text(Ok(o.answer), &flat, &left, &plan, &rival, out)
}

// "prints the finder's answer": the text at the front of out, and its length. No text is longer than out.
pub fn answer(input: &[u8], out: &mut [u8; TEXT_SIZE]) -> usize
    ensures { Prints input.now out.old result out.new }
{
    match roster::read_roster(input) {
        Ok(()) => worked(input, out),
        Err(refusal) => {
            let none = [0u8; 1];
            text_answer::answer_text(Err(refusal), &none, &none, &none, &none, out)
        }
    }
}

// ---- the program's input
// The buffer that the input is read into, one byte larger than the longest roster: what fills it is no roster, however much more there is to read.
pub fn input_buffer() -> [u8; INPUT_SIZE]
    ensures { result ≡ replicate input_size 0 }
{
    [0u8; INPUT_SIZE]
}
