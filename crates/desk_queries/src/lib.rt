// Verdict, comparison, blocking pair and what is held: calls that leave the desk as it is, and write at most a rival and the pairings of their votes (W-208).
#![tactic(auto)]

ghost use Rattle.std.specs.Prelude.{◌≡◌};
ghost use Rattle.model_desk.specs.Desk.{compare, blocking, holds, said, holding};
ghost use Rattle.answers.specs.ComparisonCases.{comparison_shown};
ghost use Rattle.answers.specs.BlockedCases.{blocked_shown};
ghost use Rattle.answers.specs.HoldingCases.{holding_shown};
ghost use Rattle.std.specs.declared.result.Result.TheVariants.{Ok};
ghost use Rattle.desk_files.specs.Replies.{Replied};
ghost use Rattle.desk_queries.specs.Judging.{rival_in, Judges};

use answers::{Blocking, Comparison, Holding, Refusal, Verdict};
use desk_files::Files;
use limits::{PAIRING_SIZE, PLAN_SIZE};

// The verdict, and how many bytes of a rival were written, 0 where none was.
#[derive(Clone, Copy)]
pub struct Judgement {
    pub verdict: Result<Verdict, Refusal>,
    pub rival_length: usize,
}

// The rival's length, by the verdict and the count byte in front of the buffer.
pub(crate) fn rival_length(verdict: &Verdict, pairs: u8) -> usize
    ensures { result ≡ rival_in (Ok verdict.now) pairs }
{
    match verdict {
        Verdict::Strong => 0,
        Verdict::Popular(_) => desk_files::plan_length(pairs),
        Verdict::Beaten(_) => desk_files::plan_length(pairs),
    }
}

// The verdict on the held plan; the rival of a plan that is not strong goes to the front of the buffer, the pairings of the vote against it to that of
// the other, and what holds of it is promised.
pub fn judge(files: Files, rival: &mut [u8], pairings: &mut [u8]) -> Judgement
    ensures { Judges files rival.old pairings.old result.verdict result.rival_length rival.new pairings.new
        files }
{
    let loaded = desk_files::loaded(
        files,
        true,
        (rival.len() < PLAN_SIZE) | (pairings.len() < PAIRING_SIZE),
    );
    match loaded {
        Err(refusal) => Judgement {
            verdict: Err(refusal),
            rival_length: 0,
        },
        Ok(l) => {
            let p = l.plan;
            let verdict = verdict::weigh_paired(
                l.g,
                &p.chosen,
                p.n,
                &p.edges,
                &mut *rival,
                pairings,
            );
            let length = rival_length(&verdict, rival[0]);
            Judgement {
                verdict: Ok(verdict),
                rival_length: length,
            }
        }
    }
}

// Both votes and the winner, without the part, and the pairings of both votes.
pub fn compare_votes(
    files: Files,
    first: &[u8],
    second: &[u8],
    forward: &mut [u8],
    back: &mut [u8],
) -> Result<Comparison, Refusal>
    ensures { Replied files (compare first.now second.now forward.old back.old)
        (comparison_shown result)
        (compare first.now second.now forward.new back.new) files }
{
    let l = desk_files::loaded(
        files,
        false,
        (forward.len() < PAIRING_SIZE) | (back.len() < PAIRING_SIZE),
    )?;
    compare::compare(l.g, first, second, forward, back)
}

// The first blocking pair of the held plan, if there is one.
pub fn blocking(files: Files) -> Result<Option<Blocking>, Refusal>
    ensures { Replied files blocking (blocked_shown result) blocking files }
{
    let l = desk_files::loaded(files, true, false)?;
    let p = l.plan;
    Ok(blocking_search::blocking(l.g, &p.chosen, p.n, &p.edges))
}

// How much the desk holds; no state refuses it.
pub fn holds(files: Files) -> Holding
    ensures { Replied files holds (said (holding (holding_shown result))) holds files }
{
    match desk_files::check_open(files, false) {
        Ok(()) => Holding::Proposal,
        Err(refusal) => match refusal {
            Refusal::NoRoster => Holding::Nothing,
            Refusal::NoPlan => Holding::Roster,
            _ => Holding::Plan,
        },
    }
}
