// Proposing at the desk (request W-207): a plan file beside the held plan.
#![tactic(auto)]

ghost use Rattle.model_desk.specs.Desk.{propose};
ghost use Rattle.answers.specs.ProposalCases.{proposal_shown};
ghost use Rattle.desk_files.specs.Replies.{Replied};

use answers::{Proposal, Refusal};
use desk_files::Files;
use limits::PAIRING_SIZE;

// the files afterwards, and the answer
#[derive(Drop)]
pub struct Proposed {
    pub files: Files,
    pub answer: Result<Proposal, Refusal>,
}

// A plan file beside the held plan (request W-207), "and returns both votes": the file is judged in full, then its plan and the held one vote, the new
// one first. The pairings of both votes (W-208) go to two buffers, its own first.
pub fn propose(files: Files, file: &[u8], forward: &mut [u8], back: &mut [u8]) -> Proposed
    ensures { Replied files (propose file.now forward.old back.old) (proposal_shown result.answer)
        (propose file.now forward.new back.new) result.files }
{
    let loaded = desk_files::loaded(
        files,
        true,
        (forward.len() < PAIRING_SIZE) | (back.len() < PAIRING_SIZE),
    );
    match loaded {
        Err(refusal) => Proposed {
            files: files,
            answer: Err(refusal),
        },
        Ok(l) => {
            let a = plan_reader::read_against(l.g, file, true);
            match a {
                Err(refusal) => Proposed {
                    files: files,
                    answer: Err(refusal),
                },
                Ok(p) => {
                    let q = l.plan;
                    let both = compare::both_votes(
                        l.g, &p.chosen, p.n, &p.edges, &q.chosen, q.n, &q.edges, forward, back,
                    );
                    let beside = desk_intake::with_proposal(files, file);
                    Proposed {
                        files: beside,
                        answer: Ok(Proposal {
                            proposal: both.first,
                            held: both.second,
                        }),
                    }
                }
            }
        }
    }
}
