// Committing at the desk (request W-207): the open proposal in the held plan's place.
#![tactic(auto)]

ghost use Rattle.model_desk.specs.Desk.{commit};
ghost use Rattle.answers.specs.ProposalCases.{commit_shown};
ghost use Rattle.desk_files.specs.Replies.{Replied};

use answers::Refusal;
use desk_files::Files;

// the files afterwards, and the answer
#[derive(Drop)]
pub struct Committed {
    pub files: Files,
    pub answer: Result<(), Refusal>,
}

// "a commit makes it the held plan and closes it"; "with no open proposal (20, desk, after 14)"
pub fn commit(files: Files) -> Committed
    ensures { Replied files commit (commit_shown result.answer) commit result.files }
{
    let l = desk_files::loaded(files, true, false);
    match l {
        Err(refusal) => Committed {
            files: files,
            answer: Err(refusal),
        },
        Ok(here) => {
            let array = files.proposal;
            let file = desk_files::front(&array, files.proposal_len);
            let a = desk_loaded::read_plan(here.g, file);
            match a {
                Err(_) => Committed {
                    files: files,
                    answer: Err(Refusal::NoProposal),
                },
                Ok(()) => {
                    let done = desk_intake::with_commit(files);
                    Committed {
                        files: done,
                        answer: Ok(()),
                    }
                }
            }
        }
    }
}
