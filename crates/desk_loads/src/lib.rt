// Loading at the desk: a file that is accepted is taken in, a refused one leaves everything as it was.
#![tactic(auto)]

ghost use Rattle.model_desk.specs.Desk.{load_roster, load_plan};
ghost use Rattle.answers.specs.FileCases.{file_shown};
ghost use Rattle.desk_files.specs.Replies.{Replied};

use answers::Refusal;
use desk_files::Files;

// the files afterwards, and the answer
#[derive(Drop)]
pub struct Load {
    pub files: Files,
    pub answer: Result<(), Refusal>,
}

// "Loading a roster drops the plan and is the only call that needs none loaded"
pub fn load_roster(files: Files, file: &[u8]) -> Load
    ensures { Replied files (load_roster file.now) (file_shown result.answer) (load_roster file.now) result.files }
{
    let a = roster::read_roster(file);
    match a {
        Err(refusal) => Load {
            files: files,
            answer: Err(refusal),
        },
        Ok(()) => {
            let d = desk_intake::with_roster(files, file);
            Load {
                files: d,
                answer: Ok(()),
            }
        }
    }
}

// "plan files are judged against the held roster"; an accepted one takes the place of the plan held.
pub fn load_plan(files: Files, file: &[u8]) -> Load
    ensures { Replied files (load_plan file.now) (file_shown result.answer) (load_plan file.now) result.files }
{
    let l = desk_files::loaded(files, false, false);
    match l {
        Err(refusal) => Load {
            files: files,
            answer: Err(refusal),
        },
        Ok(here) => {
            let a = desk_loaded::read_plan(here.g, file);
            match a {
                Err(refusal) => Load {
                    files: files,
                    answer: Err(refusal),
                },
                Ok(()) => {
                    let next = desk_intake::with_plan(files, file);
                    Load {
                        files: next,
                        answer: Ok(()),
                    }
                }
            }
        }
    }
}
