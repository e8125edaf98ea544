// The roster reader: section "Roster bytes" of document 01 with the shifts of W-204, and refusals 1 to 9 and 18 in their order.
#![tactic(auto)]

ghost use Rattle.std.specs.Prelude.{◌≡◌};
ghost use Rattle.model.specs.RosterFile.{read_roster_by, read_roster};
ghost use Rattle.answers.specs.RefusalCases.{reading_of};
ghost use Rattle.answers.specs.FileCases.{file_read};
ghost use Rattle.roster_reading.specs.Layout.{layout_of};

mod file;
mod pairs;

use answers::Refusal;

// A roster file, with shifts or without, is accepted, or refused.
pub fn file_answer(file: &[u8], shifts: bool) -> Result<(), Refusal>
    ensures { reading_of result ≡ file_read (read_roster_by (layout_of shifts) file.now) }
{
    file::roster_file(file, shifts)?;
    Ok(())
}

// A roster file, as it stands since W-204.
pub fn read_roster(file: &[u8]) -> Result<(), Refusal>
    ensures { reading_of result ≡ file_read (read_roster file.now) }
{
    file_answer(file, true)
}
