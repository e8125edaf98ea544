// Bytes from the desk to a buffer, and how many: the roster held, the plan held, the open proposal, a plan of an old season in the layout of today or
// back (request W-205), and a day for each entry of the plan held (W-209).
#![tactic(auto)]

ghost use Rattle.model_desk.specs.Desk.{write_roster_to, write_plan_to, write_proposal_to};
ghost use Rattle.answers.specs.WrittenCases.{written_shown};
ghost use Rattle.desk_files.specs.Replies.{Replied};
ghost use Rattle.desk_writes.specs.Seasons.{TurnsBy};
ghost use Rattle.desk_writes.specs.Sheets.{Spreads};

use answers::Refusal;
use desk_files::Files;
use limits::{DAY_SIZE, PLAN_SIZE, ROSTER_SIZE};

pub fn write_roster(files: Files, out: &mut [u8]) -> Result<usize, Refusal>
    ensures { Replied files (write_roster_to out.old) (written_shown result) (write_roster_to out.new) files }
{
    let roster = files.roster;
    desk_loaded::check_roster(
        desk_files::front(&roster, files.roster_len),
        out.len() < ROSTER_SIZE,
    )?;
    Ok(desk_files::copied(&roster, files.roster_len, out))
}

pub fn write_plan(files: Files, out: &mut [u8]) -> Result<usize, Refusal>
    ensures { Replied files (write_plan_to out.old) (written_shown result) (write_plan_to out.new) files }
{
    desk_files::loaded(files, true, out.len() < PLAN_SIZE)?;
    let plan = files.plan;
    Ok(desk_files::copied(&plan, files.plan_len, out))
}

// The open proposal: 13, 14, 20, then 15, where the buffer is below a plan's size.
pub fn write_proposal(files: Files, out: &mut [u8]) -> Result<usize, Refusal>
    ensures { Replied files (write_proposal_to out.old) (written_shown result) (write_proposal_to out.new) files }
{
    desk_files::check_open(files, out.len() < PLAN_SIZE)?;
    let proposal = files.proposal;
    Ok(desk_files::copied(&proposal, files.proposal_len, out))
}

// A plan of an old season, or of today, in the other layout (request W-205): "a plan, an old one with shift 1, is judged against the held roster". 13,
// then 15, "193 bytes either way", then the plan's refusals, and for a file with shifts 19.
pub fn turned(files: Files, file: &[u8], shifts: bool, out: &mut [u8]) -> Result<usize, Refusal>
    ensures { TurnsBy shifts files file.now out.old result out.new }
{
    let l = desk_files::loaded(files, false, out.len() < PLAN_SIZE)?;
    let read = plan_reader::read_against(l.g, file, shifts);
    plan_turned::turn(read, file, shifts, out)
}

// The days of the held plan's entries to the front of the buffer, and what holds of them is promised.
pub fn spread(files: Files, out: &mut [u8]) -> Result<usize, Refusal>
    ensures { Spreads files out.old result out.new files }
{
    let l = desk_files::loaded(files, true, out.len() < DAY_SIZE)?;
    let g = l.g;
    let p = l.plan;
    plan_days::spread(p.n, &p.edges, &g.sv, &g.st, out);
    Ok(p.n)
}
