// What a call on the desk has to work on, once a call: the state's refusal, the instance of the roster held, and the plan held. The
// roster's bytes are read once, for their refusal, and decoded once, for the arrays; the plan's bytes are read once, where a plan is needed.
#![tactic(auto)]

ghost use Rattle.std.specs.Prelude.{◌≡◌, true, cond};
ghost use Rattle.model.specs.Reading.{accepted};
ghost use Rattle.model.specs.Roster.{Roster};
ghost use Rattle.model.specs.RosterFile.{read_roster};
ghost use Rattle.model.specs.PlanFile.{read_plan};
ghost use Rattle.answers.specs.RefusalCases.{code_of, reading_of};
ghost use Rattle.answers.specs.FileCases.{file_read};
ghost use Rattle.instance.specs.Decoded.{shown_by};
ghost use Rattle.instance.specs.Loaded.{Loaded};
ghost use Rattle.desk_loaded.specs.OnDesk.{OnRosterAs, LoadedAs};
ghost use Rattle.desk_loaded.specs.RosterBytes.{Judged, ArraysOf};

use answers::Refusal;
use instance::Instance;
use limits::{ENTRY_LIMIT, PLAN_LIMIT};
use plan_reader::PlanRead;

// The instance, and the plan as its reader gives it. Where no plan is needed, the plan is empty.
#[derive(Clone, Copy)]
pub struct OnDesk {
    pub g: Instance,
    pub plan: PlanRead,
}

// a plan file against the arrays of an accepted roster: accepted, or its refusal
pub fn read_plan(g: Instance, file: &[u8]) -> Result<(), Refusal>
    requires { Loaded g }
    ensures { reading_of result ≡ file_read (read_plan (shown_by g) file.now) }
{
    plan_reader::read_against(g, file, true)?;
    Ok(())
}

// "15 a lent buffer below its size"
pub fn check_buffers(short: bool) -> Result<(), Refusal>
    ensures { code_of result ≡ cond short 15 0 }
{
    if short {
        return Err(Refusal::BufferTooSmall);
    }
    Ok(())
}

// "14 no plan held" before 15
pub fn with_plan(g: Instance, plan: &[u8], short: bool) -> Result<PlanRead, Refusal>
    requires { Loaded g }
    ensures { OnRosterAs g plan.now true short result }
{
    match plan_reader::read_against(g, plan, true) {
        Err(_) => Err(Refusal::NoPlan),
        Ok(read) => {
            check_buffers(short)?;
            Ok(read)
        }
    }
}

// the plan is read where it is needed; else it is empty
pub(crate) fn on_roster(
    g: Instance,
    plan: &[u8],
    needs: bool,
    short: bool,
) -> Result<PlanRead, Refusal>
    requires { Loaded g }
    ensures { OnRosterAs g plan.now needs short result }
{
    if needs {
        return with_plan(g, plan, short);
    }
    check_buffers(short)?;
    Ok(PlanRead {
        n: 0,
        chosen: [false; ENTRY_LIMIT],
        edges: [0; PLAN_LIMIT],
    })
}

// "13 no roster loaded" before all: `roster` and `plan` are the bytes held; `needs`: the call needs a plan; `short`: a buffer lent to it is
// below its size. What is answered has its instance put in last: each `Result` that is made of so large a value costs its size once more, cleared.
pub fn loaded(roster: &[u8], plan: &[u8], needs: bool, short: bool) -> Result<OnDesk, Refusal>
    ensures { LoadedAs roster.now plan.now needs short result }
{
    let Ok(()) = roster::read_roster(roster) else {
        return Err(Refusal::NoRoster);
    };
    let g = instance::instance_of(roster);
    let read = on_roster(g, plan, needs, short)?;
    Ok(OnDesk { g: g, plan: read })
}

// ---- the two halves of it, for calls that need one of them
// The state's refusal of a call that works on the roster's bytes alone, which are judged and not decoded: 13, then 15.
pub fn check_roster(roster: &[u8], short: bool) -> Result<(), Refusal>
    ensures { Judged roster.now short (code_of result) }
{
    match roster::read_roster(roster) {
        Err(_) => Err(Refusal::NoRoster),
        Ok(()) => check_buffers(short),
    }
}

// The arrays of bytes that are known to be a roster's, which are decoded and not judged.
pub fn arrays_of(roster: &[u8]) -> Instance
    requires { (R : Roster) × (read_roster roster.now ≡ accepted R) }
    ensures { ArraysOf roster.now result }
{
    instance::instance_of(roster)
}
