// Old season files for C (request W-205): a roster as a file, without a desk, and a plan against the roster that a desk holds; each into a lent
// buffer, in the layout of today or of an old season. The numbers are a refusal, or 0 and the length written.
ghost use Rattle.model_desk.specs.Seasons.{to_new, to_old};
ghost use Rattle.model_desk.specs.Desk.{plan_to_new, plan_to_old};
ghost use Rattle.seasons.specs.Converting.{Converts};
ghost use Rattle.desk_writes.specs.Seasons.{Turns};
ghost use Rattle.abi.specs.WrittenFiles.{Told};

use super::desks::DeskWritten;
use abi_numbers::Outcome;
use desk::Desk;

// a roster of an old season as one of today, with shift 1 throughout; out has at least 4,262 bytes, else 15
#[unsafe(no_mangle)]
pub extern "C" fn crew_roster_to_new(file: &[u8], out: &mut [u8]) -> Outcome
    ensures { Told (λ x. Converts to_new to_old file.now out.old x out.new) result }
{
    let a = seasons::roster_to_new(file, out);
    abi_numbers::written_numbers(a)
}

// a roster of today with only shift 1 as one of an old season; out has at least 4,262 bytes, else 15
#[unsafe(no_mangle)]
pub extern "C" fn crew_roster_to_old(file: &[u8], out: &mut [u8]) -> Outcome
    ensures { Told (λ x. Converts to_old to_new file.now out.old x out.new) result }
{
    let a = seasons::roster_to_old(file, out);
    abi_numbers::written_numbers(a)
}

// a plan of an old season as one of today, judged against the held roster; out has at least 193 bytes, else 15
#[unsafe(no_mangle)]
pub extern "C" fn crew_plan_to_new(desk: Desk, file: &[u8], out: &mut [u8]) -> DeskWritten
    ensures { Told (λ x. Turns plan_to_new plan_to_old desk.files file.now out.old x out.new
        result.desk.files) result.outcome }
{
    let r = desk.plan_to_new(file, out);
    let d = r.desk;
    let a = r.answer;
    let n = abi_numbers::written_numbers(a);
    DeskWritten {
        desk: d,
        outcome: n,
    }
}

// a plan of today with only shift 1 as one of an old season; out has at least 193 bytes, else 15
#[unsafe(no_mangle)]
pub extern "C" fn crew_plan_to_old(desk: Desk, file: &[u8], out: &mut [u8]) -> DeskWritten
    ensures { Told (λ x. Turns plan_to_old plan_to_new desk.files file.now out.old x out.new
        result.desk.files) result.outcome }
{
    let r = desk.plan_to_old(file, out);
    let d = r.desk;
    let a = r.answer;
    let n = abi_numbers::written_numbers(a);
    DeskWritten {
        desk: d,
        outcome: n,
    }
}
