// Old season files, rosters: request W-205 of document 02. "An old file becomes a new one with shift 1 throughout, and a new file with only
// shift 1 goes back to the identical old bytes." Both calls take any bytes and any buffer, and use no desk: "A call that takes a roster as a
// file (..) needs none loaded". Plans of old seasons are judged against the held roster, so they are calls on the desk.
#![tactic(auto)]

ghost use Rattle.std.specs.Prelude.{◌≤◌, length};
ghost use Rattle.model.specs.Limits.{roster_size};
ghost use Rattle.model_desk.specs.Seasons.{to_new, to_old};
ghost use Rattle.answers.specs.Settling.{Settles, Answers};
ghost use Rattle.seasons.specs.Converting.{turn_by, Accepted, Converts};

use answers::Refusal;
use limits::ROSTER_SIZE;

// An accepted file, with shifts or without, in the other layout; 19 where an entry has another shift than 1.
pub(crate) fn settled(file: &[u8], shifts: bool, out: &mut [u8]) -> Result<usize, Refusal>
    requires { Accepted shifts file.now × (roster_size ≤ length out.old) }
    ensures { Settles (turn_by shifts file.now) out.old result out.new }
{
    let ns = roster_positions::byte_at(file, 0) as usize;
    let nt = roster_positions::byte_at(file, ns + 1) as usize;
    let t = roster_turned::turn(file, ns, nt, shifts);
    if !t.first {
        return Err(Refusal::OtherShift);
    }
    Ok(byte_slices::copy(t.roster.bytes(), out))
}

// A file with shifts or without, in the other layout: 15 first, "either way", then the file's refusals, then 19.
pub(crate) fn converted(file: &[u8], shifts: bool, out: &mut [u8]) -> Result<usize, Refusal>
    ensures { Answers roster_size (turn_by shifts file.now) out.old result out.new }
{
    if out.len() < ROSTER_SIZE {
        return Err(Refusal::BufferTooSmall);
    }
    roster::file_answer(file, shifts)?;
    settled(file, shifts, out)
}

// A roster of an old season as one of today, with shift 1 throughout, into a buffer of a roster's size.
pub fn roster_to_new(file: &[u8], out: &mut [u8]) -> Result<usize, Refusal>
    ensures { Converts to_new to_old file.now out.old result out.new }
{
    converted(file, false, out)
}

// A roster of today with only shift 1 as one of an old season, into a buffer of the same size.
pub fn roster_to_old(file: &[u8], out: &mut [u8]) -> Result<usize, Refusal>
    ensures { Converts to_old to_new file.now out.old result out.new }
{
    converted(file, true, out)
}
