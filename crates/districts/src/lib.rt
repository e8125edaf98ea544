// Two districts on one tablet: request W-210 of document 02. "Joining two rosters puts the second's surveyors and stands after the first's,
// numbers moved up." The call takes any bytes and any buffer, and uses no desk.
#![tactic(auto)]

ghost use Rattle.districts.specs.Joins.{Joins};

use answers::Refusal;
use limits::ROSTER_SIZE;

// Two roster files as one, into a buffer of a roster's size: 15, then the first file's refusals, then the second's, "the first checked in full before
// the second", then those of the sums; else how many bytes are written.
pub fn join(first: &[u8], second: &[u8], out: &mut [u8]) -> Result<usize, Refusal>
    ensures { Joins first.now second.now out.old result out.new }
{
    if out.len() < ROSTER_SIZE {
        return Err(Refusal::BufferTooSmall);
    }
    roster::read_roster(first)?;
    roster::read_roster(second)?;
    let k = roster_districts::counts_of_both(first, second)?;
    let made = roster_districts::beside(first, k.ns, k.nt, second, k.ms, k.mt);
    Ok(byte_slices::copy(made.bytes(), out))
}
