// The least vote over rankings not yet settled (request W-211): a call that leaves the desk as it is, and writes a rank byte for each range.
#![tactic(auto)]

ghost use Rattle.desk_ranges.specs.Asking.{Asks};

use answers::{LeastVote, Refusal};
use desk_files::Files;
use limits::CHOICE_SIZE;

// The least vote of the first plan file against the second over the ranges, a choice that reaches it to the front of the buffer, and what holds of
// both is promised.
pub fn least(
    files: Files,
    first: &[u8],
    second: &[u8],
    ranges: &[u8],
    out: &mut [u8],
) -> Result<LeastVote, Refusal>
    ensures { Asks files first.now second.now ranges.now out.old result out.new files }
{
    let l = desk_files::loaded(files, false, out.len() < CHOICE_SIZE)?;
    ranges_least::least(l.g, first, second, ranges, out)
}
