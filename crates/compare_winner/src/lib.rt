// The winner of a comparison, from both votes, and the part of its file that the answer names.
#![tactic(auto)]

ghost use Rattle.std.specs.Prelude.{◌≡◌};
ghost use Rattle.model_desk.specs.Compare.{winner_of};
ghost use Rattle.answers.specs.ComparisonCases.{winner_case, part_shown};
ghost use Rattle.compare_winner.specs.Parts.{placed, Counted};

use answers::{Comparison, Refusal, Winner};

// W-206: "a plan beats another when the other's vote against it is below zero. Each may then beat the other." v is the first's vote against the
// second, w the second's against the first.
pub fn winner_of(v: i16, w: i16) -> Winner
    ensures { result ≡ winner_case (winner_of v w) }
{
    if w < 0 {
        if v < 0 {
            return Winner::Both;
        }
        return Winner::First;
    }
    if v < 0 {
        return Winner::Second;
    }
    Winner::Neither
}

// The part that an answer names, of the file that it is in: "the winner's for first and second, and empty for both and neither" (W-206); "on a
// refusal, the part is empty, taken from the first file". An accepted plan file's pair bytes are all but its count byte.
pub fn part_of<'a>(
    answer: Result<Comparison, Refusal>,
    first: &'a [u8],
    second: &'a [u8],
) -> &'a [u8]
    requires { Counted answer first.now second.now }
    ensures { (result.ref_ptr, result.now) ≡ placed first.entry second.entry (part_shown answer first.now second.now) }
{
    match answer {
        Ok(c) => match c.winner {
            Winner::First => &first[1..],
            Winner::Second => &second[1..],
            Winner::Both => &first[..0],
            Winner::Neither => &first[..0],
        },
        Err(_) => &first[..0],
    }
}
