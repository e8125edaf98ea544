// "A pair is a surveyor and a stand; it stands in both lists or in neither", and with its shift: "one surveyor and one stand in two shifts
// are two pairs". The marks of both sides' lists against each other.
ghost use Rattle.std.specs.Prelude.{◌≡◌, ◌+◌, ◌≤◌, ◌<◌, length};
ghost use Rattle.model.specs.Limits.{node_limit};
ghost use Rattle.roster_reading.specs.Slot.{table_size};
ghost use Rattle.roster_reading.specs.Pairs.{three_alike, row_alike, both_alike};

use roster_entries::SHIFTS;
use roster_lists::ROW;

// The marks at a place of the surveyors' table and at one of the stands', and at the next two: the pairs of a surveyor and a stand stand side by side in
// both, one a shift.
pub(crate) fn three_alike(surveyors: &[bool], stands: &[bool], a: usize, b: usize) -> bool
    requires { (a + 3 ≤ table_size) × (b + 3 ≤ table_size) × (length surveyors.now ≡ table_size) × (length stands.now ≡ table_size) }
    ensures { result ≡ three_alike surveyors.now stands.now a b }
{
    let first = surveyors[a] == stands[b];
    let second = surveyors[a + 1] == stands[b + 1];
    let third = surveyors[a + 2] == stands[b + 2];
    first & (second & third)
}

// The pairs of surveyor i, from 0 on, and each of n stands. `surveyors` and `stands` are the marks of their lists.
pub(crate) fn row_alike(surveyors: &[bool], stands: &[bool], i: usize, n: usize) -> bool
    requires { (i < node_limit) × (n ≤ node_limit) × (length surveyors.now ≡ table_size) × (length stands.now ≡ table_size) }
    ensures { result ≡ row_alike surveyors.now stands.now i n }
{
    for j in (0..n).rev() {
        if !three_alike(
            surveyors,
            stands,
            i * ROW + SHIFTS * j,
            j * ROW + SHIFTS * i,
        ) {
            return false;
        }
    }
    true
}

// The pairs of each of m surveyors and each of n stands.
pub(crate) fn both_alike(surveyors: &[bool], stands: &[bool], m: usize, n: usize) -> bool
    requires { (m ≤ node_limit) × (n ≤ node_limit) × (length surveyors.now ≡ table_size) × (length stands.now ≡ table_size) }
    ensures { result ≡ both_alike surveyors.now stands.now m n }
{
    for i in (0..m).rev() {
        if !row_alike(surveyors, stands, i, n) {
            return false;
        }
    }
    true
}
