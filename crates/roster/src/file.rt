// A roster file from its first byte to its end. `shifts` says how an entry stands in it: with its shift, or, in a file from before the shifts, as
// a number alone.
ghost use Rattle.std.specs.Prelude.{◌≡◌, ◌≤◌, length};
ghost use Rattle.model.specs.Limits.{node_limit};
ghost use Rattle.model.specs.RosterFile.{read_roster_by};
ghost use Rattle.answers.specs.RefusalCases.{reading_of};
ghost use Rattle.roster_reading.specs.Layout.{layout_of};
ghost use Rattle.roster_reading.specs.Whole.{closed, ListsRead};

use answers::Refusal;
use roster_lists::TABLE;

// The lists of ns surveyors and nt stands from a place on, then "9 bytes after the end", then "8 a pair listed by one side only".
pub(crate) fn lists_to_end(
    file: &[u8],
    at: usize,
    ns: u8,
    nt: u8,
    shifts: bool,
) -> Result<usize, Refusal>
    requires { (at ≤ length file.now) × (ns ≤ node_limit) × (nt ≤ node_limit) }
    ensures { ListsRead shifts ns nt file.now at (reading_of result) }
{
    let m = ns as usize;
    let n = nt as usize;
    let mut surveyors = [false; TABLE];
    let mut stands = [false; TABLE];
    let mid = roster_sections::lists_section(file, at, m, nt, shifts, &mut surveyors)?;
    let end = roster_sections::rankings_section(file, mid, n, ns, shifts, &mut stands)?;
    if end < file.len() {
        return Err(Refusal::BytesLeft);
    }
    if crate::pairs::both_alike(&surveyors, &stands, m, n) {
        return Ok(end);
    }
    Err(Refusal::OneSided)
}

// The nodes of both sides, then their lists: the end of the file, or the first refusal.
pub(crate) fn roster_file(file: &[u8], shifts: bool) -> Result<usize, Refusal>
    ensures { reading_of result ≡ closed file.now (read_roster_by (layout_of shifts) file.now) }
{
    let a = roster_sections::nodes_at(file, 0)?;
    let b = roster_sections::nodes_at(file, a)?;
    let ns = file[0];
    let nt = file[a];
    lists_to_end(file, b, ns, nt, shifts)
}
