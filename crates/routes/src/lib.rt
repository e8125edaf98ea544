// Stored in walking order: request W-214 of document 02. "Storing takes one file, the route and then the roster; it renumbers and reorders the
// stands by the route, the first named becoming 1 and so on, and keeps the route in front; unstoring gives the original bytes." Both calls take
// any bytes and any buffer, and use no desk.
#![tactic(auto)]

ghost use Rattle.std.specs.Prelude.{◌≤◌, length};
ghost use Rattle.model.specs.Limits.{node_limit, stored_size};
ghost use Rattle.model_files.specs.Routes.{way_back, store_of, unstore_of};
ghost use Rattle.answers.specs.Settling.{Settles, Answers};
ghost use Rattle.roster_routes.specs.Reordered.{Ordered};
ghost use Rattle.routes.specs.Reading.{HeadRead, Behind, TurnedBy, Fits, WrittenBoth};
ghost use Rattle.routes.specs.Storing.{turn_by, StoresBy};

use answers::Refusal;
use limits::{NODE_LIMIT, ROSTER_SIZE, STORED_SIZE};
use roster_parts::RosterBytes;

// A route's count. "A route cut short meets 1 and a count too high 2"; its numbers are not judged here.
pub(crate) fn read_head(file: &[u8]) -> Result<usize, Refusal>
    ensures { HeadRead file.now result }
{
    if file.len() == 0 {
        return Err(Refusal::CutShort);
    }
    let k = file[0];
    if NODE_LIMIT < k {
        return Err(Refusal::TooMany);
    }
    if file.len() <= (k as usize) {
        return Err(Refusal::CutShort);
    }
    Ok(k as usize)
}

// The roster by the route, or by its way back, which has the two tables the other way round.
pub(crate) fn turned(
    file: &[u8],
    ns: usize,
    nt: usize,
    places: &[u8],
    numbers: &[u8],
    back: bool,
) -> RosterBytes
    requires { (ns ≤ node_limit) × (nt ≤ node_limit) × Ordered nt places.now × Ordered nt numbers.now }
    ensures { TurnedBy back file.now ns nt places.now numbers.now result }
{
    if back {
        return roster_routes::reordered(file, ns, nt, numbers, places);
    }
    roster_routes::reordered(file, ns, nt, places, numbers)
}

// Some bytes of the file, and a roster's behind them.
pub(crate) fn written(file: &[u8], k: usize, roster: &[u8], out: &mut [u8]) -> usize
    requires { Fits file.now k roster.now out.old }
    ensures { WrittenBoth file.now k roster.now out.old result out.new }
{
    let front = roster_positions::part(file, 0, k);
    let a = byte_slices::copy(front, &mut *out);
    let b = byte_slices::copy(roster, &mut out[a..]);
    a + b
}

// An accepted roster behind a route of k numbers: 23, or the route and the renumbered roster.
pub(crate) fn settled(file: &[u8], k: usize, back: bool, out: &mut [u8]) -> Result<usize, Refusal>
    requires { Behind k file.now × (stored_size ≤ length out.old) }
    ensures { Settles (turn_by back file.now) out.old result out.new }
{
    let route = roster_positions::part(file, 1, k);
    let roster = roster_positions::part(file, k + 1, ROSTER_SIZE);
    let ns = roster_positions::byte_at(roster, 0) as usize;
    let nt = roster_positions::byte_at(roster, ns + 1) as usize;
    let Some(numbers) = roster_routes::route_of(route, nt) else {
        return Err(Refusal::NoRoute);
    };
    let places = roster_routes::places_of(route);
    let made = turned(roster, ns, nt, &places, &numbers, back);
    Ok(written(file, k + 1, made.bytes(), out))
}

// The route is read: "before the roster is read".
pub(crate) fn routed(file: &[u8], back: bool, out: &mut [u8]) -> Result<usize, Refusal>
    ensures { Answers stored_size (turn_by back file.now) out.old result out.new }
{
    if out.len() < STORED_SIZE {
        return Err(Refusal::BufferTooSmall);
    }
    let k = read_head(file)?;
    roster::read_roster(roster_positions::part(file, k + 1, file.len()))?;
    settled(file, k, back, out)
}

// A route and a roster, stored: the stands by the route, into a buffer of 4,295 bytes.
pub fn store(file: &[u8], out: &mut [u8]) -> Result<usize, Refusal>
    ensures { StoresBy (λ route. route) store_of unstore_of file.now out.old result out.new }
{
    routed(file, false, out)
}

// A stored file as it was before, into a buffer of the same size.
pub fn unstore(file: &[u8], out: &mut [u8]) -> Result<usize, Refusal>
    ensures { StoresBy way_back unstore_of store_of file.now out.old result out.new }
{
    routed(file, true, out)
}
