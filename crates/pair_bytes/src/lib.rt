// The bytes of a pair, in plan files and in lists of pairs: the one crate that knows how wide a pair is and what its bytes say.
#![tactic(auto)]

ghost use Rattle.std.specs.Prelude.{◌≡◌, ◌+◌, ◌≤◌, ◌<◌, length};
ghost use Rattle.model.specs.Limits.{node_limit, pair_width};
ghost use Rattle.pair_bytes.specs.PairAt.{with_pair, pair_from, put_by, width_of};

use limits::PAIR_WIDTH;

// The numbers that a pair's bytes name, which count from 1.
#[derive(Drop)]
pub struct Pair {
    pub surveyor: u8,
    pub stand: u8,
    pub shift: u8,
}

// The pair of surveyor s and stand t, which count from 0, in shift k, put at a place.
pub fn put(out: &mut [u8], at: usize, s: u8, t: u8, k: u8)
    requires { (at + pair_width ≤ length out.old) × (s < node_limit) × (t < node_limit) }
    ensures { out.new ≡ with_pair out.old at s t k }
{
    out[at] = s + 1;
    out[at + 1] = t + 1;
    out[at + 2] = k;
}

// A pair's bytes in a file with shifts, or in one without.
pub fn width(shifts: bool) -> usize
    ensures { result ≡ width_of shifts }
{
    if shifts {
        return PAIR_WIDTH;
    }
    2
}

// The pair read at a place of such a file: without shifts it is in shift 1.
pub fn get(bytes: &[u8], at: usize, shifts: bool) -> Pair
    requires { at + width_of shifts ≤ length bytes.now }
    ensures { result ≡ pair_from shifts bytes.now at }
{
    let surveyor = bytes[at];
    let stand = bytes[at + 1];
    if shifts {
        return Pair {
            surveyor: surveyor,
            stand: stand,
            shift: bytes[at + 2],
        };
    }
    Pair {
        surveyor: surveyor,
        stand: stand,
        shift: 1,
    }
}

// A pair put at a place of such a file.
pub fn put_by(out: &mut [u8], at: usize, p: Pair, shifts: bool)
    requires { at + width_of shifts ≤ length out.old }
    ensures { out.new ≡ put_by shifts out.old at p }
{
    out[at] = p.surveyor;
    out[at + 1] = p.stand;
    if shifts {
        out[at + 2] = p.shift;
    }
}
