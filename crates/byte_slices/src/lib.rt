// Bytes copied and compared: what the calls say of the buffers that they are lent rests on these two.
#![tactic(auto)]

ghost use Rattle.std.specs.Prelude.{◌≡◌, ◌≤◌, ◌++◌, length, take, drop, true};

// The bytes go to the front of the buffer, which keeps what is behind them. Returns how many they are.
pub fn copy(from: &[u8], to: &mut [u8]) -> usize
    requires { length from.now ≤ length to.old }
    ensures { (result ≡ length from.now) × (to.new ≡ take (length from.now) from.now ++ drop (length from.now) to.old) }
{
    let n = from.len();
    to[..n].copy_from_slice(from);
    n
}

// Whether two parts hold the same bytes.
pub fn same(a: &[u8], b: &[u8]) -> bool
    ensures { (result ≡ true → a.now ≡ b.now) × (a.now ≡ b.now → result ≡ true) }
{
    a == b
}
