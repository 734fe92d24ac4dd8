// A fixed number of digits, upper-case. Without its leading zeros a fraction of a second would be another one.
ghost use Rattle.std.specs.Prelude.{◌≡◌, ◌+◌, ◌*◌, ◌≤◌, length};
ghost use Rattle.text.specs.Short.{Short};
ghost use Rattle.listing.specs.Line.{fixed_of, spread};

use text::digit::{Case, written};

// The low digits of v, from the last to the first: one function for every base and width. Written by index, since after
// `iter_mut` a proof knows the length of a slice and nothing else of it.
pub(crate) fn fixed<const BASE: u64, const WIDTH: usize>(v: u64) -> [u8; WIDTH]
    requires some { 1 ≤ BASE }
    requires most { BASE ≤ 16 }
    ensures { result ≡ fixed_of BASE WIDTH v }
{
    let mut digits = [0; WIDTH];
    let mut x = v;
    for i in (0..WIDTH).rev() {
        digits[i] = written((x % BASE) as u8, Case::Upper);
        x /= BASE;
    }
    digits
}

// Two digits for each byte. A note is laid by a loop like this one: a closure that writes over a lent slice would need a
// longer clause than both.
pub(crate) fn bytes(out: &mut [u8], at: usize, src: &[u8]) -> usize
    requires { at + 2 * length src.now ≤ length out.old }
    ensures { Short (2 * length src.now) out.old at (spread (fixed_of 16 2) src.now) out.new result }
{
    let mut k = at;
    for &b in src {
        k = crate::escape::lay(out, k, &fixed::<16, 2>(b as u64));
    }
    k
}
