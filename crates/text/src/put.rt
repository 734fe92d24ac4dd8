// Text written over a slice at an index.
ghost use Rattle.std.specs.Prelude.{◌≡◌, ◌+◌, ◌*◌, ◌<◌, ◌≤◌, length, true};
ghost use Rattle.codec.specs.Number.{over, Wrote};
ghost use Rattle.text.specs.Put.{hexes, hex_of, decimal_of, Ends};

use crate::digit::{Case, written};

// Written by index, since after `iter_mut` a proof knows the length of a slice and nothing else of it. listing writes upper case
// by a loop of its own, whose laws it shares with its notes.
fn lay_hex(out: &mut [u8], at: usize, src: &[u8])
    requires { at + 2 * length src.now ≤ length out.old }
    ensures { out.new ≡ over out.old at (hexes src.now) }
{
    for (i, b) in src.iter().enumerate() {
        let k = at + 2 * i;
        out[k] = written(*b >> 4, Case::Lower);
        out[k + 1] = written(*b, Case::Lower);
    }
}

// Two lower-case digits for each byte, and `-` for no bytes.
pub fn hex(out: &mut [u8], at: usize, src: &[u8]) -> Option<usize>
    ensures { Wrote true out.old at (hex_of src.now) out.new result }
{
    if src.is_empty() {
        return codec::number::put_bytes(out, at, b"-");
    }
    let next = codec::number::get_part(out, at, 2 * src.len())?;
    lay_hex(out, at, src);
    Some(next)
}

// The decimal digits of v at the end of text, from the last to the first; answers where they start. Written by index, as the bytes
// of `lay_hex`.
pub(crate) fn spell(text: &mut [u8], v: u64) -> usize
    requires { length text.old ≡ 20 }
    ensures { Ends text.new (decimal_of v) result }
{
    let mut x = v;
    for i in (0..20).rev() {
        text[i] = (x % 10 + 48) as u8;
        x /= 10;
        if x == 0 {
            return i;
        }
    }
    0
}

// By hand, since the library's `write!` says nothing of what stands in the output after an `Err`.
pub fn decimal(out: &mut [u8], at: usize, v: u64) -> Option<usize>
    ensures { Wrote true out.old at (decimal_of v) out.new result }
{
    let mut text = [0u8; 20];
    let i = spell(&mut text, v);
    codec::number::put_bytes(out, at, &text[i..])
}
