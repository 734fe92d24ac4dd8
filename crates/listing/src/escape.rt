// A note, whatever bytes it holds, as one line of printable characters that tells them all.
ghost use Rattle.std.specs.Prelude.{◌≡◌, true, ◌+◌, ◌≤◌, length};
ghost use Rattle.codec.specs.Number.{Wrote, Sized};
ghost use Rattle.text.specs.Short.{Short};
ghost use Rattle.listing.specs.Line.{plain, escape_of, spread, note_fits, note_line};

// A byte that stands for itself. A backslash starts an escape, so it is escaped too.
#[tactic(auto, unfolding(crate::specs::Line::plain))]
fn plain(b: u8) -> bool
    ensures { result ≡ plain b }
{
    (b' '..=b'~').contains(&b) & (b != b'\\')
}

#[tactic(auto, unfolding(crate::specs::Line::escape_of))]
fn width(b: u8) -> usize
    ensures { Sized (escape_of b) 4 result }
{
    if plain(b) { 1 } else { 4 }
}

// A text behind what was laid before it, where there is room. What may be long goes straight to the output: no draft has
// room for it.
pub(crate) fn lay(out: &mut [u8], at: usize, s: &[u8]) -> usize
    requires { at + length s.now ≤ length out.old }
    ensures { Short (length s.now) out.old at s.now out.new result }
{
    codec::number::put_bytes(out, at, s);
    at + s.len()
}

fn lay_byte(out: &mut [u8], at: usize, b: u8) -> usize
    requires { at + length (escape_of b) ≤ length out.old }
    ensures { Short 4 out.old at (escape_of b) out.new result }
{
    let one = [b];
    if plain(b) {
        return lay(out, at, &one);
    }
    // One byte is two digits.
    let a = lay(out, at, b"\\x");
    text::put::hex(out, a, &one);
    a + 2
}

// The escaped text fits so many places. No byte takes more than four, so that where there is room for as many none is looked
// at. Else taken from them byte by byte: the sum itself may be too large to hold.
#[tactic(auto, using(crate::proofs::RoomLaws::fits_surely), unfolding(crate::specs::Line::note_fits))]
fn fits(src: &[u8], room: usize) -> bool
    ensures { result ≡ note_fits src.now room }
{
    if src.len() <= room / 4 {
        return true;
    }
    let mut left = room;
    for &b in src {
        let Some(less) = left.checked_sub(width(b)) else {
            return false;
        };
        left = less;
    }
    true
}

fn lay_bytes(out: &mut [u8], at: usize, src: &[u8]) -> usize
    requires { at + length (spread escape_of src.now) ≤ length out.old }
    ensures { Short (length (spread escape_of src.now)) out.old at (spread escape_of src.now) out.new result }
{
    let mut k = at;
    for &b in src {
        k = lay_byte(out, k, b);
    }
    k
}

#[tactic(auto, unfolding(crate::specs::Line::note_line))]
pub fn note(out: &mut [u8], at: usize, text: &[u8]) -> Option<usize>
    ensures { Wrote true out.old at (note_line text.now) out.new result }
{
    // The name, its space and the line feed are six.
    let room = out.len().checked_sub(at)?.checked_sub(6)?;
    if !fits(text, room) {
        return None;
    }
    let a = lay(out, at, b"note ");
    let b = lay_bytes(out, a, text);
    Some(lay(out, b, b"\n"))
}
