// The sources of a setup line: every word after the fourth is a number of 32 bits.
ghost use Rattle.std.specs.Prelude.{◌≡◌, drop};
ghost use Rattle.text.specs.Line.{split};
ghost use Rattle.script.specs.Pairs.{Gathered};

// How many numbers there are, and nothing where a word is none. Nine pairs are more than any setup takes, so what
// comes after them is judged and not kept: n counts those that are kept. No heap, so the array is lent.
pub fn read(line: &[u8], out: &mut [u32; 18]) -> Option<usize>
    ensures { Gathered (drop 4 (split line.now)) out.old out.new result }
{
    let mut n = 0;
    for word in line.split(|b| *b == b' ').skip(4) {
        let v = crate::word::narrow_of(word)?;
        if n < 18 {
            out[n] = v;
            n += 1;
        }
    }
    Some(n)
}
