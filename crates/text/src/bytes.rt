// Bytes: two hexadecimal digits for each, or `-` for none.
ghost use Rattle.std.specs.Prelude.{◌≡◌, true, ◌*◌, ◌≤◌, length};
ghost use Rattle.std.specs.List.{list_all};
ghost use Rattle.std.specs.Char.{is_ascii_hexdigit};
ghost use Rattle.text.specs.Digit.{all_below};
ghost use Rattle.codec.specs.Number.{over};
ghost use Rattle.text.specs.Bytes.{pairs, spells, Filled};

fn all_hex(s: &[u8]) -> bool
    ensures { result ≡ list_all (λ c. is_ascii_hexdigit c) s.now }
{
    s.iter().all(|c| c.is_ascii_hexdigit())
}

// Read and written by index, since after `iter_mut` a proof knows the length of a slice and nothing else of it.
fn lay(word: &[u8], out: &mut [u8])
    requires word_value { all_below 16 word.now ≡ true }
    requires word_len_bound { length word.now ≤ 2 * length out.old }
    ensures { out.new ≡ over out.old 0 (pairs word.now) }
{
    for i in 0..word.len() / 2 {
        let a = crate::digit::value(word[2 * i]).unwrap();
        let b = crate::digit::value(word[2 * i + 1]).unwrap();
        out[i] = (a * 16 + b) as u8;
    }
}

// How many bytes the word is, which are then at the front of out. Everything is judged before the first byte is
// written, so that a bad word leaves out as it was.
pub fn read(word: &[u8], out: &mut [u8]) -> Option<usize>
    ensures { Filled (spells word.now) (pairs word.now) out.old out.new result }
{
    if word == b"-".as_slice() {
        return Some(0);
    }
    let n = word.len() / 2;
    if n == 0 {
        return None;
    }
    if word.len() % 2 != 0 {
        return None;
    }
    if out.len() < n {
        return None;
    }
    if !all_hex(word) {
        return None;
    }
    lay(word, out);
    Some(n)
}
