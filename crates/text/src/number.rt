// Numbers: decimal, or hexadecimal after `0x`.
ghost use Rattle.std.specs.Prelude.{◌≡◌, ◌<◌, ◌≤◌};
ghost use Rattle.text.specs.Number.{grown_of, digits_of, number_of};

// v with one more digit.
fn grown(v: u64, base: u64, d: u64, most: u64) -> Option<u64>
    ensures { result ≡ grown_of base most v d }
{
    let next = v.checked_mul(base)?.checked_add(d)?;
    if most < next { None } else { Some(next) }
}

fn digits(s: &[u8], base: u64, most: u64) -> Option<u64>
    requires base_some { 0 < base }
    requires base_bound { base ≤ 16 }
    ensures { result ≡ digits_of base most s.now }
{
    if s.is_empty() {
        return None;
    }
    let mut v = 0;
    for c in s {
        let d = crate::digit::value(*c)?;
        if base <= d {
            return None;
        }
        v = grown(v, base, d, most)?;
    }
    Some(v)
}

// The limit is the caller's, so that one function reads a flag, 32 bits and 64 bits.
pub fn read(word: &[u8], most: u64) -> Option<u64>
    ensures { result ≡ number_of word.now most }
{
    match word.strip_prefix(b"0x") {
        Some(rest) => digits(rest, 16, most),
        None => digits(word, 10, most),
    }
}
