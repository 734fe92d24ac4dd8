// Big-endian numbers of any width, written over a slice at an index and read from one. The slice and the index stay apart:
// what is written lies within a frame of the caller's, which a struct of both would have to borrow anew for each number.
ghost use Rattle.std.specs.Prelude.{◌≡◌, true, ◌+◌, ◌≤◌, ◌<◌, ◌%◌, ◌^◌, length, IfSome, MatchOption};
ghost use Rattle.codec.specs.Number.{Wrote, Word, be, val, word_at, get_of, part_of};

// A narrower number by its mask: `as` cuts nothing off.
pub fn low8(x: u64) -> u8
    ensures { result ≡ x % 256 }
{
    (x & 255) as u8
}

// The n low bytes of v, from the last to the first: one function for every width. They are written by index, since after
// `iter_mut` a proof knows the length of a slice and nothing else of it.
#[tactic(auto, using(crate::proofs::NumberLaws::down_first, crate::proofs::NumberLaws::down, crate::proofs::NumberLaws::down_last))]
pub fn put_be(out: &mut [u8], at: usize, v: u64, n: usize) -> Option<usize>
    ensures { Wrote true out.old at (be n v) out.new result }
{
    let next = get_part(out, at, n)?;
    let mut x = v;
    for i in (at..next).rev() {
        out[i] = low8(x);
        x >>= 8;
    }
    Some(next)
}

// Bytes as they are.
#[tactic(auto, using(crate::proofs::NumberLaws::copied))]
pub fn put_bytes(out: &mut [u8], at: usize, src: &[u8]) -> Option<usize>
    ensures { Wrote true out.old at src.now out.new result }
{
    let next = get_part(out, at, src.len())?;
    out[at..next].copy_from_slice(src);
    Some(next)
}

// What at most eight bytes are as a number.
#[tactic(auto, using(crate::proofs::NumberLaws::up_first, crate::proofs::NumberLaws::up, crate::proofs::NumberLaws::up_last, crate::proofs::NumberLaws::room_up))]
fn value(bytes: &[u8]) -> u64
    requires { length bytes.now ≤ 8 }
    ensures { Word (length bytes.now) (val 0 bytes.now) result }
{
    let mut x: u64 = 0;
    for b in bytes {
        x = x * 256 + u64::from(*b);
    }
    x
}

// The number that n bytes from index at are, and the index past them: one function for every width that fits 64 bits.
#[tactic(auto, using(crate::proofs::NumberLaws::got_wide, crate::proofs::NumberLaws::got_none, crate::proofs::NumberLaws::got_some))]
pub fn get(s: &[u8], at: usize, n: usize) -> Option<(u64, usize)>
    ensures value { result ≡ get_of n s.now at }
    ensures below { IfSome result (λ r. r.0 < 256 ^ n) }
{
    if 8 < n {
        return None;
    }
    let next = get_part(s, at, n)?;
    Some((value(&s[at..next]), next))
}

#[tactic(auto, using(crate::proofs::NumberLaws::word_got, crate::proofs::NumberLaws::word_none))]
pub fn word_at(s: &[u8], at: usize, n: usize) -> u64
    ensures { Word n (word_at n s.now at) result }
{
    match get(s, at, n) {
        Some((x, _)) => x,
        None => 0,
    }
}

// The index past n bytes at index at.
#[tactic(auto, using(crate::proofs::NumberLaws::miss, crate::proofs::NumberLaws::hit), unfolding(crate::specs::Number::part_of))]
pub fn get_part(s: &[u8], at: usize, n: usize) -> Option<usize>
    ensures value { result ≡ part_of s.now at n }
    ensures room { MatchOption result (length s.now < at + n) (λ next. (next ≡ at + n) × (next ≤ length s.now)) }
{
    if s.len() < n {
        return None;
    }
    if s.len() - n < at {
        return None;
    }
    Some(at + n)
}
