// The header: version (1), sequence number (1), seconds (6), nanoseconds (4), DataLength (2).
ghost use Rattle.std.specs.Prelude.{◌≡◌, ◌∷◌, [], ◌+◌, ◌≤◌, length};
ghost use Rattle.codec.specs.Number.{Wrote, Laid};
ghost use Rattle.codec.specs.Time.{time_ok};
ghost use Rattle.codec.specs.Header.{header_bytes, time_at, read_header};

use crate::refusal::Refusal;
use crate::time::Time;

#[derive(Clone, Copy)]
pub struct Header {
    pub sequence: u8,
    pub time: Time,
    pub length: u16,
}

fn lay_front(out: &mut [u8], at: usize, sequence: u8) -> usize
    requires { at + 2 ≤ length out.old }
    ensures { Laid out.old at (1 ∷ sequence ∷ []) out.new result }
{
    out[at] = 1;
    out[at + 1] = sequence;
    at + 2
}

pub fn write_header(out: &mut [u8], at: usize, h: Header) -> Option<usize>
    ensures { Wrote (time_ok h.time) out.old at (header_bytes h) out.new result }
{
    if !crate::time::in_range(h.time) {
        return None;
    }
    crate::number::get_part(out, at, 14)?;
    let a = lay_front(out, at, h.sequence);
    let time = h.time;
    crate::number::put_be(out, a, time.sec, 6);
    let b = a + 6;
    crate::number::put_be(out, b, time.nano as u64, 4);
    let d = b + 4;
    crate::number::put_be(out, d, h.length as u64, 2);
    Some(d + 2)
}

// The time at an index, as a header has it, whatever else stands there. What is past the bytes counts as zero.
#[tactic(auto, using(crate::proofs::HeaderLaws::nano_cut), unfolding(crate::specs::Header::time_at))]
pub fn time_at(s: &[u8], at: usize) -> Time
    ensures { result ≡ time_at s.now at }
{
    Time {
        sec: crate::number::word_at(s, at, 6),
        nano: crate::number::word_at(s, at.saturating_add(6), 4) as u32,
    }
}

// 20 under 14 bytes, 21 version, 28 nanoseconds, 22 DataLength isn't the rest.
#[tactic(auto, using(crate::proofs::NumberLaws::word_is), unfolding(crate::specs::Header::read_header, crate::specs::Header::time_at))]
pub fn read_header(s: &[u8]) -> Result<Header, Refusal>
    ensures { result ≡ read_header s.now }
{
    if s.len() < 14 {
        return Err(Refusal::Short);
    }
    if s[0] != 1 {
        return Err(Refusal::Version);
    }
    let time = time_at(s, 2);
    if 999999999 < time.nano {
        return Err(Refusal::Nanos);
    }
    let length = crate::number::word_at(s, 12, 2);
    if length as usize != s.len() - 14 {
        return Err(Refusal::Length);
    }
    Ok(Header {
        sequence: s[1],
        time,
        length: length as u16,
    })
}
