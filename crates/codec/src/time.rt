// Times, and the three kinds of number that count them. A tick is ten microseconds.
ghost use Rattle.std.specs.Prelude.{◌≡◌, ◌*◌};
ghost use Rattle.codec.specs.Number.{Below};
ghost use Rattle.codec.specs.Time.{ns, time_ok, ticks_of, millis_of, elapsed, overdue_of, recovered_of};

#[derive(Clone, Copy)]
pub struct Ticks(pub u16);

#[derive(Clone, Copy)]
pub struct Millis(pub u16);

#[derive(Clone, Copy)]
pub struct Nanos(pub u64);

#[derive(Clone, Copy)]
pub struct Time {
    pub sec: u64,
    pub nano: u32,
}

// Backwards by so many nanoseconds, from 1 on.
#[derive(Clone, Copy)]
pub enum Elapsed {
    Ticks(Ticks),
    TooFar,
    Backwards(Nanos),
}

pub fn in_range(t: Time) -> bool
    ensures { result ≡ time_ok t }
{
    (t.sec <= 281474976710655) & (t.nano <= 999999999)
}

#[tactic(auto, unfolding(crate::specs::Time::ticks_of))]
pub fn ticks_of_nanos(n: Nanos) -> Elapsed
    ensures { result ≡ ticks_of n.0 }
{
    let t = n.0 / 10000;
    match u16::try_from(t) {
        Ok(t) => Elapsed::Ticks(Ticks(t)),
        Err(_) => Elapsed::TooFar,
    }
}

// The conversions keep a name each (docs/DECISIONS.md, "Forms that are asked for"), so they are no From.
pub fn nanos_of_ticks(t: Ticks) -> Nanos
    ensures { Below (t.0 * 10000) 655350001 result.0 }
{
    Nanos(t.0 as u64 * 10000)
}

// Whole milliseconds, cut at the largest deadline that can be named.
pub fn millis_of_nanos(n: Nanos) -> Millis
    ensures { Below (millis_of n.0) 65536 result.0 }
{
    Millis((n.0 / 1000000).min(65535) as u16)
}

pub fn nanos_of_millis(m: Millis) -> Nanos
    ensures { Below (m.0 * 1000000) 65535000001 result.0 }
{
    Nanos(m.0 as u64 * 1000000)
}

// All of a time, whatever its fields hold: 128 bits hold any two and their difference.
fn whole(t: Time) -> u128
    ensures { result ≡ ns t }
{
    u128::from(t.sec) * 1000000000 + u128::from(t.nano)
}

// From a header time to a reading of the clock. What is told of a clock that stepped back is cut at 32 bits.
#[tactic(auto, using(crate::proofs::TimeLaws::too_far), unfolding(crate::specs::Time::elapsed))]
pub fn measure(from: Time, to: Time) -> Elapsed
    ensures { result ≡ elapsed (ns from) (ns to) }
{
    let (f, t) = (whole(from), whole(to));
    if t < f {
        return Elapsed::Backwards(Nanos((f - t).min(4294967295) as u64));
    }
    match u64::try_from(t - f) {
        Ok(n) => ticks_of_nanos(Nanos(n)),
        Err(_) => Elapsed::TooFar,
    }
}

// The deadline, where there is one, has passed since the header time.
#[tactic(auto, unfolding(crate::specs::Time::overdue_of))]
pub fn overdue(from: Time, to: Time, deadline: Millis) -> bool
    ensures { result ≡ overdue_of (ns from) (ns to) deadline.0 }
{
    (1 <= deadline.0) & (whole(from) + u128::from(nanos_of_millis(deadline).0) <= whole(to))
}

// The time that an offset stands for. It may run into the second after the last one that a header can hold.
#[tactic(auto, unfolding(crate::specs::Time::recovered_of))]
pub fn recovered(header: Time, offset: Ticks) -> Time
    ensures { result ≡ recovered_of header offset.0 }
{
    let n = header.nano as u64 + nanos_of_ticks(offset).0;
    Time {
        sec: header.sec.saturating_add(n / 1000000000),
        nano: (n % 1000000000) as u32,
    }
}
