// Samples come at 48,000 a second, which is 6 in 125,000 nanoseconds.
ghost use Rattle.std.specs.Prelude.{◌≡◌, ◌≤◌, pos, nat_abs};
ghost use Rattle.codec.specs.Time.{ns};
ghost use Rattle.tape.specs.Sample.{number_of, apart_of, sample_of, position_of};

use codec::time::Time;

// A time more than 24 hours from the start.
#[derive(Clone, Copy, Debug, PartialEq, Eq)]
pub struct TooFar;

impl From<TooFar> for u8 {
    ghost from_gives = { λ why n. n ≡ number_of why };

    fn from(_why: TooFar) -> u8 {
        61
    }
}

// A time as one count of nanoseconds, whatever its fields hold: with a sign, since here the difference has one.
fn nanos(t: Time) -> i128
    ensures { result ≡ pos (ns t) }
{
    i128::from(t.sec) * 1_000_000_000 + i128::from(t.nano)
}

// From the start to the time, with a sign.
fn apart(start: Time, time: Time) -> i128
    ensures { result ≡ apart_of start time }
{
    nanos(time) - nanos(start)
}

#[tactic(auto, using(crate::proofs::SampleLaws::by_euclid))]
fn sample(apart: i64) -> i64
    requires { nat_abs apart ≤ 86400000000000 }
    ensures { result ≡ sample_of apart }
{
    (apart * 6).div_euclid(125_000)
}

// Sample 0 begins at the start, and those before it have negative numbers.
#[tactic(auto, using(crate::proofs::PlaceLaws::near, crate::proofs::PlaceLaws::far))]
pub fn position(start: Time, time: Time) -> Result<i64, TooFar>
    ensures { result ≡ position_of start time }
{
    let apart = apart(start, time);
    if 86_400_000_000_000 < apart.unsigned_abs() {
        return Err(TooFar);
    }
    Ok(sample(apart as i64))
}
