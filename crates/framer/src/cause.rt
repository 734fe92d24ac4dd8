// Why the engine refuses a call (docs/RULES.md, "Answers"). The first test that fails gives the cause.
// The causes of the whole engine stand here, in the lowest crate that needs them.
ghost use Rattle.std.specs.Prelude.{◌≡◌};
ghost use Rattle.framer.specs.Cause.{number_of, guard};

#[derive(Clone, Copy, Debug, PartialEq, Eq)]
pub enum Cause {
    // no filter of the source matches
    Unmatched,
    NoSource,
    NotStarted,
    // a call of another bus kind
    OtherKind,
    // an identifier, cycle, channel or state value out of range
    OutOfRange,
    PayloadTooLong,
    // a time out of range
    BadTime,
    // the item, counted with a state byte, does not fit a frame
    TooBig,
    BadFilter,
    // all filter places of the source are taken
    NoPlace,
    NoFilter,
    // the output is shorter than the frame
    ShortOutput,
    NothingWaits,
    // a setup or switch out of range, done already, or not yet
    BadSetup,
    // no frame is out that could have failed
    NothingOut,
    // the engine breaks the soundness rule
    Unsound,
}

// Its number (docs/RULES.md, "Answers").
impl From<Cause> for u8 {
    ghost from_gives = { λ c n. n ≡ number_of c };

    fn from(cause: Cause) -> u8 {
        match cause {
            Cause::Unmatched => 1,
            Cause::NoSource => 2,
            Cause::NotStarted => 3,
            Cause::OtherKind => 4,
            Cause::OutOfRange => 5,
            Cause::PayloadTooLong => 6,
            Cause::BadTime => 7,
            Cause::TooBig => 8,
            Cause::BadFilter => 9,
            Cause::NoPlace => 10,
            Cause::NoFilter => 11,
            Cause::ShortOutput => 12,
            Cause::NothingWaits => 13,
            Cause::BadSetup => 14,
            Cause::NothingOut => 17,
            Cause::Unsound => 19,
        }
    }
}

// One test: tests that follow one another by `?` give the first cause.
pub fn check(good: bool, cause: Cause) -> Result<(), Cause>
    ensures { result ≡ guard good cause (Ok tt) }
{
    if good { Ok(()) } else { Err(cause) }
}
