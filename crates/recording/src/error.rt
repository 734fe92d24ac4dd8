// Why a field of a recording is refused, or is not written, and their numbers (docs/RULES.md, "Recordings").
ghost use Rattle.std.specs.Prelude.{◌≡◌};
ghost use Rattle.recording.specs.Error.{number_of};
ghost use Rattle.recording.specs.declared.error.RecordError.{RecordError};

use codec::refusal::Refusal;

#[derive(Clone, Copy, Debug, PartialEq, Eq)]
pub enum RecordError {
    // the output has no room for the field
    Small,
    // a frame that the reader refuses
    Frame(Refusal),
    // the file ends inside a field
    Cut,
    // a frame or a note of more than 1,472 bytes
    Long,
    // a start that is no ten bytes, or whose time is out of range
    Start,
    // any other number; no call of this crate gives it, and who is handed a field with it tells it as it is
    Other(u8),
}

impl From<Refusal> for RecordError {
    ghost from_gives = { λ why e. e ≡ RecordError.Frame why };

    fn from(why: Refusal) -> RecordError {
        RecordError::Frame(why)
    }
}

impl From<RecordError> for u8 {
    ghost from_gives = { λ e n. n ≡ number_of e };

    fn from(error: RecordError) -> u8 {
        match error {
            RecordError::Small => 12,
            RecordError::Frame(why) => u8::from(why),
            RecordError::Cut => 40,
            RecordError::Long => 41,
            RecordError::Start => 42,
            RecordError::Other(n) => n,
        }
    }
}
