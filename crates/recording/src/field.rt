// One field of a recording, judged by its own bytes.
ghost use Rattle.std.specs.Prelude.{◌≡◌};
ghost use Rattle.recording.specs.File.{short_of, frame_found, note_found, start_found, verdict, keeps};

use crate::error::RecordError;
use crate::tag::Tag;
use codec::header::Header;
use codec::time::Time;

// What a complete field is found to be. A skipped one has a tag that is not ours.
#[derive(Clone, Copy)]
pub enum Found {
    Frame(Header),
    Note,
    Start(Time),
    Skipped,
}

// The tag and the length of the body come with every finding, also with a refusal. The tag is a number, since a skipped field may
// have any.
#[derive(Clone, Copy)]
pub struct Field {
    pub tag: u8,
    pub length: u16,
    pub found: Result<Found, RecordError>,
}

// A frame or a note has 1,472 bytes at most.
#[tactic(auto, unfolding(crate::specs::File::short_of))]
pub fn short(length: usize) -> Result<(), RecordError>
    ensures { result ≡ short_of length }
{
    if 1472 < length {
        return Err(RecordError::Long);
    }
    Ok(())
}

#[tactic(auto, unfolding(crate::specs::File::frame_found))]
fn frame(length: u16, body: &[u8]) -> Result<Found, RecordError>
    ensures { result ≡ frame_found length body.now }
{
    short(usize::from(length))?;
    Ok(Found::Frame(reader::judge(body)?))
}

#[tactic(auto, unfolding(crate::specs::File::note_found))]
fn note(length: u16) -> Result<Found, RecordError>
    ensures { result ≡ note_found length }
{
    short(usize::from(length))?;
    Ok(Found::Note)
}

#[tactic(auto, using(crate::proofs::FieldLaws::start_size, crate::proofs::FieldLaws::start_nanos, crate::proofs::FieldLaws::start_good))]
fn start(length: u16, body: &[u8]) -> Result<Found, RecordError>
    ensures { result ≡ start_found length body.now }
{
    let t = codec::header::time_at(body, 0);
    if length != 10 || 999999999 < t.nano {
        return Err(RecordError::Start);
    }
    Ok(Found::Start(t))
}

// The verdict on a field. Its length is asked before its body, which is kept only where it may be good.
#[tactic(auto, unfolding(crate::specs::File::verdict, crate::specs::Tag::tag_of))]
pub fn judge(tag: u8, length: u16, body: &[u8]) -> Result<Found, RecordError>
    ensures { result ≡ verdict tag length body.now }
{
    match Tag::try_from(tag) {
        Ok(Tag::Frame) => frame(length, body),
        Ok(Tag::Note) => note(length),
        Ok(Tag::Start) => start(length, body),
        Err(_) => Ok(Found::Skipped),
    }
}

// A body that the verdict does not depend on is counted and not kept.
#[tactic(auto, unfolding(crate::specs::File::keeps, crate::specs::Tag::tag_of))]
pub fn kept(tag: u8, length: u16) -> bool
    ensures { result ≡ keeps tag length }
{
    match Tag::try_from(tag) {
        Ok(Tag::Frame | Tag::Note) => length <= 1472,
        Ok(Tag::Start) => length == 10,
        Err(_) => false,
    }
}
