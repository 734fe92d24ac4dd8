// Writes a field into a lent output at an index: the whole of it, or nothing.
ghost use Rattle.std.specs.Prelude.{◌≡◌, length, Ok};
ghost use Rattle.recording.specs.Tag.{tag_number};
ghost use Rattle.recording.specs.Write.{Recorded, field_bytes, frame_answer, note_answer, start_answer, start_bytes};

use crate::error::RecordError;
use crate::tag::Tag;
use codec::time::Time;

// The index past the field, or why it was not written.
fn put_field(out: &mut [u8], at: usize, tag: Tag, body: &[u8]) -> Result<usize, RecordError>
    ensures { Recorded (Ok tt) out.old at (field_bytes (tag_number tag) body.now) out.new result }
{
    let Some(end) = codec::number::get_part(out, at, 3 + body.len()) else {
        return Err(RecordError::Small);
    };
    out[at] = u8::from(tag);
    codec::number::put_be(out, at + 1, body.len() as u64, 2);
    codec::number::put_bytes(out, at + 3, body);
    Ok(end)
}

// A frame that the reader refuses is not recorded, so that a recording lists clean.
#[tactic(auto, using(crate::proofs::WriteLaws::not_recorded, crate::proofs::WriteLaws::recorded_as), unfolding(crate::specs::Write::frame_answer))]
pub fn frame(out: &mut [u8], at: usize, body: &[u8]) -> Result<usize, RecordError>
    ensures { Recorded (frame_answer body.now) out.old at (field_bytes 1 body.now) out.new result }
{
    crate::field::short(body.len())?;
    reader::judge(body)?;
    put_field(out, at, Tag::Frame, body)
}

#[tactic(auto, using(crate::proofs::WriteLaws::not_recorded, crate::proofs::WriteLaws::recorded_as), unfolding(crate::specs::Write::note_answer))]
pub fn note(out: &mut [u8], at: usize, body: &[u8]) -> Result<usize, RecordError>
    ensures { Recorded (note_answer body.now) out.old at (field_bytes 2 body.now) out.new result }
{
    crate::field::short(body.len())?;
    put_field(out, at, Tag::Note, body)
}

fn lay_start(body: &mut [u8], t: Time)
    requires { length body.old ≡ 10 }
    ensures { body.new ≡ start_bytes t }
{
    codec::number::put_be(body, 0, t.sec, 6);
    codec::number::put_be(body, 6, t.nano as u64, 4);
}

// A microphone's start.
#[tactic(auto, using(crate::proofs::WriteLaws::not_recorded, crate::proofs::WriteLaws::recorded_as, crate::proofs::WriteLaws::start_out, crate::proofs::WriteLaws::start_in_range))]
pub fn start(out: &mut [u8], at: usize, t: Time) -> Result<usize, RecordError>
    ensures { Recorded (start_answer t) out.old at (field_bytes 3 (start_bytes t)) out.new result }
{
    if !codec::time::in_range(t) {
        return Err(RecordError::Start);
    }
    let mut body = [0u8; 10];
    lay_start(&mut body, t);
    put_field(out, at, Tag::Start, &body)
}
