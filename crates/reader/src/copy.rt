// Lays the header and the items of an accepted frame out again. Nothing is copied that was not decoded,
// payloads apart.
ghost use Rattle.std.specs.Prelude.{◌≡◌, ◌≤◌, length};
ghost use Rattle.codec.specs.Number.{over};
ghost use Rattle.codec.specs.Layout.{body};
ghost use Rattle.reader.specs.Answer.{rewrite_error_number};
ghost use Rattle.reader.specs.Frame.{Clean, items_of, rewritten_of, rewrite_of};
ghost use Rattle.reader.specs.declared.copy.RewriteError.{RewriteError};

use crate::items::Items;
use codec::refusal::Refusal;

// The output is shorter than the frame, or the frame is none.
#[derive(Clone, Copy, Debug, PartialEq, Eq)]
pub enum RewriteError {
    Small,
    Frame(Refusal),
}

impl From<Refusal> for RewriteError {
    ghost from_gives = { λ why e. e ≡ RewriteError.Frame why };

    fn from(why: Refusal) -> RewriteError {
        RewriteError::Frame(why)
    }
}

impl From<RewriteError> for u8 {
    ghost from_gives = { λ e n. n ≡ rewrite_error_number e };

    fn from(error: RewriteError) -> u8 {
        match error {
            RewriteError::Small => 12,
            RewriteError::Frame(why) => u8::from(why),
        }
    }
}

fn rewrite_items(frame: &[u8], out: &mut [u8])
    requires frame_in_bounds { length frame.now ≤ length out.old }
    requires clean { Clean frame.now 14 }
    ensures { out.new ≡ over out.old 14 (body (items_of frame.now 14)) }
{
    for read in Items::of(frame) {
        let Ok((place, decoded)) = read else {
            return;
        };
        let payload = codec::field::part_at(frame, decoded.start, decoded.len);
        codec::item::write_item(out, place, decoded.item, payload);
    }
}

pub fn rewrite(frame: &[u8], out: &mut [u8]) -> Result<usize, RewriteError>
    ensures value { result ≡ rewrite_of frame.now out.old }
    ensures out_after { out.new ≡ rewritten_of frame.now out.old }
{
    let header = crate::frame::judge(frame)?;
    if out.len() < frame.len() {
        return Err(RewriteError::Small);
    }
    codec::header::write_header(out, 0, header);
    rewrite_items(frame, out);
    Ok(frame.len())
}
