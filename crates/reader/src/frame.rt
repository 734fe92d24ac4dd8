// The verdict on a whole frame: its header, then its items from the first to the end.
ghost use Rattle.std.specs.Prelude.{◌≡◌};
ghost use Rattle.reader.specs.Frame.{judge_of};

use crate::items::Items;
use codec::header::Header;
use codec::refusal::Refusal;

#[tactic(auto, unfolding(crate::specs::Frame::judge_of))]
pub fn judge(frame: &[u8]) -> Result<Header, Refusal>
    ensures { result ≡ judge_of frame.now }
{
    let header = codec::header::read_header(frame)?;
    for read in Items::of(frame) {
        read?;
    }
    Ok(header)
}
