// One item at a place, and its payload as that very part of the caller's frame.
ghost use Rattle.std.specs.Prelude.{◌≡◌};
ghost use Rattle.reader.specs.Frame.{starts_of, item_at_of, payload_at_of, step_of, payload_of};

use crate::items::Items;
use codec::item::Item;
use codec::refusal::Refusal;
use codec::time::Time;

// An item, when it was on the bus, how long its payload is, and where the next item or the end is.
#[derive(Clone, Copy)]
pub struct Stepped {
    pub next: usize,
    pub time: Time,
    pub item: Item,
    pub length: usize,
}

// Reads at a place without judging the frame: for a listing that judged it once. The end has no item.
#[tactic(auto, unfolding(crate::specs::Frame::item_at_of))]
pub fn item_at(frame: &[u8], place: usize) -> Result<Option<Stepped>, Refusal>
    ensures { result ≡ item_at_of frame.now place }
{
    if place == frame.len() {
        return Ok(None);
    }
    let decoded = codec::field::read_item(frame, place)?;
    Ok(Some(Stepped {
        next: decoded.next,
        time: codec::time::recovered(codec::header::time_at(frame, 2), decoded.item.offset),
        item: decoded.item,
        length: decoded.len,
    }))
}

// Empty where there is none, and no Option: an item's payload may be empty, and `item_at` says which it is.
#[tactic(auto, unfolding(crate::specs::Frame::payload_at_of))]
pub fn payload_at(frame: &[u8], place: usize) -> &[u8]
    ensures { result.now ≡ payload_at_of frame.now place }
{
    match codec::field::read_item(frame, place) {
        Ok(decoded) => codec::field::part_at(frame, decoded.start, decoded.len),
        Err(_) => &frame[..0],
    }
}

// The place starts an item or is the end.
fn starts(frame: &[u8], place: usize) -> bool
    ensures { result ≡ starts_of frame.now place 14 }
{
    for read in Items::of(frame) {
        let Ok((here, _)) = read else {
            return false;
        };
        if here == place {
            return true;
        }
    }
    frame.len() == place
}

#[tactic(auto, unfolding(crate::specs::Frame::step_of))]
pub fn step(frame: &[u8], place: usize) -> Result<Option<Stepped>, Refusal>
    ensures { result ≡ step_of frame.now place }
{
    crate::frame::judge(frame)?;
    if starts(frame, place) {
        item_at(frame, place)
    } else {
        Err(Refusal::Place)
    }
}

#[tactic(auto, unfolding(crate::specs::Frame::payload_of))]
pub fn payload(frame: &[u8], place: usize) -> &[u8]
    ensures { result.now ≡ payload_of frame.now place }
{
    match step(frame, place) {
        Ok(_) => payload_at(frame, place),
        Err(_) => &frame[..0],
    }
}
