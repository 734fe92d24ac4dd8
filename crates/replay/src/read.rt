// Calls of the reader, on the frame that a line spells.
ghost use Rattle.std.specs.Prelude.{◌≡◌, length};

use script::call::Call;

// A payload line has the number of the step at the same place.
fn payload(out: &mut [u8], at: usize, frame: &[u8], place: usize) -> Option<usize> {
    let answer = reader::stepped_number(reader::step(frame, place));
    script::answer::with_bytes(out, at, answer, reader::payload(frame, place))
}

fn rewrite_in(out: &mut [u8], at: usize, frame: &[u8], room: &mut [u8]) -> Option<usize> {
    let answer = reader::rewritten_number(reader::rewrite(frame, room));
    script::answer::with_bytes(out, at, answer, room)
}

// What a call leaves alone of its output shows as EE.
pub(crate) fn untouched<const N: usize>() -> [u8; N]
    ensures { N ≡ length result }
{
    [0xEE; N]
}

fn rewrite(out: &mut [u8], at: usize, frame: &[u8], size: usize) -> Option<usize> {
    let mut room = untouched::<70000>();
    rewrite_in(out, at, frame, room.get_mut(..size)?)
}

// The last part of `call::with_bytes`: of the calls that have bytes no other is left, so that `_` is never reached.
pub(crate) fn make(call: Call, frame: &[u8], out: &mut [u8], at: usize) -> Option<usize> {
    match call {
        Call::Read => script::answer::judged(out, at, reader::judge(frame)),
        Call::Step(place) => script::answer::stepped(out, at, reader::step(frame, place as usize)),
        Call::Payload(place) => payload(out, at, frame, place as usize),
        Call::Rewrite(size) => rewrite(out, at, frame, size as usize),
        _ => None,
    }
}
