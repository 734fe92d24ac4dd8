// The words of a line as numbers of their widths, and those that stand together in several lines.
ghost use Rattle.std.specs.Prelude.{◌≡◌};
ghost use Rattle.script.specs.Word.{narrow_of, wide_at, narrow_at, flag_at, stamp_at, slot_at, shape_at, bounds_at};

use codec::time::Time;

// Every report starts with its source and its time.
#[derive(Clone, Copy)]
pub(crate) struct Stamp {
    pub(crate) source: u64,
    pub(crate) time: Time,
}

// Where a FlexRay frame stands.
#[derive(Clone, Copy)]
pub(crate) struct Slot {
    pub(crate) channels: u32,
    pub(crate) slot: u32,
    pub(crate) cycle: u32,
}

// What setup and switch say of the frames.
#[derive(Clone, Copy)]
pub(crate) struct Shape {
    pub(crate) size: u64,
    pub(crate) room: u64,
    pub(crate) deadline: u64,
}

// The two numbers of a filter: a mask and its code, or a range.
#[derive(Clone, Copy)]
pub(crate) struct Bounds {
    pub(crate) source: u64,
    pub(crate) a: u32,
    pub(crate) b: u32,
}

#[tactic(auto, unfolding(crate::specs::Word::narrow_of))]
pub(crate) fn narrow_of(word: &[u8]) -> Option<u32>
    ensures { result ≡ narrow_of word.now }
{
    let v = text::number::read(word, u64::from(u32::MAX))?;
    Some(v as u32)
}

#[tactic(auto, unfolding(crate::specs::Word::wide_at))]
pub(crate) fn wide_at(line: &[u8], k: usize) -> Option<u64>
    ensures { result ≡ wide_at line.now k }
{
    text::number::read(text::line::word(line, k), u64::MAX)
}

#[tactic(auto, unfolding(crate::specs::Word::narrow_at))]
pub(crate) fn narrow_at(line: &[u8], k: usize) -> Option<u32>
    ensures { result ≡ narrow_at line.now k }
{
    narrow_of(text::line::word(line, k))
}

#[tactic(auto, unfolding(crate::specs::Word::flag_at))]
pub(crate) fn flag_at(line: &[u8], k: usize) -> Option<bool>
    ensures { result ≡ flag_at line.now k }
{
    let v = text::number::read(text::line::word(line, k), 1)?;
    Some(v == 1)
}

#[tactic(auto, unfolding(crate::specs::Word::stamp_at))]
pub(crate) fn stamp_at(line: &[u8]) -> Option<Stamp>
    ensures { result ≡ stamp_at line.now }
{
    let source = wide_at(line, 1)?;
    let sec = wide_at(line, 2)?;
    let nano = narrow_at(line, 3)?;
    let time = Time { sec, nano };
    Some(Stamp { source, time })
}

#[tactic(auto, unfolding(crate::specs::Word::slot_at))]
pub(crate) fn slot_at(line: &[u8]) -> Option<Slot>
    ensures { result ≡ slot_at line.now }
{
    let channels = narrow_at(line, 4)?;
    let slot = narrow_at(line, 5)?;
    let cycle = narrow_at(line, 6)?;
    Some(Slot {
        channels,
        slot,
        cycle,
    })
}

#[tactic(auto, unfolding(crate::specs::Word::shape_at))]
pub(crate) fn shape_at(line: &[u8]) -> Option<Shape>
    ensures { result ≡ shape_at line.now }
{
    let size = wide_at(line, 1)?;
    let room = wide_at(line, 2)?;
    let deadline = wide_at(line, 3)?;
    Some(Shape {
        size,
        room,
        deadline,
    })
}

#[tactic(auto, unfolding(crate::specs::Word::bounds_at))]
pub(crate) fn bounds_at(line: &[u8]) -> Option<Bounds>
    ensures { result ≡ bounds_at line.now }
{
    let source = wide_at(line, 1)?;
    let a = narrow_at(line, 2)?;
    let b = narrow_at(line, 3)?;
    Some(Bounds { source, a, b })
}
