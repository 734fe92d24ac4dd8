// Lines of one to four words, by their name and their count of words.
ghost use Rattle.std.specs.Prelude.{◌≡◌};
ghost use Rattle.script.specs.Call.{one_word_of, two_words_of, removed_of, ticked_of, lin_state_of, three_words_of, switched_of, flexray_state_of, filter_of, four_words_of};

use crate::call::Call;
use crate::word::{Bounds, Shape};
use codec::time::Time;

#[tactic(auto, unfolding(crate::specs::Call::one_word_of))]
pub(crate) fn one_word(name: &[u8]) -> Option<Call>
    ensures { result ≡ one_word_of name.now }
{
    match name {
        b"new" => Some(Call::New),
        b"offline" => Some(Call::Offline),
        b"failed" => Some(Call::Failed),
        b"discards" => Some(Call::Discards),
        b"failures" => Some(Call::Failures),
        _ => None,
    }
}

// The program lends an output of at most 2,048 bytes.
#[tactic(auto, unfolding(crate::specs::Call::two_words_of))]
pub(crate) fn two_words(name: &[u8], line: &[u8]) -> Option<Call>
    ensures { result ≡ two_words_of name.now line.now }
{
    match name {
        b"read" => Some(Call::Read),
        b"take" => text::number::read(text::line::word(line, 1), 2048).map(Call::Take),
        b"start" => crate::word::wide_at(line, 1).map(Call::Start),
        b"stop" => crate::word::wide_at(line, 1).map(Call::Stop),
        _ => None,
    }
}

#[tactic(auto, unfolding(crate::specs::Call::removed_of))]
fn removed(line: &[u8]) -> Option<Call>
    ensures { result ≡ removed_of line.now }
{
    let source = crate::word::wide_at(line, 1)?;
    let number = crate::word::wide_at(line, 2)?;
    Some(Call::Remove { source, number })
}

#[tactic(auto, unfolding(crate::specs::Call::ticked_of))]
fn ticked(line: &[u8]) -> Option<Call>
    ensures { result ≡ ticked_of line.now }
{
    let sec = crate::word::wide_at(line, 1)?;
    let nano = crate::word::narrow_at(line, 2)?;
    Some(Call::Tick(Time { sec, nano }))
}

#[tactic(auto, unfolding(crate::specs::Call::lin_state_of))]
fn lin_state(line: &[u8]) -> Option<Call>
    ensures { result ≡ lin_state_of line.now }
{
    let source = crate::word::wide_at(line, 1)?;
    let online = crate::word::flag_at(line, 2)?;
    Some(Call::LinState { source, online })
}

// The program lends an output of at most 70,000 bytes.
#[tactic(auto, unfolding(crate::specs::Call::three_words_of))]
pub(crate) fn three_words(name: &[u8], line: &[u8]) -> Option<Call>
    ensures { result ≡ three_words_of name.now line.now }
{
    match name {
        b"rewrite" => text::number::read(text::line::word(line, 1), 70000).map(Call::Rewrite),
        b"step" => crate::word::wide_at(line, 1).map(Call::Step),
        b"payload" => crate::word::wide_at(line, 1).map(Call::Payload),
        b"remove" => removed(line),
        b"tick" => ticked(line),
        b"lin-state" => lin_state(line),
        _ => None,
    }
}

#[tactic(auto, unfolding(crate::specs::Call::switched_of))]
fn switched(line: &[u8]) -> Option<Call>
    ensures { result ≡ switched_of line.now }
{
    let Shape {
        size,
        room,
        deadline,
    } = crate::word::shape_at(line)?;
    Some(Call::Switch {
        size,
        room,
        deadline,
    })
}

#[tactic(auto, unfolding(crate::specs::Call::flexray_state_of))]
fn flexray_state(line: &[u8]) -> Option<Call>
    ensures { result ≡ flexray_state_of line.now }
{
    let source = crate::word::wide_at(line, 1)?;
    let online = crate::word::flag_at(line, 2)?;
    let bits = crate::word::narrow_at(line, 3)?;
    Some(Call::FlexRayState {
        source,
        online,
        bits,
    })
}

// The four filters of a source and two numbers.
#[tactic(auto, unfolding(crate::specs::Call::filter_of))]
fn filter(name: &[u8], bounds: Bounds) -> Option<Call>
    ensures { result ≡ filter_of name.now bounds }
{
    let Bounds { source, a, b } = bounds;
    match name {
        b"can-mask" => Some(Call::CanMask {
            source,
            mask: a,
            code: b,
        }),
        b"can-range" => Some(Call::CanRange {
            source,
            lower: a,
            upper: b,
        }),
        b"lin-mask" => Some(Call::LinMask {
            source,
            mask: a,
            code: b,
        }),
        b"lin-range" => Some(Call::LinRange {
            source,
            lower: a,
            upper: b,
        }),
        _ => None,
    }
}

#[tactic(auto, unfolding(crate::specs::Call::four_words_of))]
pub(crate) fn four_words(name: &[u8], line: &[u8]) -> Option<Call>
    ensures { result ≡ four_words_of name.now line.now }
{
    match name {
        b"switch" => switched(line),
        b"flexray-state" => flexray_state(line),
        _ => filter(name, crate::word::bounds_at(line)?),
    }
}
