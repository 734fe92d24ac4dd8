// Lines of six to eight words, by their name and their count of words.
ghost use Rattle.std.specs.Prelude.{◌≡◌};
ghost use Rattle.script.specs.Call.{can_state_of, can_of, error_of, six_words_of, lin_of, conflict_of, slots_of, seven_words_of, flexray_of, eight_words_of};

use crate::call::Call;
use crate::word::{Slot, Stamp};

#[tactic(auto, unfolding(crate::specs::Call::can_state_of))]
fn can_state(line: &[u8]) -> Option<Call>
    ensures { result ≡ can_state_of line.now }
{
    let source = crate::word::wide_at(line, 1)?;
    let online = crate::word::flag_at(line, 2)?;
    let passive = crate::word::flag_at(line, 3)?;
    let bus_off = crate::word::flag_at(line, 4)?;
    let counter = crate::word::narrow_at(line, 5)?;
    Some(Call::CanState {
        source,
        online,
        passive,
        bus_off,
        counter,
    })
}

#[tactic(auto, unfolding(crate::specs::Call::can_of))]
fn can(line: &[u8]) -> Option<Call>
    ensures { result ≡ can_of line.now }
{
    let Stamp { source, time } = crate::word::stamp_at(line)?;
    let key = crate::word::narrow_at(line, 4)?;
    Some(Call::Can { source, time, key })
}

#[tactic(auto, unfolding(crate::specs::Call::error_of))]
fn error(line: &[u8]) -> Option<Call>
    ensures { result ≡ error_of line.now }
{
    let Stamp { source, time } = crate::word::stamp_at(line)?;
    let channels = crate::word::narrow_at(line, 4)?;
    let bits = crate::word::narrow_at(line, 5)?;
    Some(Call::FlexRayError {
        source,
        time,
        channels,
        bits,
    })
}

#[tactic(auto, unfolding(crate::specs::Call::six_words_of))]
pub(crate) fn six_words(name: &[u8], line: &[u8]) -> Option<Call>
    ensures { result ≡ six_words_of name.now line.now }
{
    match name {
        b"can" => can(line),
        b"can-state" => can_state(line),
        b"flexray-error" => error(line),
        _ => None,
    }
}

// What this shares with `error` is two lines, shorter than a function over both cases would be.
#[tactic(auto, unfolding(crate::specs::Call::lin_of))]
fn lin(line: &[u8]) -> Option<Call>
    ensures { result ≡ lin_of line.now }
{
    let Stamp { source, time } = crate::word::stamp_at(line)?;
    let pid = crate::word::narrow_at(line, 4)?;
    let errors = crate::word::narrow_at(line, 5)?;
    Some(Call::Lin {
        source,
        time,
        pid,
        errors,
    })
}

#[tactic(auto, unfolding(crate::specs::Call::conflict_of))]
fn conflict(line: &[u8]) -> Option<Call>
    ensures { result ≡ conflict_of line.now }
{
    let Stamp { source, time } = crate::word::stamp_at(line)?;
    let Slot {
        channels,
        slot,
        cycle,
    } = crate::word::slot_at(line)?;
    Some(Call::Conflict {
        source,
        time,
        channels,
        slot,
        cycle,
    })
}

#[tactic(auto, unfolding(crate::specs::Call::slots_of))]
fn slots(line: &[u8]) -> Option<Call>
    ensures { result ≡ slots_of line.now }
{
    let source = crate::word::wide_at(line, 1)?;
    let low = crate::word::narrow_at(line, 2)?;
    let high = crate::word::narrow_at(line, 3)?;
    let low_cycle = crate::word::narrow_at(line, 4)?;
    let high_cycle = crate::word::narrow_at(line, 5)?;
    let repetition = crate::word::narrow_at(line, 6)?;
    Some(Call::Slots {
        source,
        low,
        high,
        low_cycle,
        high_cycle,
        repetition,
    })
}

#[tactic(auto, unfolding(crate::specs::Call::seven_words_of))]
pub(crate) fn seven_words(name: &[u8], line: &[u8]) -> Option<Call>
    ensures { result ≡ seven_words_of name.now line.now }
{
    match name {
        b"lin" => lin(line),
        b"conflict" => conflict(line),
        b"flexray-filter" => slots(line),
        _ => None,
    }
}

#[tactic(auto, unfolding(crate::specs::Call::flexray_of))]
fn flexray(line: &[u8]) -> Option<Call>
    ensures { result ≡ flexray_of line.now }
{
    let Stamp { source, time } = crate::word::stamp_at(line)?;
    let Slot {
        channels,
        slot,
        cycle,
    } = crate::word::slot_at(line)?;
    Some(Call::FlexRay {
        source,
        time,
        channels,
        slot,
        cycle,
    })
}

#[tactic(auto, unfolding(crate::specs::Call::eight_words_of))]
pub(crate) fn eight_words(name: &[u8], line: &[u8]) -> Option<Call>
    ensures { result ≡ eight_words_of name.now line.now }
{
    match name {
        b"flexray" => flexray(line),
        _ => None,
    }
}
