// Calls of one source of the engine, but for the reports that have a payload. In parts, since a function stays under 40
// lines; `_` hands the rest on.
use crate::engine::Made;
use mirror::engine::{Engine, Outcome};
use script::call::Call;

fn added(outcome: Outcome<usize>, out: &mut [u8], at: usize) -> Made {
    let number = outcome.answer.map(|n| n as u64);
    crate::engine::numbered(outcome.engine, number, out, at)
}

fn add(engine: Engine, call: Call, out: &mut [u8], at: usize) -> Made {
    match call {
        Call::CanMask { source, mask, code } => added(engine.can_mask(source, mask, code), out, at),
        Call::CanRange {
            source,
            lower,
            upper,
        } => added(engine.can_range(source, lower, upper), out, at),
        Call::LinMask { source, mask, code } => added(engine.lin_mask(source, mask, code), out, at),
        Call::LinRange {
            source,
            lower,
            upper,
        } => added(engine.lin_range(source, lower, upper), out, at),
        Call::Slots {
            source,
            low,
            high,
            low_cycle,
            high_cycle,
            repetition,
        } => added(
            engine.slots(source, low, high, low_cycle, high_cycle, repetition),
            out,
            at,
        ),
        _ => crate::engine::no_call(engine),
    }
}

fn update(engine: Engine, call: Call, out: &mut [u8], at: usize) -> Made {
    match call {
        Call::CanState {
            source,
            online,
            passive,
            bus_off,
            counter,
        } => crate::engine::done(
            engine.can_state(source, online, passive, bus_off, counter),
            out,
            at,
        ),
        Call::LinState { source, online } => {
            crate::engine::done(engine.lin_state(source, online), out, at)
        }
        Call::FlexRayState {
            source,
            online,
            bits,
        } => crate::engine::done(engine.flexray_state(source, online, bits), out, at),
        _ => add(engine, call, out, at),
    }
}

pub(crate) fn make(engine: Engine, call: Call, out: &mut [u8], at: usize) -> Made {
    match call {
        Call::Start(source) => crate::engine::done(engine.start(source), out, at),
        Call::Stop(source) => crate::engine::done(engine.stop(source), out, at),
        Call::Remove { source, number } => {
            crate::engine::done(engine.remove(source, number), out, at)
        }
        Call::Conflict {
            source,
            time,
            channels,
            slot,
            cycle,
        } => crate::engine::timed(
            engine.conflict(source, time, channels, slot, cycle),
            out,
            at,
        ),
        Call::FlexRayError {
            source,
            time,
            channels,
            bits,
        } => crate::engine::timed(engine.flexray_error(source, time, channels, bits), out, at),
        _ => update(engine, call, out, at),
    }
}
