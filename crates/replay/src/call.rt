// One line: its call made on the engine or by the reader, its answer written.
use crate::engine::Made;
use mirror::engine::Engine;
use script::call::Call;

// Which word the bytes are, a payload or a frame, of a call that has them. `_` is every call that is made without.
fn bytes_word(call: &Call) -> Option<usize> {
    match call {
        Call::Read => Some(1),
        Call::Step(_) => Some(2),
        Call::Payload(_) => Some(2),
        Call::Rewrite(_) => Some(2),
        Call::Can { .. } => Some(5),
        Call::Lin { .. } => Some(6),
        Call::FlexRay { .. } => Some(7),
        _ => None,
    }
}

// The reports that have a payload, and the reader's calls, which leave the engine alone. In parts, since a function stays
// under 40 lines; `_` hands the rest on.
fn with_bytes(engine: Engine, call: Call, bytes: &[u8], out: &mut [u8], at: usize) -> Made {
    match call {
        Call::Can { source, time, key } => {
            crate::engine::timed(engine.can(source, time, key, bytes), out, at)
        }
        Call::Lin {
            source,
            time,
            pid,
            errors,
        } => crate::engine::timed(engine.lin(source, time, pid, errors, bytes), out, at),
        Call::FlexRay {
            source,
            time,
            channels,
            slot,
            cycle,
        } => crate::engine::timed(
            engine.flexray(source, time, channels, slot, cycle, bytes),
            out,
            at,
        ),
        _ => crate::engine::answered(engine, crate::read::make(call, bytes, out, at)),
    }
}

pub(crate) fn answer(
    engine: Engine,
    line: &[u8],
    frame: &mut [u8],
    out: &mut [u8],
    at: usize,
) -> Made {
    let Some(call) = script::call::parse(line) else {
        return crate::engine::no_call(engine);
    };
    let Some(k) = bytes_word(&call) else {
        return crate::engine::make(engine, call, line, frame, out, at);
    };
    let Some(n) = text::bytes::read(text::line::word(line, k), frame) else {
        return crate::engine::no_call(engine);
    };
    with_bytes(engine, call, text::part::front(frame, n), out, at)
}
