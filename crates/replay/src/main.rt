// Answers a call script from standard input, one line for each call, on standard output. Called `record`,
// it makes a recording of it on standard output, and answers on standard error.
#![tactic(auto)]

mod call;
mod engine;
mod input;
mod job;
mod player;
mod read;
mod record;
mod recorder;
mod source;
mod told;

use crate::input::run;
use crate::player::Player;
use crate::recorder::Recorder;
use std::process::ExitCode;
use std::rt::Env;

// The first argument tells. What is kept from line to line is lent from here, since there is no heap: the line so far,
// at most 200,000 characters; the frame that a line spells, two characters to a byte; what of the recording and of the
// answers is not yet written.
fn main(rt: HostRuntime) -> ExitCode {
    let mut name = [0u8; 4096];
    let n = rt.arg(1, &mut name).unwrap_or(0);
    let mut line = [0u8; 200000];
    let mut frame = [0u8; 100000];
    let mut tape = [0u8; 65536];
    let mut out = [0u8; 262144];
    let mut input = rt.stdin();
    let (output, errors) = (rt.stdout(), rt.stderr());
    let end = match text::part::front(&name, n) {
        b"record" => {
            let mut job = Recorder { output, errors };
            run(
                &mut input, &mut job, &mut line, &mut frame, &mut tape, &mut out,
            )
        }
        _ => {
            let mut job = Player { output };
            run(
                &mut input, &mut job, &mut line, &mut frame, &mut tape, &mut out,
            )
        }
    };
    console::ended(&rt, end)
}
