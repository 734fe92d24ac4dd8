// Lists, checks or mends a recording from standard input, in the pieces that reading gives, on standard output: one
// program behind three names.
#![tactic(auto)]

mod checker;
mod input;
mod job;
mod lister;
mod mender;

use crate::checker::Checker;
use crate::input::run;
use crate::lister::Lister;
use crate::mender::Mender;
use std::process::ExitCode;
use std::rt::Env;

// The first argument tells, where it is one of the other two names. What is kept from piece to piece is lent from here,
// since there is no heap.
fn main(rt: HostRuntime) -> ExitCode {
    let mut name = [0u8; 4096];
    let n = rt.arg(1, &mut name).unwrap_or(0);
    let (mut input, mut output, mut errors) = (rt.stdin(), rt.stdout(), rt.stderr());
    let end = match text::part::front(&name, n) {
        b"check" => run(&mut input, &mut output, &mut errors, &mut Checker::new()),
        b"mend" => run(&mut input, &mut output, &mut errors, &mut Mender::new()),
        _ => run(&mut input, &mut output, &mut errors, &mut Lister::new()),
    };
    console::ended(&rt, end)
}
