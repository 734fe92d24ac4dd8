// How a program fails: what it could not do and why, on standard error, and then its status.
ghost use Rattle.std.specs.Prelude.{◌≡◌, ◌↔◌, IsOk};
ghost use Rattle.std.specs.Process.{exit_status};

use std::io::{Cursor, ErrorKind, Write};
use std::process::ExitCode;
use std::{fmt, io};

#[derive(Drop)]
pub struct Failure {
    pub what: &'static str,
    pub why: io::Error,
}

// The status that a shell gives a program which the signal of a closed pipe ended.
const CLOSED: u8 = 141;

// The system's words alone: `io::Error` writes the number of the error after them.
fn words(text: &str) -> &str {
    text.split_once(" (os error ")
        .map_or(text, |(words, _)| words)
}

// The room holds any text of an error: the library keeps at most 80 bytes of one, and the system has shorter ones.
impl fmt::Display for Failure {
    fn fmt<W: fmt::Write>(&self, f: &mut fmt::Formatter<W>) -> fmt::Result {
        let mut room = Cursor::new([0u8; 256]);
        let _ = write!(room, "{}", self.why);
        let n = room.position() as usize;
        let text = room.into_inner();
        let why = text
            .get(..n)
            .and_then(|text| str::from_utf8(text).ok())
            .unwrap_or("");
        write!(f, "{}: {}", self.what, words(why))
    }
}

// Says on standard error what failed, and gives the status to end with. Where nobody reads any more what a program
// writes, nobody is told.
pub fn ended<E: Eprint>(errors: &E, end: Result<(), Failure>) -> ExitCode
    ensures { exit_status result ≡ 0 ↔ IsOk end }
{
    match end {
        Ok(()) => ExitCode::SUCCESS,
        Err(failure) => {
            if failure.why.kind() == ErrorKind::BrokenPipe {
                return ExitCode::from(CLOSED);
            }
            let _ = errors.eprintln(failure);
            ExitCode::FAILURE
        }
    }
}

#[cfg(test)]
mod tests {
    use super::*;
    use std::test::Fail;

    const IS_A_DIRECTORY: i32 = 21;

    const BROKEN_PIPE: i32 = 32;

    fn failed(error: i32) -> Failure {
        Failure {
            what: "list: reading the recording",
            why: io::Error::from_raw_os_error(error),
        }
    }

    #[test]
    fn tells_what_and_why(rt: HostRuntime) -> Result<(), Fail> {
        let text = format!(in rt.alloc(); "{}", failed(IS_A_DIRECTORY))?;
        assert_eq!(rt;
            text.as_str(),
            "list: reading the recording: Is a directory"
        );
        Ok(())
    }

    #[test]
    fn ends_with_a_status(rt: HostRuntime) -> Result<(), Fail> {
        assert!(rt; ended(&rt, Ok(())) == ExitCode::SUCCESS);
        assert!(rt; ended(&rt, Err(failed(BROKEN_PIPE))) == ExitCode::from(141));
        Ok(())
    }
}
