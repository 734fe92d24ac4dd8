// What the programs share: they write all or fail, and say what failed.
#![tactic(auto)]

mod failure;

ghost use Rattle.std.specs.Prelude.{OnOk, OnErr};
ghost use Rattle.std.specs.Io.KnownBytes.{Appends};
ghost use Rattle.console.specs.Written.{AppendsFront};

pub use failure::{Failure, ended};
use std::io;
use std::io::{ErrorKind, Write};

// Stops at the first write that fails or takes nothing: what is there is then whole up to it. The library's own `write_all`
// does not say what an error left behind.
pub fn write_all<W: Write>(to: &mut W, bytes: &[u8]) -> io::Result<()>
    ensures all { OnOk result (Appends (W.contents to.old) (W.contents to.new) bytes.now) }
    ensures front { OnErr result (AppendsFront (W.contents to.old) (W.contents to.new) bytes.now) }
{
    let mut rest = bytes;
    while !rest.is_empty() {
        let n = to.write(rest)?;
        if n == 0 {
            return Err(io::Error::from(ErrorKind::WriteZero));
        }
        rest = &rest[n..];
    }
    Ok(())
}

#[cfg(test)]
mod tests {
    use super::*;
    use std::test::Fail;

    #[test]
    fn writes_all_or_stops(rt: HostRuntime) -> Result<(), Fail> {
        let mut whole = Vec::new(rt.alloc());
        write_all(&mut whole, b"field")?;
        assert_eq!(rt; whole.as_slice(), b"field".as_slice());
        let mut room = [0u8; 3];
        let mut rest: &mut [u8] = &mut room;
        assert!(rt; write_all(&mut rest, b"field").is_err());
        assert_eq!(rt; &room[..], b"fie".as_slice());
        Ok(())
    }
}
