// The lines that `record` knows beside those of a call script: each becomes a field of the recording.
ghost use Rattle.std.specs.Prelude.{◌≡◌, drop};
ghost use Rattle.script.specs.Tape.{is_note, started_of, tape_of};

use codec::time::Time;

#[derive(Drop)]
pub enum Tape {
    Start(Time),
    Frame,
}

// Asked of the line as it stands: a note may hold what starts a comment, and spaces at its end.
#[tactic(auto, unfolding(crate::specs::Tape::is_note))]
pub fn is_note(line: &[u8]) -> bool
    ensures { result ≡ is_note line.now }
{
    line.starts_with(b"note ")
}

// What stands behind `note` and its space; a question of its own, and no Option of both, since docs/PROOFS.md promises each.
pub fn note_in(line: &[u8]) -> &[u8]
    ensures { result.now ≡ drop 5 line.now }
{
    line.get(5..).unwrap_or(&line[..0])
}

#[tactic(auto, unfolding(crate::specs::Tape::started_of))]
fn started(line: &[u8]) -> Option<Tape>
    ensures { result ≡ started_of line.now }
{
    let sec = crate::word::wide_at(line, 1)?;
    let nano = crate::word::narrow_at(line, 2)?;
    Some(Tape::Start(Time { sec, nano }))
}

// A line without its comment, and nothing where the call script is to judge it: with one number `start` is the
// engine's call, with two a microphone's start.
#[tactic(auto, unfolding(crate::specs::Tape::tape_of))]
pub fn parse(line: &[u8]) -> Option<Tape>
    ensures { result ≡ tape_of line.now }
{
    match (text::line::words(line), text::line::word(line, 0)) {
        (2, b"frame") => Some(Tape::Frame),
        (3, b"start") => started(line),
        _ => None,
    }
}
