// From which start the items of a recording have their positions: the latest good one before them in the file.
ghost use Rattle.std.specs.Prelude.{◌≡◌};
ghost use Rattle.tape.specs.Start.{after_of};

use codec::time::Time;
use recording::error::RecordError;
use recording::field::Found;

// There is none before the first good start. A refused start leaves the earlier one in force.
pub fn after(start: Option<Time>, found: Result<Found, RecordError>) -> Option<Time>
    ensures { result ≡ after_of start found }
{
    match found {
        Ok(Found::Start(time)) => Some(time),
        _ => start,
    }
}
