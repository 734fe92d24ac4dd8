// The items of a frame, one after another, each where the one before it ends.
ghost use Rattle.std.specs.Prelude.{◌≡◌, ◌-◌, length};
ghost use Rattle.std.specs.Iterator.{at_most};
ghost use Rattle.reader.specs.Items.{Gives};

use codec::field::Decoded;
use codec::refusal::Refusal;

// Yields each item with the place where it stands, or the first refusal and then nothing.
#[derive(Drop)]
pub struct Items<'a> {
    frame: &'a [u8],
    place: usize,
}

impl<'a> Items<'a> {
    // From the first item on, which stands behind the header.
    pub fn of(frame: &'a [u8]) -> Items<'a>
        ensures frame { result.frame.now ≡ frame.now }
        ensures place { result.place ≡ 14 }
    {
        Items { frame, place: 14 }
    }
}

impl<'a> Iterator for Items<'a> {
    type Item = Result<(usize, Decoded), Refusal>;

    ghost next_gives = { λ s r t. (t.frame.now ≡ s.frame.now) × Gives s.frame.now s.place r t.place };

    ghost remaining = { λ s. at_most (length s.frame.now - s.place) };

    fn next(&mut self) -> Option<Result<(usize, Decoded), Refusal>> {
        let place = self.place;
        if self.frame.len() <= place {
            return None;
        }
        match codec::field::read_item(self.frame, place) {
            Ok(decoded) => {
                self.place = decoded.next;
                Some(Ok((place, decoded)))
            }
            Err(why) => {
                self.place = self.frame.len();
                Some(Err(why))
            }
        }
    }
}
