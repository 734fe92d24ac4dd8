// The three tags of fields that are ours. Any byte may stand for a tag in a file.
ghost use Rattle.std.specs.Prelude.{◌≡◌};
ghost use Rattle.recording.specs.Tag.{tag_of, tag_number};

#[derive(Clone, Copy, Debug, PartialEq, Eq)]
pub enum Tag {
    Frame,
    Note,
    Start,
}

// A tag of another's, whose field is skipped.
#[derive(Clone, Copy, Debug, PartialEq, Eq)]
pub struct UnknownTag;

impl TryFrom<u8> for Tag {
    type Error = UnknownTag;

    ghost try_from_gives = { λ n r. r ≡ tag_of n };

    #[tactic(auto, unfolding(crate::specs::Tag::tag_of))]
    fn try_from(byte: u8) -> Result<Self, UnknownTag> {
        match byte {
            1 => Ok(Tag::Frame),
            2 => Ok(Tag::Note),
            3 => Ok(Tag::Start),
            _ => Err(UnknownTag),
        }
    }
}

impl From<Tag> for u8 {
    ghost from_gives = { λ t n. n ≡ tag_number t };

    fn from(tag: Tag) -> u8 {
        match tag {
            Tag::Frame => 1,
            Tag::Note => 2,
            Tag::Start => 3,
        }
    }
}
