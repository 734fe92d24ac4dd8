// Why a frame, or a place in it, is refused (docs/RULES.md, "Reading a frame").
ghost use Rattle.std.specs.Prelude.{◌≡◌};
ghost use Rattle.codec.specs.Refusal.{number_of};

#[derive(Clone, Copy, Debug, PartialEq, Eq)]
pub enum Refusal {
    Short,
    Version,
    Length,
    Missing,
    Network,
    Reserved,
    Flags,
    Payload,
    Nanos,
    Range,
    Place,
}

// Its number (docs/RULES.md, "Reading a frame").
impl From<Refusal> for u8 {
    ghost from_gives = { λ r n. n ≡ number_of r };

    fn from(r: Refusal) -> u8 {
        match r {
            Refusal::Short => 20,
            Refusal::Version => 21,
            Refusal::Length => 22,
            Refusal::Missing => 23,
            Refusal::Network => 24,
            Refusal::Reserved => 25,
            Refusal::Flags => 26,
            Refusal::Payload => 27,
            Refusal::Nanos => 28,
            Refusal::Range => 29,
            Refusal::Place => 30,
        }
    }
}
