// The frame ids of the three buses, and the network types.
ghost use Rattle.std.specs.Prelude.{◌≡◌};
ghost use Rattle.codec.specs.Ident.{network_type, kind_in, kind_of, can_zero, can_range, can_fd, pid_ok, channels_ok, flexray_range, ident_ok, can_most, most_of};
ghost use Rattle.codec.specs.Number.{Below};

use crate::refusal::Refusal;

#[derive(Clone, Copy, Debug, PartialEq, Eq)]
pub enum Kind {
    Can,
    Lin,
    FlexRay,
}

// The frame id that an item carries; `Bare` where it carries none and names only its network type.
#[derive(Clone, Copy)]
pub enum Ident {
    Can(u32),
    Lin(u8),
    FlexRay { channels: u8, slot: u16, cycle: u8 },
    // An error on these channels that belongs to no frame: it has no slot and no cycle.
    FlexRayError(u8),
    Bare(Kind),
}

impl From<Kind> for u8 {
    ghost from_gives = { λ k n. Below (network_type k) 4 n };

    fn from(k: Kind) -> u8 {
        match k {
            Kind::Can => 1,
            Kind::Lin => 2,
            Kind::FlexRay => 3,
        }
    }
}

impl TryFrom<u8> for Kind {
    type Error = Refusal;

    ghost try_from_gives = { λ n r. r ≡ kind_in n };

    #[tactic(auto, unfolding(crate::specs::Ident::kind_in))]
    fn try_from(n: u8) -> Result<Kind, Refusal> {
        match n {
            1 => Ok(Kind::Can),
            2 => Ok(Kind::Lin),
            3 => Ok(Kind::FlexRay),
            _ => Err(Refusal::Network),
        }
    }
}

// A question about an id, and no conversion of it.
pub fn kind_of(id: Ident) -> Kind
    ensures { result ≡ kind_of id }
{
    match id {
        Ident::Can(_) => Kind::Can,
        Ident::Lin(_) => Kind::Lin,
        Ident::FlexRay { .. } | Ident::FlexRayError(_) => Kind::FlexRay,
        Ident::Bare(k) => k,
    }
}

// Bit 29 of a CAN key is zero.
#[tactic(auto, unfolding(crate::specs::Ident::can_zero))]
pub fn can_zero(key: u32) -> bool
    ensures { result ≡ can_zero key }
{
    key >> 29 & 1 == 0
}

// An extended id, or a standard one of at most 11 bits.
#[tactic(auto, unfolding(crate::specs::Ident::can_range))]
pub fn can_range(key: u32) -> bool
    ensures { result ≡ can_range key }
{
    (key >> 31 == 1) | (key & 0x1fff_ffff <= 2047)
}

#[tactic(auto, unfolding(crate::specs::Ident::can_fd))]
pub fn can_fd(key: u32) -> bool
    ensures { result ≡ can_fd key }
{
    key >> 30 & 1 == 1
}

// Above the id's six bits stand P0, then P1. The other bits of a tap are masked away after the exclusive or.
#[tactic(auto, using(crate::proofs::PidLaws::pid_asked))]
pub fn pid_ok(pid: u32) -> bool
    ensures { result ≡ pid_ok pid }
{
    let p0 = (pid ^ pid >> 1 ^ pid >> 2 ^ pid >> 4) & 1;
    let p1 = (pid >> 1 ^ pid >> 3 ^ pid >> 4 ^ pid >> 5 ^ 1) & 1;
    pid >> 6 == p1 << 1 | p0
}

// Channel A, B or both.
pub fn channels_ok(channels: u32) -> bool
    ensures { result ≡ channels_ok channels }
{
    (1 <= channels) & (channels <= 3)
}

#[tactic(auto, unfolding(crate::specs::Ident::flexray_range))]
pub fn flexray_range(channels: u32, slot: u32, cycle: u32) -> bool
    ensures { result ≡ flexray_range channels slot cycle }
{
    channels_ok(channels) & (1 <= slot) & (slot <= 2047) & (cycle <= 63)
}

pub fn ident_ok(id: Ident) -> bool
    ensures { result ≡ ident_ok id }
{
    match id {
        Ident::Can(key) => can_zero(key) & can_range(key),
        Ident::Lin(pid) => pid_ok(u32::from(pid)),
        Ident::FlexRay {
            channels,
            slot,
            cycle,
        } => flexray_range(u32::from(channels), u32::from(slot), u32::from(cycle)),
        Ident::FlexRayError(channels) => channels_ok(u32::from(channels)),
        Ident::Bare(_) => true,
    }
}

fn can_most(fd: bool) -> usize
    ensures { Below (can_most fd) 65 result }
{
    if fd { 64 } else { 8 }
}

// The longest payload beside this id.
pub fn most_of(id: Ident) -> usize
    ensures { Below (most_of id) 255 result }
{
    match id {
        Ident::Can(key) => can_most(can_fd(key)),
        Ident::Lin(_) => 8,
        Ident::FlexRay { .. } => 254,
        Ident::FlexRayError(_) | Ident::Bare(_) => 0,
    }
}
