// What a source hands over to be mirrored: everything of an item but its offset and the lost bit.
use codec::ident::Ident;

#[derive(Clone, Copy)]
pub struct Offer {
    pub network: u8,
    pub ident: Ident,
    // as `Item.carries` (docs/DECISIONS.md, "Forms that are asked for")
    pub carries: bool,
    // the state byte without bit 7, and whether it is to be shown even where nothing was lost; no
    // Option, since where something was lost the byte is shown, due or not
    pub state: u8,
    pub due: bool,
}
