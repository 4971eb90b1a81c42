//! The order of all places that a source may stand at.
ghost use Rattle.controller_host.specs.Destinations.{IsPlace};
ghost use Rattle.controller_host.specs.Places.{code_order, order_of, all_places};
ghost use Rattle.std.specs.Prelude.{◌≡◌, ◌<◌};

use crate::destinations::Destination;

/// How many places there are: 32 at each subaddress of each terminal and of all, and one for each mode code to each
/// terminal and to all.
pub const ALL_PLACES: usize = 31_136;

/// The place of a mode code among those with a data word.
fn code_order(code: u8) -> u32
    ensures { result ≡ code_order code }
{
    u32::from(code).saturating_sub(19)
}

/// Where a place of a destination, counted from 1, stands among all places, from 0.
#[tactic(auto, unfolding(crate::specs::Places::order_of))]
pub fn order_of(destination: Destination, place: u8) -> u32
    requires { IsPlace destination place }
    ensures value { result ≡ order_of destination place }
    ensures range { result < all_places }
{
    let place = u32::from(place) - 1;
    match destination {
        Destination::Terminal {
            address,
            subaddress,
        } => (30 * u32::from(address) + (u32::from(subaddress) - 1)) * 32 + place,
        Destination::All { subaddress } => (930 + (u32::from(subaddress) - 1)) * 32 + place,
        Destination::Mode { address, code } => 30_720 + 13 * u32::from(address) + code_order(code),
        Destination::ModeToAll { code } => 31_123 + code_order(code),
    }
}
