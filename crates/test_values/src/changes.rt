//! Recordings with a damaged byte.

use crate::FOREIGN;

/// The recording of another recorder with the bits of `change` turned over in one byte. Where there is no such byte,
/// the recording as it is.
pub fn foreign_with(place: usize, change: u8) -> [u8; 96] {
    let mut file = FOREIGN;
    if let Some(byte) = file.get_mut(place) {
        *byte ^= change;
    }
    file
}
