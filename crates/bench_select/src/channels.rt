//! Marks of channels.
ghost use Rattle.std.specs.Prelude.{◌≡◌, length, replicate, false, true, slice_set, IfOk, vec_len};

use std::alloc::{AllocError, Global};

/// How many channels there can be, 0 among them.
pub const CHANNELS: usize = 65536;

/// A mark for each channel: none is marked.
pub fn no_channels(alloc: Global) -> Result<Vec<bool>, AllocError>
    ensures items { IfOk result (λ v. v.items ≡ replicate CHANNELS false) }
    ensures len { IfOk result (λ v. vec_len v ≡ CHANNELS) }
{
    let marks = vec![in alloc; false; CHANNELS]?;
    Ok(marks)
}

/// The channel is marked.
pub fn mark_channel(marks: &mut [bool], channel: u16)
    requires { length marks.old ≡ CHANNELS }
    ensures { marks.new ≡ slice_set marks.old channel true }
{
    marks[usize::from(channel)] = true;
}
