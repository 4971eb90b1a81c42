//! The channels of a recording, for a setup record that describes them.

use bench_names::{Described, Holds, setup_text};
use ch11_header::Header;
use ch11_header::kinds::{BUS_MESSAGES, RECORDING_INDEX, TIME_DATA};
use ch11_reader::CHANNELS;
use ch11_stream::{Advance, Packets, StreamFault};
use command_parts::recordings::Recording;
use command_parts::requests::CommandFault;
use std::alloc::{AllocError, Global};
use std::io::IsTerminal;
use std::rt::{Clock, Files};

/// The text of a setup record of the channels of a recording, or of what is sound of it, and of that of the time
/// packets that are added, if any: in a pass of its own. It describes none where the recording is refused, which is
/// told where it is completed.
pub(crate) fn described<'a, R: Files + AllocGlobal + Clock, E: Eprint + IsTerminal>(
    recording: &Recording<'_, 'a, R, E>,
    times: Option<u16>,
) -> Result<Vec<u8>, CommandFault<'a>> {
    let alloc = recording.alloc();
    let mut found = vec![in alloc; None; CHANNELS]?;
    let bytes = recording.begin_anew()?;
    match note_packets(alloc, found.as_mut_slice(), bytes) {
        Ok(()) => {}
        Err(StreamFault::Refused(_)) => found = vec![in alloc; None; CHANNELS]?,
        Err(fault) => return recording.answer(Err(fault)),
    }
    if let Some(channel) = times {
        note(found.as_mut_slice(), channel, Holds::Times);
    }
    let channels = listed(alloc, found.as_slice())?;
    Ok(setup_text(alloc, channels.as_slice())?)
}

/// Notes what each channel's packets hold. Indexes are left out, since they do not go over.
fn note_packets<B: Advance + Drop>(
    alloc: Global,
    found: &mut [Option<Holds>],
    bytes: B,
) -> Result<(), StreamFault> {
    let mut packets = Packets::over(alloc, bytes)?;
    for _made in 0..u64::MAX {
        match packets.next()? {
            Some(packet) => {
                if packet.header.kind != RECORDING_INDEX {
                    note(found, packet.header.channel, held_by(&packet.header));
                }
            }
            None => return Ok(()),
        }
    }
    Ok(())
}

/// Notes what a packet of a channel holds: what is known of a channel by one of its packets stays.
fn note(found: &mut [Option<Holds>], channel: u16, holds: Holds) {
    if let Some(place) = found.get_mut(usize::from(channel)) {
        let known = match *place {
            Some(before) => before != Holds::Others,
            None => false,
        };
        if !known {
            *place = Some(holds);
        }
    }
}

/// What a packet of this header holds.
fn held_by(header: &Header) -> Holds {
    match header.kind {
        BUS_MESSAGES => Holds::Messages,
        TIME_DATA => Holds::Times,
        _ => Holds::Others,
    }
}

/// The channels that have packets, by their numbers; channel 0 is that of the recorder's own packets, and left out.
fn listed(alloc: Global, found: &[Option<Holds>]) -> Result<Vec<Described>, AllocError> {
    let mut channels = Vec::new(alloc);
    for (place, holds) in found.iter().enumerate() {
        if let (Ok(number), Some(holds)) = (u16::try_from(place), *holds) {
            if number > 0 {
                channels.push(Described { number, holds })?;
            }
        }
    }
    Ok(channels)
}
