//! The passes that draw channels.

use crate::canvas::Canvas;
use crate::fault::DrawFault;
use crate::group::Group;
use crate::loads::Loads;
use crate::plan::Plan;
use bench_watch::Reopen;
use ch11_stream::{Advance, Packets, StreamFault};

/// Draws the channels of a group, as far as the picture has room for them all, in a pass over a recording, of which the
/// first finds the loads of all lanes; answers how many.
pub(crate) fn draw_group<S: Reopen>(
    canvas: &mut Canvas<'_>,
    plan: &Plan,
    loads: &mut Loads,
    group: Group,
    recording: &S,
) -> Result<usize, DrawFault> {
    let mut group = group;
    match recording.reopen() {
        Ok(input) => add_packets(canvas, plan, loads, &mut group, input)?,
        Err(error) => return Err(DrawFault::Opening(error)),
    }
    loads.end(&canvas.scale);
    Ok(group.draw(canvas, loads)?)
}

/// Adds the messages of a group, as the packets of a reader come.
fn add_packets<R: Advance + Drop>(
    canvas: &mut Canvas<'_>,
    plan: &Plan,
    loads: &mut Loads,
    group: &mut Group,
    input: R,
) -> Result<(), StreamFault> {
    let mut packets = Packets::over(canvas.alloc, input)?;
    'packets: for _made in 0..u64::MAX {
        match packets.next() {
            Ok(Some(packet)) => {
                loads.add_messages(canvas, plan, &packet, packets.messages());
                group.add_messages(canvas, &packet, packets.messages())?
            }
            Ok(None) => return Ok(()),
            Err(fault) => return Err(fault),
        }
    }
    Err(StreamFault::Device)
}
