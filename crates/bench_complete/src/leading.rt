//! The setup records that stand in front of a recording.
ghost use Rattle.bench_complete.specs.Judging.{StopsWriting};
ghost use Rattle.bench_complete.specs.Pieces.{bytes_of, ends_leading, kept_entries};
ghost use Rattle.std.specs.List.{position_or_len};
ghost use Rattle.std.specs.Io.KnownBytes.{Appends};
ghost use Rattle.std.specs.Prelude.{◌≡◌, ℕ, List, Some, OnOk, IfErr};

use crate::fault::CompleteFault;
use crate::original::Original;
use crate::placed::Placed;
use crate::places::Places;
use ch11_header::Header;
use ch11_header::kinds::{RECORDING_INDEX, SETUP_RECORD};
use std::io::Write;

/// Whether a packet with this header goes over and is no setup record.
fn ends_leading(header: &Header) -> bool
    ensures { result ≡ ends_leading header.now }
{
    header.kind != RECORDING_INDEX && header.kind != SETUP_RECORD
}

/// How many packets stand in front of the first one that goes over and is no setup record.
pub(crate) fn leading(packets: &[Placed]) -> usize
    ensures { result ≡ position_or_len (λ e. ends_leading e.header) packets.now }
{
    let mut place = 0;
    'packets: for packet in packets {
        if ends_leading(&packet.header) {
            return place;
        }
        place += 1;
    }
    place
}

/// Writes those packets of a recording that go over.
pub(crate) fn write_packets<S: Places, W: Write>(
    original: &mut Original<S>,
    packets: &[Placed],
    out: &mut W,
) -> Result<(), CompleteFault>
    ensures written { OnOk result ((file : List ℕ) → original.old ≡ Some file
        → Appends (W.contents out.old) (W.contents out.new) (bytes_of (kept_entries file packets.now))) }
    ensures stays { original.new ≡ original.old }
    ensures stopped { IfErr result StopsWriting }
{
    'packets: for packet in packets {
        if packet.header.kind != RECORDING_INDEX {
            original.write_packet(packet, out)?;
        }
    }
    Ok(())
}
