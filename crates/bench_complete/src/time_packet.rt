//! A time packet (IRIG 106-17 Chapter 11, time data packets, Format 1).
ghost use Rattle.bench_complete.specs.Lanes.{IsSmall};
ghost use Rattle.bench_complete.specs.TimePackets.{time_header, time_piece};
ghost use Rattle.std.specs.Io.KnownBytes.{Appends};
ghost use Rattle.std.specs.Prelude.{◌≡◌, ◌<◌, ◌≤◌, OnOk, IfErr};

use crate::fault::CompleteFault;
use crate::times::{SECOND, Times};
use bench_clock::body_of;
use ch11_header::kinds::TIME_DATA;
use ch11_header::{Header, write_header};
use std::io::Write;

/// The header of the time packet of a second.
fn header_of(times: &Times, second: u64) -> Header
    requires first { times.now.first ≤ second }
    requires small { second < 28147498 }
    ensures { result ≡ time_header times.now second }
{
    Header {
        channel: times.channel,
        packet_length: 36,
        data_length: 12,
        version: times.version,
        sequence: ((second - times.first) % 256) as u8,
        flags: 0,
        kind: TIME_DATA,
        counter: second * SECOND,
    }
}

/// Writes the time packet of a second of the relative time counter.
pub(crate) fn write_time<W: Write>(
    times: &Times,
    second: u64,
    out: &mut W,
) -> Result<(), CompleteFault>
    requires small { IsSmall times.now }
    requires first { times.now.first ≤ second }
    requires within { second < times.now.end }
    ensures written { OnOk result (Appends (W.contents out.old) (W.contents out.new)
        (time_piece times.now second).bytes) }
    ensures stopped { IfErr result (λ f. f ≡ CompleteFault.Device) }
{
    let header = write_header(&header_of(times, second));
    let body = body_of(times.start + second);
    out.write_all(&header)?;
    out.write_all(&body)?;
    Ok(())
}
