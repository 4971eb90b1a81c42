//! The lines of a packet on their way to a writer.
ghost use Rattle.bench_dump.specs.DumpText.{packet_line};
ghost use Rattle.bench_dump.specs.Printing.{Carries};
ghost use Rattle.bench_dump.specs.TimedText.{kind_asked, timed_lines};
ghost use Rattle.ch11_stream.specs.Feeding.{IsOther};
ghost use Rattle.std.specs.Prelude.{◌≡◌, ◌+◌, ◌<◌, ◌^◌, ◌++◌, length, [], OnOk, IfErr};

use crate::lines::put_packet_line;
use crate::text::Text;
use bench_clock::Clock;
use ch11_f1::Messages;
use ch11_header::Header;
use ch11_layout::StampKind;
use ch11_reader::Packet;
use ch11_stream::StreamFault;
use std::io::Write;

/// The text is handed on whenever it has reached so many bytes.
const PIECE: usize = 65536;

/// Hands the text on to the writer where it is long enough.
pub(crate) fn hand_on<W: Write>(text: &mut Text, out: &mut W) -> Result<(), StreamFault>
    ensures handed { OnOk result (Carries (W.contents out.old) text.old (W.contents out.new) text.new []) }
    ensures failed { IfErr result IsOther }
{
    if text.len() >= PIECE {
        out.write_all(text.as_slice())?;
        text.clear();
    }
    Ok(())
}

/// What the stamps of a packet tell of times of day: where none are asked for, as little as a counter's.
fn kind_for(timed: bool, header: &Header) -> StampKind
    ensures { result ≡ kind_asked timed header.now }
{
    if timed {
        StampKind::of(header)
    } else {
        StampKind::Counter
    }
}

/// The lines of a packet's messages, behind so many messages of the file, whose stamps are of this kind, with the times
/// of day that they or a clock tell.
pub(crate) fn dump_messages<W: Write>(
    text: &mut Text,
    out: &mut W,
    before: u64,
    channel: u16,
    kind: StampKind,
    clock: &Clock,
    messages: Messages<'_>,
) -> Result<(), StreamFault>
    requires { before + length messages < 2 ^ 64 }
    ensures printed { OnOk result (Carries (W.contents out.old) text.old (W.contents out.new) text.new
        (timed_lines clock.now kind before channel messages.entry)) }
    ensures failed { IfErr result IsOther }
{
    let mut number = before;
    let mut rest = messages;
    'lines: while let Some(seen) = rest.next() {
        number += 1;
        let time = clock.of_stamp(kind, kind.ticks(seen.stamp));
        text.put_message(number, channel, time, &seen)?;
        hand_on(text, out)?;
    }
    Ok(())
}

/// The lines of a packet and of its messages, with the times of day that these or a clock tell, where they are asked
/// for.
pub(crate) fn dump_packet<W: Write>(
    text: &mut Text,
    out: &mut W,
    packet: &Packet,
    clock: &Clock,
    timed: bool,
    messages: Messages<'_>,
) -> Result<(), StreamFault>
    requires { packet.now.before + length messages < 2 ^ 64 }
    ensures printed { OnOk result (Carries (W.contents out.old) text.old (W.contents out.new) text.new
        (packet_line packet.now.offset packet.now.header packet.now.count
        ++ timed_lines clock.now (kind_asked timed packet.now.header) packet.now.before packet.now.header.channel
        messages.entry)) }
    ensures failed { IfErr result IsOther }
{
    put_packet_line(text, packet)?;
    let (before, channel) = (packet.before, packet.header.channel);
    let kind = kind_for(timed, &packet.header);
    dump_messages(text, out, before, channel, kind, clock, messages)
}
