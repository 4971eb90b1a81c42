//! Messages and packets that miss a rule, as people read them, with the names of their channels.

use crate::packets::misses_packet;
use crate::pass_fault::PassFault;
use crate::sought::Wanted;
use crate::tallies::Tally;
use crate::told::{put_packet, put_told};
use bench_decode::{Numbers, Place, TextLine, write_message};
use bench_names::ChannelNames;
use ch11_f1::Messages;
use ch11_layout::{StampKind, View};
use ch11_reader::Packet;
use ch11_stream::{Advance, Packets};
use std::io;
use std::io::Write;

/// What stands in front of what is told below a message.
const BELOW: &[u8] = b"      ";

/// Writes what was there of a message and what was expected, below the message.
fn show_told<W: Write>(
    wanted: Wanted<'_>,
    before: Option<u64>,
    view: &View<'_>,
    out: &mut W,
) -> Result<(), PassFault> {
    let mut text = Vec::new(wanted.alloc);
    text.extend_from_slice(BELOW)?;
    put_told(&mut text, &wanted.ruled.rule.check, before, view)?;
    text.extend_from_slice(b"\n")?;
    out.write_all(text.as_slice())?;
    Ok(())
}

/// A pass that writes the first messages that miss a rule, so many of which are still to come at most.
#[derive(Drop)]
struct Showing<'r> {
    wanted: Wanted<'r>,
    names: ChannelNames<'r>,
    tally: Tally,
    numbers: Numbers,
    left: usize,
    /// The channel of the message before, if one was written.
    channel: Option<u16>,
}

impl Showing<'_> {
    /// Writes the number of a channel and its name on a line, if it has one and the message before was of another. The
    /// text that waits is handed on first.
    fn name_channel<W: Write>(
        &mut self,
        line: &mut TextLine,
        channel: u16,
        out: &mut W,
    ) -> io::Result<()> {
        if self.channel != Some(channel) {
            self.channel = Some(channel);
            if let Some(name) = self.names.name(channel) {
                line.finish(out)?;
                writeln!(out, "      channel {channel} {name}")?;
            }
        }
        Ok(())
    }

    /// Writes a message if it is one of those.
    fn show_message<W: Write>(
        &mut self,
        line: &mut TextLine,
        place: &Place,
        view: &View<'_>,
        out: &mut W,
    ) -> Result<(), PassFault> {
        let mut known = None;
        let channel = place.channel;
        let before = self.tally.before(channel);
        let (rule, origins) = (self.wanted.ruled.rule, self.wanted.ruled.origins);
        let missed = self.tally.note(rule, origins, channel, view, &mut known)?;
        if missed && self.left > 0 {
            self.left -= 1;
            self.name_channel(line, channel, out)?;
            write_message(line, out, place, view)?;
            line.finish(out)?;
            show_told(self.wanted, before, view, out)?;
        }
        Ok(())
    }

    /// Writes those of a packet's messages.
    fn show_messages<W: Write>(
        &mut self,
        line: &mut TextLine,
        packet: &Packet,
        messages: Messages<'_>,
        out: &mut W,
    ) -> Result<(), PassFault> {
        let (channel, kind) = (packet.header.channel, StampKind::of(&packet.header));
        let mut number = packet.before;
        for seen in messages {
            number = number.saturating_add(1);
            let place = self.numbers.place(number, channel);
            self.show_message(line, &place, &View::of(kind, &seen), out)?;
        }
        Ok(())
    }
}

/// Writes the messages that are wanted, of the bytes that a reader has left, as their packets come, and reads no
/// further than these.
pub(crate) fn write_shown<R: Advance + Drop, W: Write>(
    line: &mut TextLine,
    input: R,
    wanted: Wanted<'_>,
    names: ChannelNames<'_>,
    out: &mut W,
) -> Result<(), PassFault> {
    let alloc = wanted.alloc;
    let mut packets = Packets::over(alloc, input)?;
    let mut showing = Showing {
        wanted,
        names,
        tally: Tally::new(alloc),
        numbers: Numbers::new(alloc)?,
        left: wanted.most,
        channel: None,
    };
    'packets: for _made in 0..u64::MAX {
        match packets.next() {
            Ok(Some(packet)) => showing.show_messages(line, &packet, packets.messages(), out)?,
            Ok(None) => break,
            Err(fault) => return Err(PassFault::Recording(fault)),
        }
        if showing.left == 0 {
            break;
        }
    }
    line.finish(out)?;
    Ok(())
}

/// Writes a packet, and why it misses the rule.
fn show_packet<W: Write>(
    wanted: Wanted<'_>,
    packet: &Packet,
    out: &mut W,
) -> Result<(), PassFault> {
    let mut text = Vec::new(wanted.alloc);
    put_packet(&mut text, b"      packet ", packet, wanted.ruled.skips)?;
    text.extend_from_slice(b"\n")?;
    out.write_all(text.as_slice())?;
    Ok(())
}

/// Writes the packets that are wanted, each on a line, in the same way.
pub(crate) fn write_shown_packets<R: Advance + Drop, W: Write>(
    input: R,
    wanted: Wanted<'_>,
    out: &mut W,
) -> Result<(), PassFault> {
    let mut packets = Packets::over(wanted.alloc, input)?;
    let mut left = wanted.most;
    'packets: for _made in 0..u64::MAX {
        match packets.next() {
            Ok(Some(packet)) => {
                if left > 0 && misses_packet(wanted.ruled.rule, &packet) {
                    left -= 1;
                    show_packet(wanted, &packet, out)?;
                }
            }
            Ok(None) => break,
            Err(fault) => return Err(PassFault::Recording(fault)),
        }
        if left == 0 {
            break;
        }
    }
    Ok(())
}
