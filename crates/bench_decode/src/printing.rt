//! The messages of a recording, one after the other, on their way to a writer.
ghost use Rattle.bench_decode.specs.Printed.{HavePrinted, IsBehind};
ghost use Rattle.bench_decode.specs.RecordingText.{dumped, line_of, names_behind};
ghost use Rattle.bench_decode.specs.Waiting.{IsPut, no_lines};
ghost use Rattle.bench_dump.specs.DumpText.{message_line};
ghost use Rattle.bench_dump.specs.SkippingText.{skip_line};
ghost use Rattle.bench_select.specs.Selecting.{IsCountedFrom, is_all, selects};
ghost use Rattle.bench_select.specs.Viewed.{Viewed};
ghost use Rattle.ch11_f1.specs.BodyReading.{Message};
ghost use Rattle.ch11_layout.specs.Stamps.{kind_of, recorded};
ghost use Rattle.ch11_stream.specs.Feeding.{IsOther};
ghost use Rattle.std.specs.Prelude.{◌≡◌, ◌+◌, ◌<◌, ◌^◌, ◌==◌, ◌&&◌, ◌++◌, ◌∷◌, [], List, length, map};
ghost use Rattle.std.specs.Prelude.{IfErr, IfOk, OnOk};

use crate::line::{Shown, TextLine};
use crate::messages::{Place, write_columns, write_message_with};
use crate::numbers::Numbers;
use bench_select::Selection;
use ch11_f1::Messages;
use ch11_layout::{StampKind, View};
use ch11_reader::{Packet, Skip};
use ch11_stream::StreamFault;
use signal_dictionary::Signal;
use std::alloc::{AllocError, Global};
use std::io;
use std::io::Write;

/// How a recording is printed.
#[derive(Clone, Copy, Debug)]
pub struct Output<'o> {
    /// Which messages.
    pub selection: Selection<'o>,
    /// As people read them, or else as in a dump.
    pub decoded: bool,
    /// Plain or coloured.
    pub shown: Shown,
    /// Whether a damaged recording is printed as far as it is sound, with what was skipped.
    pub skip: bool,
    /// The signals whose values stand behind the data words of decoded messages.
    pub signals: &'o [Signal],
}

impl<'o> Output<'o> {
    /// The same, where times count from these times of day, one for each channel.
    pub fn counting_from(&self, origins: &'o [Option<u64>]) -> Output<'o>
        ensures selection { IsCountedFrom origins.now self.now.selection result.selection }
        ensures shown { (result.decoded ≡ self.now.decoded) × (result.shown ≡ self.now.shown) }
        ensures others { (result.skip ≡ self.now.skip) × (result.signals ≡ self.now.signals) }
    {
        Output {
            selection: self.selection.counting_from(origins),
            decoded: self.decoded,
            shown: self.shown,
            skip: self.skip,
            signals: self.signals,
        }
    }
}

/// What a recording is printed with, on the way.
#[derive(Drop)]
pub(crate) struct Printing {
    pub(crate) line: TextLine,
    numbers: Numbers,
    pub(crate) count: u64,
    value: Vec<u8>,
}

impl Printing {
    /// Nothing was printed yet.
    pub(crate) fn begin(alloc: Global, output: &Output) -> Result<Printing, AllocError>
        ensures behind { IfOk result (IsBehind output.now []) }
        ensures line { IfOk result (λ printing. printing.line ≡ no_lines output.now.shown) }
    {
        Ok(Printing {
            line: TextLine::new(alloc, output.shown)?,
            numbers: Numbers::new(alloc)?,
            count: 0,
            value: Vec::new(alloc),
        })
    }
}

/// Prints a skip.
pub(crate) fn put_skip<W: Write>(
    alloc: Global,
    line: &mut TextLine,
    out: &mut W,
    skip: &Skip,
) -> Result<(), StreamFault>
    ensures put { OnOk result (IsPut (W.contents out.old) line.old (W.contents out.new) line.new (skip_line skip.now)) }
    ensures failed { IfErr result IsOther }
{
    let fault = skip.fault.to_string(alloc)?;
    line.hand_on(out)?;
    line.put_labelled(b"skipped ", skip.offset as u64);
    line.put_labelled(b" length ", skip.length as u64);
    line.put(b" ");
    line.put_text(out, fault.as_bytes())?;
    line.end_line();
    Ok(())
}

/// Prints the selected ones of a packet's messages.
pub(crate) fn put_messages<W: Write>(
    printing: &mut Printing,
    out: &mut W,
    output: &Output,
    packet: &Packet,
    messages: Messages<'_>,
) -> io::Result<()>
    requires { packet.now.before + length messages < 2 ^ 64 }
    ensures { (history : List Viewed) → IsBehind output.now history printing.old
        → packet.now.before ≡ length history → OnOk result (HavePrinted output.now history
        (map (λ (m : Message). (packet.now.header.channel, recorded (kind_of packet.now.header) m)) messages.entry)
        (W.contents out.old) printing.old (W.contents out.new) printing.new) }
{
    let all = output.selection.is_all();
    let channel = packet.header.channel;
    let kind = StampKind::of(&packet.header);
    let mut number = packet.before;
    let mut rest = messages;
    'messages: while let Some(seen) = rest.next() {
        number += 1;
        put_selected(
            printing,
            out,
            output,
            all,
            number,
            channel,
            &View::of(kind, &seen),
        )?;
    }
    Ok(())
}

/// Prints the message of a number and a channel, if it is selected; all are, where that is known.
#[inline(always)]
fn put_selected<W: Write>(
    printing: &mut Printing,
    out: &mut W,
    output: &Output,
    all: bool,
    number: u64,
    channel: u16,
    view: &View<'_>,
) -> io::Result<()>
    requires { all ≡ is_all output.now.selection }
    ensures { (history : List Viewed) → IsBehind output.now history printing.old → number ≡ length history + 1
        → OnOk result (HavePrinted output.now history ((channel, view.now) ∷ [])
        (W.contents out.old) printing.old (W.contents out.new) printing.new) }
{
    let place = printing.numbers.place(number, channel);
    let chosen = is_selected(output, all, number, channel, view);
    if chosen {
        put_message(printing, out, output, &place, view)
    } else {
        Ok(())
    }
}

/// Whether the message of a number and a channel is selected; all are, where that is known.
#[inline(always)]
fn is_selected(output: &Output, all: bool, number: u64, channel: u16, view: &View<'_>) -> bool
    requires { all ≡ is_all output.now.selection }
    ensures { result ≡ selects output.now.selection number channel view.now }
{
    if all {
        true
    } else {
        output.selection.selects(number, channel, view)
    }
}

/// Prints a message, and in front of the first one the names of the columns, where it is decoded.
pub(crate) fn put_message<W: Write>(
    printing: &mut Printing,
    out: &mut W,
    output: &Output,
    place: &Place,
    view: &View<'_>,
) -> io::Result<()>
    ensures put { printing.old.line.shown ≡ output.now.shown
        → OnOk result (IsPut (W.contents out.old) printing.old.line (W.contents out.new) printing.new.line
        (names_behind output.now printing.old.count ++ line_of output.now place.now view.now)) }
    ensures count { OnOk result (printing.old.count + 1 < 2 ^ 64 → printing.new.count ≡ printing.old.count + 1) }
    ensures numbers { printing.new.numbers ≡ printing.old.numbers }
{
    put_heading(&mut printing.line, out, output, printing.count)?;
    printing.count = printing.count.saturating_add(1);
    let (line, value) = (&mut printing.line, &mut printing.value);
    put_line(line, out, output, place, view, value)
}

/// Prints the names of the columns where a decoded message is the first one.
#[inline(always)]
fn put_heading<W: Write>(
    line: &mut TextLine,
    out: &mut W,
    output: &Output,
    count: u64,
) -> io::Result<()>
    ensures { line.old.shown ≡ output.now.shown
        → OnOk result (IsPut (W.contents out.old) line.old (W.contents out.new) line.new
        (names_behind output.now count)) }
{
    if is_first(output, count) {
        write_columns(line, out)
    } else {
        Ok(())
    }
}

/// Whether a message behind so many others is the first one that is decoded.
#[inline(always)]
fn is_first(output: &Output, count: u64) -> bool
    ensures { result ≡ (output.now.decoded && count == 0) }
{
    output.decoded && count == 0
}

/// Prints the line of a message. The text is room for a value.
#[inline(always)]
fn put_line<W: Write>(
    line: &mut TextLine,
    out: &mut W,
    output: &Output,
    place: &Place,
    view: &View<'_>,
    value: &mut Vec<u8>,
) -> io::Result<()>
    ensures { line.old.shown ≡ output.now.shown
        → OnOk result (IsPut (W.contents out.old) line.old (W.contents out.new) line.new
        (line_of output.now place.now view.now)) }
{
    if output.decoded {
        write_message_with(line, out, place, view, output.signals, value)
    } else {
        put_as_dump(line, out, place, view)
    }
}

/// Prints a message as a dump has it.
fn put_as_dump<W: Write>(
    line: &mut TextLine,
    out: &mut W,
    place: &Place,
    view: &View<'_>,
) -> io::Result<()>
    ensures { OnOk result (IsPut (W.contents out.old) line.old (W.contents out.new) line.new
        (message_line place.now.number place.now.channel (dumped view.now))) }
{
    line.hand_on(out)?;
    line.put_labelled(b"message ", place.number);
    line.put_labelled(b" channel ", u64::from(place.channel));
    line.put_labelled(b" stamp ", view.number());
    line.put(b" block");
    line.put_word(view.block());
    line.put(b" gaps");
    line.put_word(view.gaps());
    line.put(b" words");
    line.put_words(out, view.bytes())?;
    line.end_line();
    Ok(())
}
