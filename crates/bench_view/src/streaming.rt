//! The page of a recording whose packets come from a reader.
ghost use Rattle.bench_decode.specs.ByTime.{chosen};
ghost use Rattle.bench_select.specs.Viewed.{Viewed, viewed_behind, viewed_in};
ghost use Rattle.bench_view.specs.Filling.{AreFilled};
ghost use Rattle.bench_view.specs.Pages.{IsPage};
ghost use Rattle.ch11_layout.specs.Stamps.{kind_of};
ghost use Rattle.ch11_stream.specs.Folding.{FoldsPackets};
ghost use Rattle.std.specs.Prelude.{◌≡◌, ◌+◌, ◌<◌, ◌≤◌, ◌^◌, ℕ, List, Some, length, reverse, IfOk, OnOk};

use crate::filling::{Filling, put_end};
use crate::notes::Notes;
use crate::page::{Asked, Page, Template};
use bench_clock::Clock;
use bench_names::ChannelNames;
use ch11_f1::Messages;
use ch11_layout::{StampKind, View};
use ch11_reader::Packet;
use ch11_stream::{Advance, Packets, StreamFault};
use std::alloc::{AllocError, Global};

/// The page of the chosen messages of all bytes that a reader has left: a line for each, in the file's order, of the
/// first 200,000 and as far as these lines have at most 38,000,000 bytes; how many there are, and how many were
/// chosen; and notes, at most 1,000,000 bytes of them: the name of the recording, the signals, the names of channels,
/// and what the clock tells of the time of day. The recording is read once, as its packets come, in memory for the
/// largest packet of messages or of time, and for the page. One that can't be read is refused with its first fault, K1
/// to K5, N2 or F1 to F3; want of memory and the reader's failure are the others.
pub fn page_of<R: Advance + Drop>(
    alloc: Global,
    input: R,
    asked: &Asked<'_>,
    clock: &Clock,
    names: &ChannelNames<'_>,
    template: &Template,
) -> Result<Page, StreamFault>
    ensures page { (file : List ℕ) → R.remaining input ≡ Some file → FoldsPackets (λ ps page.
        IsPage template.now.front.items template.now.behind.items asked.now.signals.now
        (chosen asked.now.selection (reverse (viewed_in ps))) page.text.items) result file }
    ensures chosen { (file : List ℕ) → R.remaining input ≡ Some file → FoldsPackets (λ ps page.
        page.chosen ≡ length (chosen asked.now.selection (reverse (viewed_in ps)))) result file }
{
    let mut packets = Packets::over(alloc, input)?;
    let mut filling = Filling::begin(alloc, template.front.as_slice())?;
    let mut notes = Notes::new(alloc);
    'packets: for _made in 0..u64::MAX {
        match packets.next() {
            Ok(Some(packet)) => {
                fill(
                    &mut filling,
                    &mut notes,
                    asked,
                    clock,
                    &packet,
                    packets.messages(),
                )?
            }
            Ok(None) => {
                let behind = template.behind.as_slice();
                return Ok(end_page(alloc, filling, notes, asked, names, behind)?);
            }
            Err(fault) => return Err(fault),
        }
    }
    Err(StreamFault::Device)
}

/// Puts the lines of the chosen messages of a packet.
fn fill(
    filling: &mut Filling,
    notes: &mut Notes,
    asked: &Asked<'_>,
    clock: &Clock,
    packet: &Packet,
    messages: Messages<'_>,
) -> Result<(), AllocError>
    requires many { packet.now.before + length messages < 2 ^ 64 }
    requires few { filling.old.chosen ≤ packet.now.before }
    ensures filled { (front : List ℕ) (history : List Viewed)
        → AreFilled front asked.now.signals.now asked.now.selection history filling.old
        → packet.now.before ≡ length history
        → OnOk result (AreFilled front asked.now.signals.now asked.now.selection
        (viewed_behind (kind_of packet.now.header) packet.now.header.channel messages.entry history) filling.new) }
    ensures few { OnOk result (filling.new.chosen ≤ packet.now.before + length messages.entry) }
{
    let channel = packet.header.channel;
    let kind = StampKind::of(&packet.header);
    let mut number = packet.before;
    let mut rest = messages;
    'messages: while let Some(seen) = rest.next() {
        number += 1;
        let view = View::of(kind, &seen);
        filling.take(asked, number, channel, &view)?;
        notes.note(clock, &view)?;
    }
    Ok(())
}

/// The page with all its messages.
fn end_page(
    alloc: Global,
    filling: Filling,
    notes: Notes,
    asked: &Asked<'_>,
    names: &ChannelNames<'_>,
    behind: &[u8],
) -> Result<Page, AllocError>
    ensures page { (front : List ℕ) (history : List Viewed)
        → AreFilled front asked.now.signals.now asked.now.selection history filling
        → IfOk result (λ page. IsPage front behind.now asked.now.signals.now
        (chosen asked.now.selection history) page.text.items) }
    ensures chosen { IfOk result (λ page. page.chosen ≡ filling.chosen) }
{
    let counts = filling.numbers.counts.as_slice();
    let told = notes.end(alloc, asked.name, asked.signals, names, counts)?;
    let (chosen, shown) = (filling.chosen, filling.shown);
    let mut text = filling.text;
    put_end(&mut text, shown, chosen)?;
    text.extend_from_slice(told.as_slice())?;
    text.extend_from_slice(behind)?;
    Ok(Page {
        text,
        chosen,
        shown,
    })
}
