//! The chosen messages of a recording, in the order of their stamps.
ghost use Rattle.bench_decode.specs.ByTime.{AreByTime, AreChosen, chosen, told_of};
ghost use Rattle.bench_select.specs.Selecting.{selects};
ghost use Rattle.ch11_f1.specs.BodyReading.{Message};
ghost use Rattle.ch11_layout.specs.Stamps.{kind_of, recorded};
ghost use Rattle.ch11_f1.specs.Views.{message_of};
ghost use Rattle.bench_select.specs.Viewed.{viewed_in, Viewed};
ghost use Rattle.std.specs.Prelude.{◌≡◌, ◌+◌, ◌<◌, ◌^◌, ◌++◌, ◌∷◌, List, length, map, reverse, IfOk, OnOk};

use crate::messages::Place;
use crate::numbers::Numbers;
use bench_select::Selection;
use ch11_f1::{Messages, Seen};
use ch11_layout::{StampKind, View};
use ch11_reader::{Index, Packet};
use std::alloc::{AllocError, Global};

/// A chosen message of a recording.
#[derive(Clone, Copy, Debug)]
pub struct Chosen<'a> {
    /// Where it stands in the file.
    pub place: Place,
    /// What its stamp is.
    pub kind: StampKind,
    pub seen: Seen<'a>,
}

/// The chosen messages of a recording on the way through it, and how many there were of each channel.
#[derive(Drop)]
struct Choosing<'a> {
    found: Vec<Chosen<'a>>,
    numbers: Numbers,
}

/// The messages of a recording that a selection chooses, in the order of their stamps, all channels together; those of
/// one stamp are in the file's order. It copies no words. An error is want of memory.
pub fn messages_by_time<'a>(
    alloc: Global,
    index: &Index<'a>,
    selection: &Selection,
) -> Result<Vec<Chosen<'a>>, AllocError>
    ensures { IfOk result (λ found. AreByTime (chosen selection.now (reverse (viewed_in index.now))) found.items) }
{
    let mut found = chosen_messages(alloc, index, selection)?;
    found.sort_by_key(|one| one.seen.stamp)?;
    Ok(found)
}

/// The messages of a recording that a selection chooses, in the file's order.
fn chosen_messages<'a>(
    alloc: Global,
    index: &Index<'a>,
    selection: &Selection,
) -> Result<Vec<Chosen<'a>>, AllocError>
    ensures { IfOk result (λ found. map told_of found.items ≡ chosen selection.now (reverse (viewed_in index.now))) }
{
    let mut choosing = Choosing {
        found: Vec::new(alloc),
        numbers: Numbers::new(alloc)?,
    };
    let packets = index.packets();
    'packets: for place in 0..packets.len() {
        choosing.choose_all(selection, &packets[place], index.messages_in(place))?;
    }
    Ok(choosing.found)
}

/// Whether a message of this number and channel, whose stamp is of this kind, is chosen.
fn is_chosen(
    selection: &Selection,
    number: u64,
    channel: u16,
    kind: StampKind,
    seen: &Seen<'_>,
) -> bool
    ensures { result ≡ selects selection.now number channel (recorded kind (message_of seen.now)) }
{
    selection.selects(number, channel, &View::of(kind, seen))
}

impl<'a> Choosing<'a> {
    /// The next message of the file, which is of this number and channel, and whose stamp is of this kind.
    fn choose(
        &mut self,
        selection: &Selection,
        number: u64,
        channel: u16,
        kind: StampKind,
        seen: &Seen<'a>,
    ) -> Result<(), AllocError>
        ensures { (history : List Viewed) → AreChosen selection.now history self.old → number ≡ length history + 1
            → OnOk result (AreChosen selection.now
            ((channel, recorded kind (message_of seen.now)) ∷ history) self.new) }
    {
        let place = self.numbers.place(number, channel);
        if is_chosen(selection, number, channel, kind, seen) {
            self.found.push(Chosen {
                place,
                kind,
                seen: *seen,
            })?;
        }
        Ok(())
    }

    /// The messages of a packet.
    fn choose_all(
        &mut self,
        selection: &Selection,
        packet: &Packet,
        messages: Messages<'a>,
    ) -> Result<(), AllocError>
        requires { packet.now.before + length messages < 2 ^ 64 }
        ensures { (history : List Viewed) → AreChosen selection.now history self.old
            → packet.now.before ≡ length history → OnOk result (AreChosen selection.now
            (reverse (map (λ (m : Message). (packet.now.header.channel, recorded (kind_of packet.now.header) m))
            messages.entry)
            ++ history) self.new) }
    {
        let channel = packet.header.channel;
        let kind = StampKind::of(&packet.header);
        let mut number = packet.before;
        let mut rest = messages;
        'messages: while let Some(seen) = rest.next() {
            number += 1;
            self.choose(selection, number, channel, kind, &seen)?;
        }
        Ok(())
    }
}
