//! Which messages of a packet are chosen.
ghost use Rattle.bench_cut.specs.Chosen.{HasRoom, noted, noted_if, what_of};
ghost use Rattle.bench_cut.specs.Cut.{sizes_of};
ghost use Rattle.bench_cut.specs.Parts.{chosen_among};
ghost use Rattle.ch11_f1.specs.Views.{message_of};
ghost use Rattle.ch11_layout.specs.Stamps.{kind_of};
ghost use Rattle.std.specs.Prelude.{◌≡◌, ◌+◌, ◌<◌, ◌^◌, length, true};

use bench_select::Selection;
use ch11_f1::{Messages, RECORD_HEAD, Seen};
use ch11_layout::{StampKind, View};
use ch11_reader::Packet;

/// What is chosen of the messages of a packet.
#[derive(Clone, Copy, Debug)]
pub(crate) struct Chosen {
    /// How many messages.
    pub(crate) count: u64,
    /// How many bytes they take in a body.
    pub(crate) size: u64,
    /// The stamp of the first, 0 where there is none.
    pub(crate) first: u64,
}

impl Chosen {
    /// One more message.
    fn note(&mut self, seen: &Seen<'_>)
        requires { HasRoom self.old (message_of seen.now) }
        ensures { self.new ≡ noted self.old (message_of seen.now) }
    {
        if self.count == 0 {
            self.first = seen.stamp;
        }
        self.count += 1;
        self.size += (RECORD_HEAD + seen.words.len()) as u64;
    }

    /// One more message, where it is chosen.
    fn note_if(&mut self, chosen: bool, seen: &Seen<'_>)
        requires { chosen ≡ true → HasRoom self.old (message_of seen.now) }
        ensures { self.new ≡ noted_if chosen self.old (message_of seen.now) }
    {
        if chosen {
            self.note(seen);
        }
    }
}

/// What is chosen of the messages of a packet, numbered as in the file.
pub(crate) fn choose(selection: &Selection, packet: &Packet, messages: Messages<'_>) -> Chosen
    requires few { packet.now.before + length messages < 2 ^ 64 }
    requires small { sizes_of messages < 2 ^ 64 }
    ensures { result ≡ what_of (chosen_among selection.now (kind_of packet.now.header) packet.now.before
        packet.now.header.channel messages.entry) }
{
    let channel = packet.header.channel;
    let kind = StampKind::of(&packet.header);
    let mut chosen = Chosen {
        count: 0,
        size: 0,
        first: 0,
    };
    let mut number = packet.before;
    let mut rest = messages;
    'messages: while let Some(seen) = rest.next() {
        number += 1;
        let selected = selection.selects(number, channel, &View::of(kind, &seen));
        chosen.note_if(selected, &seen);
    }
    chosen
}
