//! The messages of a recording, one after the other.
ghost use Rattle.bench_select.specs.Viewed.{viewed_in};
ghost use Rattle.std.specs.Iterator.{YieldsFirstBy, item_count};
ghost use Rattle.std.specs.Prelude.{◌≡◌, drop};

use ch11_f1::Messages;
use ch11_layout::{StampKind, View};
use ch11_reader::Index;
use std::marker::Model;

/// The messages of a recording that are still to come, each with its channel, in the file's order. It ends after the
/// last one.
#[derive(Drop)]
pub(crate) struct Following<'a, 'i> {
    index: &'i Index<'a>,
    packet: usize,
    channel: u16,
    kind: StampKind,
    current: Messages<'a>,
}

impl<'a, 'i> Model for Following<'a, 'i> {
    ghost use Rattle.ch11_f1.specs.BodyReading.{Message};
    ghost use Rattle.ch11_layout.specs.Stamps.{recorded};
    ghost use Rattle.bench_select.specs.Viewed.{Viewed, viewed_in};
    ghost use Rattle.std.specs.Prelude.{List, ◌++◌, drop, map};

    ghost Value = { List Viewed };

    ghost view = { λ f. map (λ (m : Message). (f.channel, recorded f.kind m)) f.current
        ++ viewed_in (drop f.packet f.index.now) };
}

impl<'a, 'i> Following<'a, 'i> {
    /// All messages.
    pub(crate) fn all(index: &'i Index<'a>) -> Following<'a, 'i>
        ensures { result ≡ viewed_in index.now }
    {
        Following {
            index,
            packet: 0,
            channel: 0,
            kind: StampKind::Counter,
            current: Messages::none(),
        }
    }
}

impl<'a, 'i> Iterator for Following<'a, 'i> {
    type Item = (u16, View<'a>);

    ghost next_gives = { YieldsFirstBy (λ x. (x.0, x.1)) (λ s. s) };

    ghost remaining = { item_count (λ s. s) };

    fn next(&mut self) -> Option<(u16, View<'a>)> {
        loop {
            if let Some(seen) = self.current.next() {
                return Some((self.channel, View::of(self.kind, &seen)));
            }
            let packets = self.index.packets();
            if self.packet >= packets.len() {
                return None;
            }
            let header = &packets[self.packet].header;
            self.channel = header.channel;
            self.kind = StampKind::of(header);
            self.current = self.index.messages_in(self.packet);
            self.packet += 1;
        }
    }
}
