//! The messages of one channel.
ghost use Rattle.ch11_f1.specs.Views.{message_of};
ghost use Rattle.ch11_reader.specs.Contents.{reading};
ghost use Rattle.ch11_reader.specs.Indexed.{AreWithin, found_of};
ghost use Rattle.std.specs.Iterator.{YieldsFirstBy, item_count};
ghost use Rattle.std.specs.Prelude.{◌≡◌, map};

use crate::packet::{Packet, messages_in_packet};
use ch11_f1::{Messages, Seen};
use std::marker::Model;

/// The messages of a channel that are still to come, in the file's order. It ends after the last one.
#[derive(Drop)]
pub struct ChannelMessages<'a, 'i> {
    file: &'a [u8],
    rest: &'i [Packet],
    current: Messages<'a>,
    channel: u16,
}

impl<'a, 'i> Model for ChannelMessages<'a, 'i> {
    ghost use Rattle.ch11_f1.specs.BodyReading.{Message};
    ghost use Rattle.ch11_reader.specs.Contents.{reading};
    ghost use Rattle.ch11_reader.specs.Indexed.{AreWithin, found_of};
    ghost use Rattle.std.specs.Prelude.{List, ◌++◌, map};

    ghost Value = { List Message };

    ghost view = { λ m. m.current ++ reading (map (found_of m.file.now) m.rest.now) m.channel };

    ghost invariant = { λ m. AreWithin m.file.now m.rest.now };
}

impl<'a, 'i> ChannelMessages<'a, 'i> {
    /// The messages of a channel in these packets of a file, in their order.
    pub(crate) fn over(
        file: &'a [u8],
        packets: &'i [Packet],
        channel: u16,
    ) -> ChannelMessages<'a, 'i>
        requires { AreWithin file.now packets.now }
        ensures { result ≡ reading (map (found_of file.now) packets.now) channel }
    {
        ChannelMessages {
            file,
            rest: packets,
            current: Messages::none(),
            channel,
        }
    }
}

impl<'a, 'i> Iterator for ChannelMessages<'a, 'i> {
    type Item = Seen<'a>;

    ghost next_gives = { YieldsFirstBy message_of (λ s. s) };

    ghost remaining = { item_count (λ s. s) };

    fn next(&mut self) -> Option<Seen<'a>> {
        loop {
            if let Some(seen) = self.current.next() {
                return Some(seen);
            }
            let (first, others) = self.rest.split_first()?;
            self.current = if first.header.channel == self.channel {
                messages_in_packet(self.file, first)
            } else {
                Messages::none()
            };
            self.rest = others;
        }
    }
}
