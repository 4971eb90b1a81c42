//! Messages of which the time is known.
ghost use Rattle.std.specs.Prelude.{◌<◌, length, IfSome};

use bench_select::Selection;
use ch11_f1::Messages;
use ch11_layout::{StampKind, View};
use ch11_reader::Packet;

/// The selected ones of a packet's messages of which the time is known, one after the other.
#[derive(Drop)]
pub(crate) struct TimedMessages<'m> {
    selection: &'m Selection<'m>,
    channel: u16,
    kind: StampKind,
    number: u64,
    rest: Messages<'m>,
}

impl<'m> TimedMessages<'m> {
    /// Those among the messages of a packet.
    pub(crate) fn of(
        selection: &'m Selection<'m>,
        packet: &Packet,
        messages: Messages<'m>,
    ) -> TimedMessages<'m> {
        TimedMessages {
            selection,
            channel: packet.header.channel,
            kind: StampKind::of(&packet.header),
            number: packet.before,
            rest: messages,
        }
    }

    /// The next one, with its number in the file; None where there is no more.
    #[inline]
    pub(crate) fn next(&mut self) -> Option<(u64, View<'m>)>
        ensures { IfSome result (λ _. length self.new.rest < length self.old.rest) }
    {
        'messages: while let Some(seen) = self.rest.next() {
            self.number = self.number.saturating_add(1);
            let view = View::of(self.kind, &seen);
            if self.selection.selects(self.number, self.channel, &view) && view.has_time() {
                return Some((self.number, view));
            }
        }
        None
    }
}
