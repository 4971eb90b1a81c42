//! What is told of a channel beside its figures, packet by packet.
ghost use Rattle.bench_select.specs.declared.selection.Selection.{Selection as SelectionValue};
ghost use Rattle.bench_stat.specs.Told.{IsListedBehind, IsTold};
ghost use Rattle.bench_stat.specs.declared.shown.Shown.{Shown as ShownValue};
ghost use Rattle.ch11_reader.specs.Recording.{Found};
ghost use Rattle.std.specs.Prelude.{◌+◌, ◌<◌, ◌^◌, ◌++◌, ◌∷◌, [], ℕ, List, IfOk, length};

use crate::followed::Followed;
use crate::losses::Losses;
use crate::shown::Shown;
use crate::traffic::Traffic;
use bench_select::Selection;
use ch11_f1::Messages;
use ch11_layout::StampKind;
use ch11_reader::Packet;
use std::alloc::{AllocError, Global};

/// What is told of a channel beside its figures, as far as it is shown.
#[derive(Debug, Drop)]
pub struct Told {
    /// What its packets say of messages that are missing.
    pub losses: Losses,
    /// What is told of its messages.
    pub messages: Followed,
}

impl Told {
    /// What is told of a channel in front of its first packet, where it will carry this.
    pub(crate) fn none(alloc: Global, shown: &Shown, traffic: &Traffic) -> Result<Told, AllocError>
        ensures { (s : SelectionValue) (channel : ℕ) → IfOk result (IsTold shown.now s [] channel) }
    {
        let losses = Losses::none();
        let messages = Followed::none(alloc, shown, traffic)?;
        Ok(Told { losses, messages })
    }

    /// One more packet of the channel.
    pub(crate) fn note_packet(
        &mut self,
        selection: &Selection,
        packet: &Packet,
        messages: Messages<'_>,
    )
        requires { packet.now.before + length messages < 2 ^ 64 }
        ensures { (shown : ShownValue) (ps : List Found) (q : Found)
            → IsListedBehind ps q packet.now messages.entry
            → IsTold shown selection.now ps packet.now.header.channel self.old
            → IsTold shown selection.now (ps ++ q ∷ []) packet.now.header.channel self.new }
    {
        let channel = packet.header.channel;
        let kind = StampKind::of(&packet.header);
        self.losses.note(packet, channel);
        self.messages
            .count_selected(selection, kind, channel, packet.before, messages);
    }
}
