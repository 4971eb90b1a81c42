//! Messages that are kept.
ghost use Rattle.ch11_f1.specs.Views.{message_of};
ghost use Rattle.ch11_layout.specs.Stamps.{recorded};
ghost use Rattle.std.specs.Prelude.{◌≡◌, IfOk};

use ch11_f1::Seen;
use ch11_layout::{StampKind, View};
use std::alloc::{AllocError, Global};
use std::marker::Model;

/// A message as it is met in a packet.
#[derive(Clone, Copy, Debug)]
pub struct Met<'a> {
    /// Its number in the file, counted from 1.
    pub number: u64,
    /// What the stamps of its packet are.
    pub kind: StampKind,
    /// What its packet has of it.
    pub seen: Seen<'a>,
}

impl<'a> Met<'a> {
    /// The message, decoded.
    pub fn view(&self) -> View<'a>
        ensures { result ≡ recorded self.now.kind (message_of self.now.seen) }
    {
        View::of(self.kind, &self.seen)
    }
}

/// A message that is kept. Contracts see the message.
#[derive(Debug, Drop)]
pub struct Kept {
    number: u64,
    kind: StampKind,
    stamp: u64,
    block: u16,
    gaps: u16,
    words: Vec<u8>,
}

impl Model for Kept {
    ghost use Rattle.ch11_layout.specs.Stamps.{Recorded, recorded};

    ghost Value = { Recorded };

    ghost view = { λ k. recorded k.kind
        (record { stamp = k.stamp; block = k.block; gaps = k.gaps; bytes = k.words.items }) };
}

impl Kept {
    /// A message that was met; it fails for want of memory alone.
    pub fn of(alloc: Global, met: &Met<'_>) -> Result<Kept, AllocError>
        ensures { IfOk result (λ kept. kept ≡ recorded met.now.kind (message_of met.now.seen)) }
    {
        let words = met.seen.words.to_vec(alloc)?;
        Ok(Kept {
            number: met.number,
            kind: met.kind,
            stamp: met.seen.stamp,
            block: met.seen.block,
            gaps: met.seen.gaps,
            words,
        })
    }

    /// The message, decoded.
    pub fn view(&self) -> View<'_>
        ensures { result ≡ self.now }
    {
        let seen = Seen {
            stamp: self.stamp,
            block: self.block,
            gaps: self.gaps,
            words: self.words.as_slice(),
        };
        View::of(self.kind, &seen)
    }

    /// Its number in the file, counted from 1.
    pub fn number(&self) -> u64 {
        self.number
    }
}
