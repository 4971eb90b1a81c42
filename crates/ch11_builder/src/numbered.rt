//! What proofs know of a record in the open packet.
ghost use Rattle.std.specs.Prelude.{◌≡◌};

use ch11_f1::Record;
use std::marker::Model;
use std::snapshot::Snapshot;

/// A record and its number in its channel; of the record no byte is kept. It is made to be looked at and let go.
#[derive(Drop)]
pub struct NumberedRecord {
    number: u64,
    message: Snapshot<Record>,
}

impl Model for NumberedRecord {
    ghost use Rattle.ch11_builder.specs.Packet.{Numbered};

    ghost Value = { Numbered };

    ghost view = { λ n. record { number = n.number; message = n.message.value } };
}

impl NumberedRecord {
    /// The record with this number.
    pub(crate) fn of(number: u64, message: &Record) -> NumberedRecord
        ensures { result ≡ record { number = number; message = message.now } }
    {
        NumberedRecord {
            number,
            message: Snapshot::of(message),
        }
    }
}
