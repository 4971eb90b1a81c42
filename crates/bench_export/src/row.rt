//! A row of fields on the way.
ghost use Rattle.csv.specs.Records.{fields_of};
ghost use Rattle.std.specs.Prelude.{◌≡◌, ◌∷◌, ◌++◌, [], OnOk};

use csv::ByteRecord;
use std::alloc::{AllocError, Global};
use std::marker::Model;

/// A row of fields; contracts see the fields.
#[derive(Drop)]
pub struct Row {
    record: ByteRecord,
}

impl Model for Row {
    ghost use Rattle.csv.specs.Records.{fields_of, partial_of};
    ghost use Rattle.std.specs.Prelude.{◌≡◌, ℕ, List, []};

    ghost Value = { List (List ℕ) };

    ghost view = { λ r. fields_of r.record };

    ghost invariant = { λ r. partial_of r.record ≡ [] };
}

impl Row {
    /// A row without fields.
    pub fn new(alloc: Global) -> Row
        ensures { result ≡ [] }
    {
        Row {
            record: ByteRecord::new(alloc),
        }
    }

    /// No fields again, which keeps the memory.
    pub fn clear(&mut self)
        ensures { self.new ≡ [] }
    {
        self.record.clear();
    }

    /// One more field. A row that memory was refused to has no fields.
    pub fn push(&mut self, field: &[u8]) -> Result<(), AllocError>
        ensures { OnOk result (self.new ≡ self.old ++ field.now ∷ []) }
    {
        match self.record.push_field(field) {
            Ok(()) => Ok(()),
            Err(error) => {
                self.record.clear();
                Err(error)
            }
        }
    }

    /// The fields, for a writer.
    pub(crate) fn record(&self) -> &ByteRecord
        ensures { fields_of result.now ≡ self.now }
    {
        &self.record
    }
}
