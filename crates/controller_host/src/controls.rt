//! What the host of a controller asks for.
ghost use Rattle.controller_host.specs.Ranges.{IsControl};
ghost use Rattle.std.specs.Prelude.{◌≡◌};

use crate::values::{Insertion, NewWords, Ramp};

/// What the host of the controller asks for, just before a message (own choice).
#[derive(Debug, Drop)]
pub enum Control {
    /// From now on messages of the script carry these words.
    Data(NewWords),
    /// From now on messages of the script carry a word that moves.
    Ramp(Ramp),
    /// A message besides those of the script.
    Insert(Insertion),
}

impl Control {
    /// The same.
    pub fn copy(&self) -> Control
        ensures { result ≡ self.now }
    {
        match self {
            Control::Data(words) => Control::Data(words.copy()),
            Control::Ramp(ramp) => Control::Ramp(*ramp),
            Control::Insert(insertion) => Control::Insert(insertion.copy()),
        }
    }

    /// Each value is in its range.
    pub fn keeps_ranges(&self)
        ensures { IsControl self.now }
    {
        match self {
            Control::Data(new) => new.keeps_ranges(),
            Control::Ramp(ramp) => ramp.keeps_ranges(),
            Control::Insert(insertion) => insertion.keeps_ranges(),
        }
    }
}
