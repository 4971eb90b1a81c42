//! Laws of the definitions of this crate, each the contract of a function that does nothing.
ghost use Rattle.ch11_reader.specs.Joined.{RecordingsJoin, OthersAreSilent};
ghost use Rattle.ch11_reader.specs.Skipping.{ReadableIsWhole};

/// Two recordings one behind the other are one, and are read as both. Packets of other types of data have no messages.
pub fn recordings_join()
    ensures join { RecordingsJoin }
    ensures silent { OthersAreSilent }
{}

/// A recording without a fault is read alike by either reading: the one that stops at the first fault and the one that
/// skips.
pub fn nothing_sound_is_skipped()
    ensures { ReadableIsWhole }
{}
