//! What the digits of a value say.
ghost use Rattle.signal_values.specs.Spelling.{AreSpelled};

/// Law: the digits behind the point of a value that is printed are what it has beside its whole number, exactly, and no
/// zero stands at their end.
pub fn parts_are_spelled()
    ensures { AreSpelled }
{}
