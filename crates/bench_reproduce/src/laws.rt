//! A law of the definitions of this crate, the contract of a function that does nothing.
ghost use Rattle.bench_reproduce.specs.Sameness.{AllAreSame};

/// As many messages of two readings of a channel are the same as there are exactly where the readings are the same,
/// message by message and to the tick.
pub fn all_are_same()
    ensures { AllAreSame }
{}
