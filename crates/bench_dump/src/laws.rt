//! Laws of the definitions of this crate, each the contract of a function that does nothing.
ghost use Rattle.bench_dump.specs.TimedText.{TimelessIsPlain};

/// Without a time packet that counts, the dump with times of day is the dump.
pub fn timeless_is_plain()
    ensures { TimelessIsPlain }
{}
