//! Laws of the definitions of this crate, each the contract of a function that does nothing.
ghost use Rattle.ch11_stream.specs.Whole.{StepsReadTheFile};
ghost use Rattle.ch11_stream.specs.WholeStretches.{StretchesReadTheFile};

/// The packets that are read one after the other are those of the file, as an index lists them, up to its end; and the
/// fault at which they end is the file's first.
pub fn steps_read_the_file()
    ensures { StepsReadTheFile }
{}

/// The stretches that are read one after the other, up to the end, are those of the file: their packets are the ones
/// that are read of it as far as it is sound, as an index lists them, and their skips are its.
pub fn stretches_read_the_file()
    ensures { StretchesReadTheFile }
{}
