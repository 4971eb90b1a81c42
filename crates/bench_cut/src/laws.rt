//! Laws of the definitions of this crate, each the contract of a function that does nothing.
ghost use Rattle.bench_cut.specs.Laws.{CopyStays, CutIsRead, NumbersTellLoss};

/// The first packet of a channel that goes over keeps its number; each later one has that of the one before it and 1,
/// and besides the jumps of the recording between the two.
pub fn numbers_tell_loss()
    ensures { NumbersTellLoss }
{}

/// What was cut can be read, and of each channel it is read as what was chosen of it, in order.
pub fn cut_is_read()
    ensures { CutIsRead }
{}

/// Where nothing is asked of messages, and there is no index of a recording, what was cut is the recording itself.
pub fn copy_stays()
    ensures { CopyStays }
{}
