//! Laws of the definitions of this crate, each the contract of a function that does nothing.
ghost use Rattle.bench_compare.specs.Laws.{FirstDifference, NoDifference, NoneDiffers};

/// No difference of a channel is told exactly where both recordings have the same messages of it, one by one.
pub fn no_difference()
    ensures { NoDifference }
{}

/// A difference that is told is the first: all messages in front of it are the same, and these are not.
pub fn first_difference()
    ensures { FirstDifference }
{}

/// No channel of two recordings differs exactly where the readings of each are the same.
pub fn none_differs()
    ensures { NoneDiffers }
{}
