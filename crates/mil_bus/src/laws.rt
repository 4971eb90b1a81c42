//! Laws of the definitions of this crate, each the contract of a function that does nothing.
ghost use Rattle.mil_bus.specs.Enough.{FortyRunsAreEnough};

/// Forty runs are enough for an exchange: where more were allowed, no further word would come on the line, and no
/// terminal would meet another event.
pub fn forty_runs_are_enough()
    ensures { FortyRunsAreEnough }
{}
