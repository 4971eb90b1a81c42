//! Which fault of a run has its files end how.
ghost use Rattle.bench_requests.specs.Endings.{ending_of, ending_of_settings};
ghost use Rattle.std.specs.Prelude.{◌≡◌};

use crate::ending::Ending;
use bench_run::RunError;
use bench_settings::WorldError;

/// What becomes of the files where jobs or settings are refused.
pub fn ending_of_settings(error: &WorldError) -> Ending
    ensures { result ≡ ending_of_settings error.now }
{
    match error {
        WorldError::Settings | WorldError::ChannelTwice | WorldError::Prologue => Ending::Refused,
        WorldError::Memory => Ending::Broken,
    }
}

/// What becomes of the files of a run that ended so.
pub fn ending_of_run<S>(error: &RunError<S>) -> Ending
    ensures { result ≡ ending_of error.now }
{
    match error {
        RunError::Settings { .. } => Ending::Refused,
        RunError::ChannelTwice { .. } => Ending::Refused,
        RunError::Prologue { .. } => Ending::Refused,
        RunError::Memory { .. } => Ending::Broken,
        RunError::Sink { .. } => Ending::Broken,
    }
}
