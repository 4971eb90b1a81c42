//! Laws of the definitions of this crate, each the contract of a function that does nothing.
ghost use Rattle.bench_core.specs.Settled.{SettledAfterEachStep, ReadsBackAfterEachStep};

use ch11_recording::recording_is_read_again;

/// After each list of steps, of one or more channels with different numbers and a queue of any capacity: what was taken
/// and what is queued of a channel are the messages that it has made, in order and once, but for the refused; and so
/// are, read back, the file of what was taken, then the records of its open packet, then those of the queue.
/// Conditions: the prologue is a list of sound packets without one of MIL-STD-1553 messages, the limit is 256 to
/// 524,288, and the messages so far are those of a bus monitor, with stamps below 2^48.
pub fn bench_is_settled()
    ensures settled { SettledAfterEachStep }
    ensures read { ReadsBackAfterEachStep }
{
    recording_is_read_again();
}
