//! Laws of the definitions of this crate, each the contract of a function that does nothing.
ghost use Rattle.ch11_builder.specs.Recorded.{IsRecorded};
ghost use Rattle.ch11_recording.specs.Items.{numbered};
ghost use Rattle.ch11_recording.specs.Laws.{FileIsPackets, PacketsHaveBytes, AllPacketsAreWhole, PacketsGoOn};
ghost use Rattle.ch11_recording.specs.Laws.{RecordingIsRead, RecordsAreKept, EndedIsClosed, FileGoesOn, LatestIsLast};
ghost use Rattle.std.specs.Prelude.{ℕ, ◌<◌, ◌^◌};

use ch11_builder::{packet_is_read_again, run_gives_the_packets};
use ch11_f1::Record;
use ch11_reader::recordings_join;

/// A recording is read again as the records of its closed packets: for each channel in order and once. Where a channel
/// has ended, those are all of its records. Conditions: the prologue is a list of sound packets without one of
/// MIL-STD-1553 messages, the limit is 256 to 524,288, and stamps are below 2^48.
pub fn recording_is_read_again()
    ensures read { RecordingIsRead }
    ensures kept { RecordsAreKept }
    ensures ended { EndedIsClosed }
{
    packet_is_read_again();
    recordings_join();
}

/// What one more item adds to a recording: the packet that it closes.
pub fn recording_goes_on()
    ensures { FileGoesOn }
{}

/// A channel knows the number of its last record, whatever packets its records went into.
pub fn latest_is_last()
    ensures { LatestIsLast }
{
    run_gives_the_packets();
}

/// A recording is its prologue and then the packets that its items close, one behind the other, none of them empty.
pub fn file_is_packets()
    ensures file { FileIsPackets }
    ensures bytes { PacketsHaveBytes }
    ensures whole { AllPacketsAreWhole }
    ensures goes_on { PacketsGoOn }
{
    packet_is_read_again();
}

/// A record of a bus monitor goes into a packet under every number. Condition: its stamp is below 2^48.
pub fn record_fits(message: &Record)
    requires { message.now.stamp < 2 ^ 48 }
    ensures { (number : ℕ) → IsRecorded (numbered number message.now) }
{
    // (their ranges are known once they are read)
    let _block = message.block;
    let _gaps = message.gaps;
    let _words = message.words.as_slice();
}
