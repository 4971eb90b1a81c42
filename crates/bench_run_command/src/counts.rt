//! How much a recording holds.
ghost use Rattle.bench_run_command.specs.Counted.{kept_count, message_count, counts_line};
ghost use Rattle.std.specs.Io.KnownBytes.{Appends};
ghost use Rattle.std.specs.Prelude.{◌≡◌, ◌++◌, ◌∷◌, [], OnOk, Some};

use bench_report::{ChannelReport, Report};
use std::io::Write;
use std::{fmt, io};

/// How much a recording holds.
#[derive(Clone, Copy, Debug, PartialEq, Eq)]
pub struct Counts {
    /// How many packets were written behind the prologue.
    pub packets: u64,
    /// How many messages of all channels together are in them: those that were made, but for those that a full queue
    /// refused. At most 2^64 - 1; a run makes 32,000,000 at most.
    pub messages: u64,
}

impl Counts {
    /// The counts of the recording that a report tells of.
    pub fn of_report(report: &Report) -> Counts
        ensures packets { result.packets ≡ report.now.packets }
        ensures messages { result.messages ≡ message_count report.now.channels }
    {
        let mut messages: u64 = 0;
        for channel in report.channels() {
            messages = messages.saturating_add(kept_count(channel));
        }
        Counts {
            packets: report.packets(),
            messages,
        }
    }
}

/// How many messages of a channel are in the recording.
fn kept_count(channel: &ChannelReport) -> u64
    ensures { result ≡ kept_count channel.now }
{
    u64::from(channel.made()).saturating_sub(channel.refused().len() as u64)
}

/// `packets 2 messages 20`
impl fmt::Display for Counts {
    ghost output = { λ c. Some (counts_line c.packets c.messages) };

    fn fmt<W: fmt::Write>(&self, f: &mut fmt::Formatter<W>) -> fmt::Result {
        write!(f, "packets {} messages {}", self.packets, self.messages)
    }
}

/// Writes the counts as a line. A fault is the writer's.
pub fn print_counts<W: Write>(out: &mut W, counts: &Counts) -> io::Result<()>
    ensures written { OnOk result (Appends (W.contents out.old) (W.contents out.new)
        (counts_line counts.now.packets counts.now.messages ++ 10 ∷ [])) }
{
    writeln!(out, "{counts}")
}
