//! The report of a run.
ghost use Rattle.bench_report.specs.Reports.{IsPart, IsReport};
ghost use Rattle.std.specs.Prelude.{◌≡◌, ◌≤◌, All};

use crate::channels::ChannelReport;
use std::marker::Model;

/// The report of a run: its channels in the order of the jobs, and how many packets were written.
#[derive(Drop)]
pub struct Report {
    channels: Vec<ChannelReport>,
    packets: u64,
}

impl Model for Report {
    ghost use Rattle.bench_report.specs.Reports.{RunReport, IsReport};

    ghost Value = { RunReport };

    ghost view = { λ r. record { channels = r.channels.items; packets = r.packets } };

    ghost invariant = { λ r. IsReport (record { channels = r.channels.items; packets = r.packets }) };
}

impl Report {
    /// The report of these channels, and of packets of at most ten digits.
    pub fn make(channels: Vec<ChannelReport>, packets: u64) -> Report
        requires { packets ≤ 9999999999 }
        ensures { result ≡ record { channels = channels.items; packets = packets } }
    {
        keep_ranges(&channels);
        Report { channels, packets }
    }

    /// The channels, in the order of the jobs.
    pub fn channels(&self) -> &[ChannelReport]
        ensures value { result.now ≡ self.now.channels }
        ensures report { IsReport self.now }
    {
        &self.channels
    }

    /// How many packets were written, of at most ten digits.
    pub fn packets(&self) -> u64
        ensures value { result ≡ self.now.packets }
        ensures report { IsReport self.now }
    {
        self.packets
    }
}

/// Each channel keeps its ranges.
fn keep_ranges(channels: &[ChannelReport])
    ensures { All IsPart channels.now }
{
    for channel in channels {
        // A channel's number is in range by its type.
        let _number = channel.channel();
    }
}
