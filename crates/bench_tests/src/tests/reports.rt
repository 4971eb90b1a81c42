//! Texts of reports: what is expected stands in the format's own words.
ghost use Rattle.bc_machine.specs.declared.placed.HostAction.TheVariants.{Terminal};
ghost use Rattle.std.specs.Prelude.{◌≡◌};

use crate::tests::equal::{printed, reads, same_in};
use bc_machine::{Actions, HostAction, Placed};
use bench_report::{
    ChannelReport, Report, ReportError, ReportFault, print_report, read_report, write_report,
};
use mil_host::{Action, Mark};
use std::alloc::Global;
use std::process::Abort;

/// A channel of five messages, of which two were refused, and one of a single message, in two packets.
const TWO_CHANNELS: &str =
    "channel 1\nmade 5\nrefused 3\nrefused 4\nchannel 2\nmade 1\npackets 2\n";

/// Two placed actions of a channel at the ends of their ranges, and the largest number of packets.
const TWO_PLACED: &str =
    "channel 65535\nmade 0\nplaced 1 30 fault on\nplaced 1000000 0 illegal receive 3 4\npackets 9999999999\n";

fn report_of(rt: &impl Abort, alloc: Global, text: &str) -> Report {
    read_report(alloc, text.as_bytes()).ok().expect(rt, text)
}

/// A report is printed as this text.
fn is_printed(rt: &impl Abort, alloc: Global, report: &Report, wanted: &str) {
    let printed = print_report(alloc, report).expect(rt, wanted);
    reads(rt, wanted, printed.as_str(), wanted);
}

/// A report is written as this text.
fn is_written(rt: &impl Abort, alloc: Global, report: &Report, wanted: &str) {
    let mut written: Vec<u8> = Vec::new(alloc);
    write_report(&mut written, report).expect(rt, wanted);
    assert_eq!(rt; written.as_slice(), wanted.as_bytes());
}

/// The part of a report of a channel without placed actions.
fn is_part(rt: &impl Abort, part: &ChannelReport, channel: u16, made: u32, refused: &[u32]) {
    let found = (part.channel(), part.made(), part.placed().len());
    same_in(rt, "channel, made and placed", &found, &(channel, made, 0));
    assert_eq!(rt; part.refused(), refused);
}

#[test]
fn reads_and_prints_a_report(rt: HostRuntime) {
    is_the_first(&rt, rt.alloc(), &report_of(&rt, rt.alloc(), TWO_CHANNELS));
}

/// The report of two channels.
fn is_the_first(rt: &impl Abort, alloc: Global, report: &Report) {
    let channels = report.channels();
    same_in(rt, "packets", &report.packets(), &2);
    assert_eq!(rt; channels.len(), 2);
    is_part(rt, &channels[0], 1, 5, &[3, 4]);
    is_part(rt, &channels[1], 2, 1, &[]);
    is_printed(rt, alloc, report, TWO_CHANNELS);
    is_written(rt, alloc, report, TWO_CHANNELS);
}

/// An action of a terminal's host, just before a message.
fn placed_at(number: u32, address: u8, action: Action) -> Placed
    ensures { result ≡ record { number = number; action = Terminal address action } }
{
    Placed {
        number,
        action: HostAction::Terminal { address, action },
    }
}

/// The report with two placed actions.
fn report_with_placed(rt: &impl Abort, alloc: Global) -> Report {
    let mut placed = Actions::new(alloc);
    let first = placed_at(1, 30, Action::Fault(true));
    placed.push(first).expect(rt, "memory");
    let second = placed_at(1000000, 0, Action::Illegal(Mark::make(false, 3, 4)));
    placed.push(second).expect(rt, "memory");
    let mut channels = Vec::new(alloc);
    channels
        .push(ChannelReport::make(65535, 0, Vec::new(alloc), placed))
        .expect(rt, "memory");
    Report::make(channels, 9999999999)
}

/// The lists of a channel that refused nothing and has the two placed actions.
fn has_placed(rt: &impl Abort, channel: &ChannelReport) {
    same_in(rt, "channel", &channel.channel(), &65535);
    same_in(rt, "refused", &channel.refused().len(), &0);
    are_the_two(rt, channel.placed());
}

fn are_the_two(rt: &impl Abort, placed: &Actions) {
    assert_eq!(rt; placed.len(), 2);
    if placed.len() == 2 {
        let (first, second) = (placed.get(0), placed.get(1));
        same_in(rt, "the second", &second.number, &1000000);
        assert!(rt; matches!(&second.action, HostAction::Terminal { address: 0, .. }));
        assert!(rt;
            matches!(
                &first.action,
                HostAction::Terminal {
                    action: Action::Fault(true),
                    ..
                }
            )
        );
    }
}

#[test]
fn prints_placed_actions(rt: HostRuntime) {
    let report = report_with_placed(&rt, rt.alloc());
    is_printed(&rt, rt.alloc(), &report, TWO_PLACED);
}

#[test]
fn reads_placed_actions(rt: HostRuntime) {
    let read = report_of(&rt, rt.alloc(), TWO_PLACED);
    same_in(&rt, "packets", &read.packets(), &9999999999);
    let channels = read.channels();
    same_in(&rt, "channels", &channels.len(), &1);
    for channel in channels {
        has_placed(&rt, channel);
    }
}

#[test]
fn prints_want_of_memory(rt: HostRuntime) {
    let error = ReportError {
        fault: ReportFault::Memory,
        line: 7,
    };
    reads(
        &rt,
        "memory",
        &printed(&rt, rt.alloc(), &error),
        "X4 line 7",
    );
}
