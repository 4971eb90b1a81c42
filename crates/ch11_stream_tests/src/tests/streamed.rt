//! Figures of packets as they come from a reader, one byte a time, worked out by hand.

use crate::tests::equal::{are, same};
use crate::tests::streams::{Slow, reader_of};
use bench_select::Selection;
use bench_stat::{ChannelFigures, Errors, Stretches, TerminalFigures, Traffic, stat};
use ch11_header::HeaderError;
use ch11_layout::StampKind;
use ch11_reader::{PacketFault, Refusal};
use ch11_stream::StreamFault;
use std::alloc::Global;
use test_values::FOREIGN;

/// The foreign file twice. The first message had an error; the second has the same command, 1 ms later on line B.
pub(crate) fn pair() -> [u8; 192] {
    let mut file = [0u8; 192];
    file[..96].copy_from_slice(&FOREIGN);
    file[96..].copy_from_slice(&FOREIGN);
    file[81] = 0x10;
    file[168] = 0x10;
    file[169] = 0x27;
    file[177] = 0x20;
    file
}

/// The same without the sync pattern of its last packet.
pub(crate) fn damaged() -> [u8; 192] {
    let mut file = pair();
    file[128] = 0;
    file
}

/// The fault of the damaged file.
pub(crate) fn refusal() -> Refusal {
    Refusal {
        offset: 128,
        fault: PacketFault::Header(HeaderError::Sync),
    }
}

/// A reader that fails behind so many bytes.
pub(crate) fn failing(file: &[u8], end: usize) -> Slow<'_> {
    let (front, _) = file.split_at(end.min(file.len()));
    Slow {
        fails: true,
        ..reader_of(front, 1)
    }
}

/// Two messages of five words, with 8.0 µs in front of each response: 106.0 µs each. The second repeats the first,
/// which had an error of no named kind, on the other line.
pub(crate) fn pair_figures() -> ChannelFigures {
    let mut terminals = [TerminalFigures::none(); 32];
    terminals[5] = TerminalFigures {
        receive: 2,
        transmit: 0,
        mode: 0,
        errors: 1,
        responses: 2,
        total: 160,
        least: 80,
        greatest: 80,
    };
    ChannelFigures {
        channel: 1,
        traffic: Traffic {
            messages: 2,
            words: 10,
            busy: 2120,
            stamps: Some(StampKind::Counter),
            begin: 0,
            last: 10_000,
            end: 11_060,
            stretches: Stretches {
                falls: 0,
                past: 0,
                latest: 10_000,
                begin: 0,
                end: 11_060,
            },
        },
        errors: Errors {
            messages: 1,
            response: 0,
            word_count: 0,
            sync: 0,
            unsound: 0,
            other: 1,
        },
        retries: 1,
        terminals,
    }
}

/// The figures of a reader's file, or its fault.
pub(crate) fn counted(alloc: Global, input: Slow<'_>) -> Result<Vec<ChannelFigures>, StreamFault> {
    stat(alloc, input, &Selection::all())
}

#[test]
fn figures_come_from_packets(rt: HostRuntime) {
    let found = counted(rt.alloc(), reader_of(&pair(), 1));
    let figures = found.ok().expect(&rt, "figures");
    are(&rt, figures.as_slice(), &[pair_figures()]);
}

/// The pair, where the first message begins at 10,000 and the second at 0: two stretches of 1,060 ticks.
fn fallen() -> [u8; 192] {
    let mut file = pair();
    file[72] = 0x10;
    file[73] = 0x27;
    file[168] = 0;
    file[169] = 0;
    file
}

#[test]
fn spans_are_those_of_stretches(rt: HostRuntime) {
    let found = counted(rt.alloc(), reader_of(&fallen(), 1));
    let figures = found.ok().expect(&rt, "figures");
    let traffic = figures.first().expect(&rt, "a channel").traffic;
    let stretches = Stretches {
        falls: 1,
        past: 1_060,
        latest: 0,
        begin: 0,
        end: 1_060,
    };
    same(&rt, &traffic.stretches, &stretches);
    let wanted = (traffic.begin, traffic.last, traffic.end);
    same(&rt, &wanted, &(0, 10_000, 11_060));
}
