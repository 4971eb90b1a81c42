//! Exchanges on a bus of few and of 31 terminals, for `benches/exchange`. `lines ROUNDS EXCHANGES`: a line for each
//! kind of message and each number of terminals, with the kind, the number, the nanoseconds that the best of so many
//! rounds of so many exchanges took, without and with the records, and what they came to: the words, a sum over the
//! records, and the clock of the bus. KIND EXCHANGES: so many exchanges of a kind (0 to 3) on 31 terminals, each with
//! its record, for a count of instructions; what they came to: that sum and that clock.
use crate::watch::Watch;
use crate::words::{number, print_figures};
use mil_bus::{Bus, Talk, TalkCounts};
use mil_line::Gap;
use mil_message::{Draft, Message};
use mil_monitor::observe_with;
use mil_word::Line;
use std::io;

/// All addresses that a terminal can have.
const ALL: &[u8] = &[
    0, 1, 2, 3, 4, 5, 6, 7, 8, 9, 10, 11, 12, 13, 14, 15, 16, 17, 18, 19, 20, 21, 22, 23, 24, 25,
    26, 27, 28, 29, 30,
];

/// A word to terminal 5.
const WORD: &[u16] = &[0x0001];

/// Thirty-two words to terminal 5.
const WORDS: &[u16] = &[
    0x0000, 0x1234, 0xffff, 0x8001, 0xaaaa, 0x5555, 0x00ff, 0xff00, 0x0f0f, 0xf0f0, 0x0102, 0x0304,
    0x0506, 0x0708, 0x090a, 0x0b0c, 0x0d0e, 0x0f10, 0x1112, 0x1314, 0x1516, 0x1718, 0x191a, 0x1b1c,
    0x1d1e, 0x1f20, 0x2122, 0x2324, 0x2526, 0x2728, 0x292a, 0x2b2c,
];

/// The message of a kind: a receive command of one and of 32 words, a transmit command of 32, and a transfer of 32.
fn draft_of(kind: u64) -> Draft<'static> {
    match kind {
        0 => Draft::ToTerminal {
            address: 5,
            subaddress: 1,
            words: WORD,
        },
        1 => Draft::ToTerminal {
            address: 5,
            subaddress: 1,
            words: WORDS,
        },
        2 => Draft::FromTerminal {
            address: 5,
            subaddress: 1,
            count: 32,
        },
        _ => Draft::Between {
            sender: 7,
            sender_subaddress: 1,
            receiver: 5,
            receiver_subaddress: 2,
            count: 32,
        },
    }
}

/// What a kind is called.
fn name_of(kind: u64) -> &'static str {
    match kind {
        0 => "receive-1",
        1 => "receive-32",
        2 => "transmit-32",
        _ => "transfer-32",
    }
}

/// So many exchanges: what the words of their talks come to.
fn round(bus: &mut Bus, message: &Message, exchanges: u32) -> u64 {
    let mut sum = 0u64;
    for _ in 0..exchanges {
        if bus.now() < 1 << 60 {
            let talk = bus.exchange(Line::A, message, Gap::of(40), &[]);
            sum = sum.wrapping_add(talk.sent.len() as u64);
        }
    }
    sum
}

/// The same, with the record of each talk.
fn observed_round(bus: &mut Bus, message: &Message, exchanges: u32) -> u64 {
    let mut sum = 0u64;
    let mut talk = Talk::none();
    for _ in 0..exchanges {
        if bus.now() < 1 << 60 {
            let mut seen = TalkCounts::none();
            let verdict = bus.exchange_into(
                Line::A,
                message,
                Gap::of(40),
                &[],
                &mut talk,
                &mut seen,
            );
            let record = observe_with(&talk, &seen, verdict.block);
            sum = sum.wrapping_add(record.stamp);
            sum = sum.wrapping_add(u64::from(record.block));
            sum = sum.wrapping_add(u64::from(record.gaps));
            if let Some(last) = record.words.as_slice().last() {
                sum = sum.wrapping_add(u64::from(*last));
            }
        }
    }
    sum
}

/// The best of so many rounds of so many exchanges, without and with the records, and what they came to.
fn timed(watch: &Watch<'_>, bus: &mut Bus, message: &Message, times: (u32, u32)) -> [u64; 5] {
    let (mut plain, mut whole) = (u64::MAX, u64::MAX);
    let (mut words, mut sum) = (0u64, 0u64);
    for _ in 0..times.0 {
        let start = watch.nanos();
        words = round(bus, message, times.1);
        plain = plain.min(watch.since(start));
        let start = watch.nanos();
        sum = observed_round(bus, message, times.1);
        whole = whole.min(watch.since(start));
    }
    [plain, whole, words, sum, bus.clock()]
}

/// The same for a kind of message among these terminals; None where memory is refused.
fn among(watch: &Watch<'_>, kind: u64, addresses: &[u8], times: (u32, u32)) -> Option<[u64; 5]> {
    let message = Message::check(draft_of(kind)).ok()?;
    let mut bus = Bus::make(watch.rt.alloc(), 0, addresses).ok()?;
    Some(timed(watch, &mut bus, &message, times))
}

/// Prints the line of a kind of message among these terminals.
fn line(watch: &Watch<'_>, kind: u64, addresses: &[u8], times: (u32, u32)) -> io::Result<()> {
    let Some(figures) = among(watch, kind, addresses, times) else {
        return Ok(());
    };
    print!(watch.rt; "{} {} ", name_of(kind), addresses.len())?;
    print_figures(watch.rt, &figures)
}

/// Prints all lines.
fn lines(watch: &Watch<'_>, times: (u32, u32)) -> io::Result<()> {
    for kind in 0..4u64 {
        let few: &[u8] = if kind == 3 { &[5, 7] } else { &[5] };
        line(watch, kind, few, times)?;
        line(watch, kind, ALL, times)?;
    }
    Ok(())
}

/// So many exchanges of a kind on 31 terminals, with their records; None where memory is refused.
fn counted(watch: &Watch<'_>, kind: u64, exchanges: u32) -> Option<[u64; 2]> {
    let message = Message::check(draft_of(kind)).ok()?;
    let mut bus = Bus::make(watch.rt.alloc(), 0, ALL).ok()?;
    let sum = observed_round(&mut bus, &message, exchanges);
    Some([sum, bus.clock()])
}

/// The number below 2^32 that stands at a place; 0 where there is none.
fn times(words: &[&str], place: usize) -> u32 {
    match number(words, place) {
        Some(times) => u32::try_from(times).unwrap_or(0),
        None => 0,
    }
}

/// Prints what the words ask for.
pub(crate) fn tell(watch: &Watch<'_>, words: &[&str]) -> io::Result<()> {
    let Some(kind) = number(words, 0) else {
        return lines(watch, (times(words, 1), times(words, 2)));
    };
    match counted(watch, kind, times(words, 1)) {
        Some(figures) => print_figures(watch.rt, &figures),
        None => Ok(()),
    }
}
