//! What a rule asks of the messages of a recording (own choice).
ghost use Rattle.judge_rules.specs.Ranges.{AreInRange, AreInRange-prop};

use arrayvec::ArrayVec;
use mil_word::Line;

/// Which messages a rule is about, by their command words (MIL-STD-1553B 4.3.3.5.1). Addresses are 0 to 30,
/// subaddresses 1 to 30, mode codes 0 to 31; `None` stands for each number of its range.
#[derive(Clone, Copy, Debug, PartialEq, Eq)]
pub enum Selector {
    /// Every message.
    Any,
    /// One command to receive.
    Receive {
        address: Option<u8>,
        subaddress: Option<u8>,
    },
    /// One command to transmit.
    Transmit {
        address: Option<u8>,
        subaddress: Option<u8>,
    },
    /// A command to receive and one to transmit, which calls the sender.
    Between {
        sender: Option<u8>,
        sender_subaddress: Option<u8>,
        receiver: Option<u8>,
        receiver_subaddress: Option<u8>,
    },
    /// One mode command, of either direction.
    Mode {
        address: Option<u8>,
        code: Option<u8>,
    },
    /// One command to receive to all terminals.
    ReceiveAll {
        subaddress: Option<u8>,
    },
    /// A command to receive to all terminals and one to transmit, which calls the sender.
    BetweenAll {
        sender: Option<u8>,
        sender_subaddress: Option<u8>,
        receiver_subaddress: Option<u8>,
    },
    /// One mode command to all terminals, of either direction.
    ModeAll {
        code: Option<u8>,
    },
}

/// The value of a word in the bits of a mask.
#[derive(Clone, Copy, Debug, Default, PartialEq, Eq)]
pub struct Datum {
    pub value: u16,
    /// The bits that count: none with 0, all with FFFF (hexadecimal).
    pub mask: u16,
}

/// The least and the greatest number that is let pass; the least is at most the greatest.
#[derive(Clone, Copy, Debug, PartialEq, Eq)]
pub struct Bounds {
    pub low: u32,
    pub high: u32,
}

/// The values that a data word may have: from the least to the greatest, which is not below it.
#[derive(Clone, Copy, Debug, PartialEq, Eq)]
pub struct WordRange {
    /// Which of the data words it is, counted from 1: at most 32.
    pub place: u8,
    pub low: u16,
    pub high: u16,
}

/// Which of the messages that a rule selects are counted.
#[derive(Clone, Copy, Debug, PartialEq, Eq)]
pub enum Kind {
    /// Those without an error: block status bit 12 is clear.
    Sound,
    /// Those with an error.
    Failed,
    /// Those that are as the standard has them.
    Clean,
    /// Those with the response timeout bit (9) that no terminal replied to at all.
    Silent,
    /// Those with block status bit 12.
    MessageError,
    /// Those with block status bit 11.
    TerminalToTerminal,
    /// Those with block status bit 10.
    FormatError,
    /// Those with block status bit 9.
    ResponseTimeout,
    /// Those with block status bit 5.
    WordCountError,
    /// Those with block status bit 4.
    SyncTypeError,
    /// Those with block status bit 3.
    InvalidWordError,
}

/// When the messages that a rule is about began, in ticks of 0.1 µs: at the first of two times or later, and at the
/// last or earlier. Each is at most 2^47, and the first is not behind the last.
#[derive(Clone, Copy, Debug, PartialEq, Eq)]
pub struct Span {
    pub from: Option<u64>,
    pub to: Option<u64>,
}

/// What is asked of the messages that a rule selects.
#[derive(Debug, Drop, PartialEq, Eq)]
pub enum Check {
    /// Each has no error: block status bit 12 is clear.
    Sound,
    /// Each has an error.
    Failed,
    /// Each is as the standard has it.
    Clean,
    /// Each has a status word, and all of its status words have this value.
    Status(Datum),
    /// The data words of each are as many, and have these values; at most 32.
    Data(ArrayVec<Datum, 32>),
    /// Each has a reply, and the gap of each reply lies in the bounds: ticks of 0.1 µs, at most 255.
    Response(Bounds),
    /// The time from one to the next in a channel lies in the bounds: µs, at most 9,999,999.
    Period(Bounds),
    /// They are so many, at most 9,999,999.
    Count(Bounds),
    /// So many of them are of a kind, at most 9,999,999.
    CountOf { bounds: Bounds, kind: Kind },
    /// One of the data words of each has a value in the range.
    DataWord(WordRange),
    /// From one to the next in a channel one of the data words grows by a number in the range, modulo 65,536.
    DataStep(WordRange),
    /// No packet of messages in a channel has the overflow flag, and each sequence number follows that of the channel's
    /// packet before.
    Whole,
}

/// A rule. None is made whose numbers are out of their ranges.
#[derive(Debug, Drop, PartialEq, Eq)]
pub struct Rule {
    /// The line of the text that it stands in, counted from 1.
    pub line: u64,
    /// The channel that it is about, 1 to 65,535; `None` for all.
    pub channel: Option<u16>,
    /// The line of the bus that it is about; `None` for both.
    pub bus: Option<Line>,
    /// When the messages that it is about began.
    pub span: Span,
    pub selector: Selector,
    pub check: Check,
    /// The numbers of the channel, the times, the selector and the check are in their ranges.
    pub ghost in_range: { AreInRange channel span selector check } by { AreInRange-prop channel span selector check },
}
