//! The kinds of words that stand in scripts, jobs, rules and dictionaries: which words are of a kind, and how that is
//! said.

use crate::slips::{
    LAST_TICK, Slip, choice_slip, datum_slip, decimal_slip, hexadecimal_slip, naming_slip,
    number_slip, receive_code_slip, step_slip, time_slip, value_slip, word_slip,
};
use signal_dictionary::{is_name, is_unit};

/// A kind of word.
#[derive(Clone, Copy, Debug, PartialEq, Eq)]
pub enum Kind {
    /// The line of a message, bus A or bus B.
    Line,
    /// The address of a terminal (MIL-STD-1553B 4.3.3.5.1.2).
    Address,
    /// A subaddress that is not one of mode commands (4.3.3.5.1.4).
    Subaddress,
    /// A count of data words (4.3.3.5.1.5).
    Count,
    /// A mode code (4.3.3.5.1.7).
    ModeCode,
    /// How many times a block runs.
    Turns,
    /// How many times a message is sent again.
    Retries,
    /// A gap before messages, in ticks.
    Gap,
    /// The period of a frame, in microseconds.
    Period,
    /// A data word.
    DataWord,
    /// The name of a status bit.
    StatusBit,
    /// The name that a definition gives.
    NewName,
    /// The name of a definition.
    Name,
    /// The number of a channel.
    Channel,
    /// The tick of the first message.
    StartTick,
    /// The number of a message in its channel.
    MessageNumber,
    /// How far the messages of a line are apart.
    Step,
    /// A run of a message.
    Run,
    /// A run that is a reply.
    ReplyRun,
    /// The place of a word in its run.
    Index,
    /// Half bits to be inverted.
    HalfBits,
    /// The sync of a word.
    Sync,
    /// The response time of a late reply, in ticks.
    LateTicks,
    /// The response time of an early reply, in ticks.
    EarlyTicks,
    /// The place of a word in its run, but the first.
    LaterIndex,
    /// The gap of a word behind a pause, in ticks.
    PauseTicks,
    /// How many words a sender babbles.
    BabbleCount,
    /// The response time of a terminal, in ticks.
    ResponseTicks,
    /// A subaddress that a host puts words up for.
    TransmitSubaddress,
    /// Whether something is on.
    Switch,
    /// Whether a service request is on, or is asked for once.
    ServiceSwitch,
    /// The gap that a host sets in front of replies, in ticks.
    SetGap,
    /// The place of a word among those that are put up.
    WordPlace,
    /// The direction of a command.
    Direction,
    /// A mode code with a data word that the controller sends (MIL-STD-1553B 4.3.3.5.1.7).
    ReceiveModeCode,
    /// The place of the one data word of a mode command.
    OnlyPlace,
    /// The tick until which a message is held back.
    HeldTick,
    /// The address of a terminal in a selector, or `*`.
    AnyAddress,
    /// A subaddress in a selector, or `*`.
    AnySubaddress,
    /// A mode code in a selector, or `*`.
    AnyModeCode,
    /// A status word, or a mask.
    StatusWord,
    /// A data word, perhaps with a mask, or `....`.
    Datum,
    /// The least or the greatest gap in front of a reply, in ticks.
    ReplyTicks,
    /// The least or the greatest time from one message to the next, in microseconds.
    Microseconds,
    /// The least or the greatest number of messages.
    MessageCount,
    /// A time with its unit.
    RuleTime,
    /// Which of the data words of a message.
    DataPlace,
    /// The least or the greatest value of a data word.
    WordValue,
    /// The name of a kind of messages that are counted.
    Counted,
    /// The value of a signal, a decimal or a label.
    ValueWord,
    /// The greatest value of a signal.
    ValueNumber,
    /// How far a value may be from the one before.
    StepMost,
    /// The name of a signal.
    SignalName,
    /// The place of the first of two data words.
    PairPlace,
    /// The place of a bit.
    BitPlace,
    /// A number and its label.
    Naming,
    /// A decimal that is not zero.
    ScaleNumber,
    /// A decimal.
    OffsetNumber,
    /// A unit.
    UnitName,
}

/// The names of the kinds of messages that are counted.
const COUNTED: [&str; 11] = [
    "ok",
    "fail",
    "clean",
    "silent",
    "message_error",
    "terminal_to_terminal",
    "format_error",
    "response_timeout",
    "word_count_error",
    "sync_type_error",
    "invalid_word_error",
];

impl Kind {
    /// What is wrong with a word in the place of one of this kind. Names are not judged.
    pub fn slip(self, word: &[u8]) -> Option<Slip> {
        match self {
            Kind::Line => word_slip(word, &["A", "B"]),
            Kind::Sync => word_slip(word, &["c", "d"]),
            Kind::Switch => word_slip(word, &["on", "off"]),
            Kind::ServiceSwitch => word_slip(word, &["on", "off", "once"]),
            Kind::Direction => word_slip(word, &["receive", "transmit"]),
            Kind::Counted => word_slip(word, &COUNTED),
            Kind::DataWord | Kind::StatusWord | Kind::WordValue => {
                hexadecimal_slip(word, 4, false)
            }
            Kind::RuleTime => time_slip(word),
            Kind::Datum => datum_slip(word),
            Kind::AnyAddress | Kind::AnySubaddress | Kind::AnyModeCode => {
                let (least, greatest) = self.range();
                choice_slip(word, least, greatest)
            }
            Kind::HalfBits => hexadecimal_slip(word, 10, true),
            Kind::StartTick | Kind::HeldTick => number_slip(word, 15, 0, LAST_TICK),
            Kind::ReceiveModeCode => receive_code_slip(word),
            Kind::StatusBit | Kind::NewName | Kind::Name => None,
            Kind::SignalName | Kind::UnitName | Kind::Naming => self.text_slip(word),
            Kind::ScaleNumber => decimal_slip(word, true),
            Kind::OffsetNumber | Kind::ValueNumber => decimal_slip(word, false),
            Kind::ValueWord => value_slip(word),
            Kind::StepMost => step_slip(word),
            _ => {
                let (least, greatest) = self.range();
                number_slip(word, 7, least, greatest)
            }
        }
    }

    /// That a word is no name, no unit, or no number with a label, where it is none.
    fn text_slip(self, word: &[u8]) -> Option<Slip> {
        let is_one = match self {
            Kind::SignalName => is_name(word),
            Kind::UnitName => is_unit(word),
            _ => return naming_slip(word),
        };
        if is_one { None } else { Some(Slip::Word) }
    }

    /// The range of a number of up to seven digits.
    fn range(self) -> (u64, u64) {
        match self {
            Kind::Address | Kind::AnyAddress => (0, 30),
            Kind::Subaddress | Kind::AnySubaddress => (1, 30),
            Kind::Count | Kind::WordPlace | Kind::DataPlace => (1, 32),
            Kind::ModeCode | Kind::AnyModeCode => (0, 31),
            Kind::Turns => (1, 10_000),
            Kind::Retries => (1, 8),
            Kind::Gap => (40, 65_535),
            Kind::Period => (100, 6_553_500),
            Kind::Channel => (1, 65_535),
            Kind::MessageNumber | Kind::Step => (1, 1_000_000),
            Kind::Run => (0, 2),
            Kind::ReplyRun => (1, 2),
            Kind::Index => (0, 39),
            Kind::LateTicks => (121, 255),
            Kind::EarlyTicks => (21, 39),
            Kind::LaterIndex => (1, 39),
            Kind::PauseTicks => (21, 255),
            Kind::BabbleCount => (1, 40),
            Kind::ResponseTicks => (40, 120),
            Kind::SetGap => (21, 255),
            Kind::TransmitSubaddress => (1, 29),
            Kind::ReplyTicks => (0, 255),
            Kind::PairPlace => (1, 31),
            Kind::BitPlace => (0, 15),
            Kind::OnlyPlace => (1, 1),
            _ => (0, 9_999_999),
        }
    }

    /// Which words are of this kind.
    pub fn allowed(self) -> &'static str {
        match self {
            Kind::Line => "a line is A or B, for bus A or bus B",
            Kind::Address => "terminal addresses are 0 to 30; brx sends to all",
            Kind::Subaddress =>
                "subaddresses are 1 to 30; 0 and 31 are those of mode commands, mode0 and mode",
            Kind::Count => "a message has 1 to 32 data words",
            Kind::ModeCode => "mode codes are 0 to 31",
            Kind::Turns => "a block is repeated 1 to 10000 times",
            Kind::Retries => "a message is sent again 1 to 8 times",
            Kind::Gap => "a gap is 40 to 65535 ticks of 0.1 us",
            Kind::Period => "a period is 100 to 6553500 us, in hundreds of them",
            Kind::DataWord => "a data word has exactly four hexadecimal digits, as 00FF",
            Kind::StatusBit => {
                "the bits are message_error, instrumentation, service_request, broadcast, busy, subsystem, control, \
                 terminal"
            }
            Kind::NewName => "a definition has a name of its own, as in define poll { .. }",
            Kind::Name => "a call names a frame that is defined above it, as in call poll",
            _ => self.allowed_in_jobs(),
        }
    }

    /// Which words are of a kind that stands in jobs alone.
    fn allowed_in_jobs(self) -> &'static str {
        match self {
            Kind::Channel => "channels are 1 to 65535",
            Kind::StartTick => "a start tick is 0 to 140737488355328, in ticks of 0.1 us",
            Kind::MessageNumber => "messages are numbered from 1 to 1000000",
            Kind::Step => "a step from one message to the next is 1 to 1000000",
            Kind::Run => "run 0 is what the controller sends, runs 1 and 2 are the replies",
            Kind::ReplyRun => "a reply is run 1 or run 2",
            Kind::Index => "the words of a run are 0 to 39",
            Kind::HalfBits =>
                "a mask has ten hexadecimal digits, not all zero; docs/jobs.md has them ready",
            Kind::Sync => "a word has command sync, c, or data sync, d",
            Kind::LateTicks => "a late reply comes 121 to 255 ticks of 0.1 us behind the message",
            Kind::EarlyTicks => "an early reply comes 21 to 39 ticks of 0.1 us behind the message",
            Kind::LaterIndex =>
                "a pause stands before the words 1 to 39 of a run, which count from 0",
            Kind::PauseTicks =>
                "a word behind a pause has a gap of 21 to 255 ticks of 0.1 us; without one it is 20",
            Kind::BabbleCount => "a sender babbles 1 to 40 words",
            Kind::ResponseTicks => "a response time is 40 to 120 ticks of 0.1 us",
            Kind::SetGap => "a gap that a host sets is 21 to 255 ticks of 0.1 us",
            Kind::WordPlace => "the words that are put up have places 1 to 32",
            Kind::TransmitSubaddress => "a host puts words up for subaddresses 1 to 29",
            Kind::Switch => "on or off stands here",
            Kind::ServiceSwitch => "on, off or once stands here",
            Kind::Direction => "receive or transmit stands here",
            Kind::ReceiveModeCode => {
                "mode codes with a data word of the controller are 17 and 20 to 31"
            }
            Kind::OnlyPlace => "a mode command has one data word, at place 1",
            Kind::HeldTick => {
                "a message is held back until a tick of 0 to 140737488355328, in ticks of 0.1 us"
            }
            _ => self.allowed_in_rules(),
        }
    }

    /// Which words are of a kind that stands in rules alone.
    fn allowed_in_rules(self) -> &'static str {
        match self {
            Kind::AnyAddress =>
                "terminal addresses are 0 to 30, or * for any; brx, brt and bmode are those to all",
            Kind::AnySubaddress =>
                "subaddresses are 1 to 30, or * for any; mode commands are those of mode and bmode",
            Kind::AnyModeCode => "mode codes are 0 to 31, or * for any",
            Kind::StatusWord =>
                "a status word or a mask has exactly four hexadecimal digits, as 2C00",
            Kind::Datum =>
                "a data word has four hexadecimal digits, as 00FF, perhaps with a mask, as 0F00/FF00, or is ....",
            Kind::ReplyTicks => "gaps in front of replies are 0 to 255 ticks of 0.1 us",
            Kind::Microseconds => "a period is 0 to 9999999 us",
            Kind::MessageCount => "messages are counted from 0 to 9999999",
            Kind::RuleTime => {
                "a time has its unit, s, ms or us, as 3.0s or 12.5us, down to 0.1 us and up to 2^47 ticks of 0.1 us"
            }
            Kind::DataPlace => "the data words of a message are 1 to 32",
            Kind::WordValue => "a value has exactly four hexadecimal digits, as 00FF",
            Kind::Counted => {
                "messages are counted of ok, fail, clean, silent, message_error, terminal_to_terminal, format_error, \
                 response_timeout, word_count_error, sync_type_error or invalid_word_error"
            }
            Kind::ValueWord | Kind::ValueNumber =>
                "a value is a decimal, as -40 or 0.5, of 1 to 18 digits",
            Kind::StepMost =>
                "a step is a decimal that is not below zero, as 0.5, of 1 to 18 digits",
            _ => self.allowed_in_dictionaries(),
        }
    }

    /// Which words are of a kind that stands in dictionaries alone.
    fn allowed_in_dictionaries(self) -> &'static str {
        match self {
            Kind::SignalName =>
                "a name is 1 to 32 letters, digits, _ and ., of which the first is a letter",
            Kind::PairPlace => "two data words are words 1 to words 31",
            Kind::BitPlace => "bits are 15, the first on the line, to 0, the last",
            Kind::Naming => {
                "a name of a number is NUMBER=LABEL, as 3=on: up to seven digits, and 1 to 16 letters, digits, _, . \
                 and -"
            }
            Kind::ScaleNumber =>
                "a scale is a decimal that is not zero, as 0.25, of 1 to 18 digits",
            Kind::OffsetNumber => "an offset is a decimal, as -40 or 0.5, of 1 to 18 digits",
            Kind::UnitName => "a unit is 1 to 16 printable characters but space, comma and quote",
            _ => "another word stands here",
        }
    }
}
