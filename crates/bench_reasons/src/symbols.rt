//! What may stand next in a script, in a line of a job, of rules or of a dictionary, or in the text of a message, as
//! symbols of one grammar.

use crate::control_symbols::{behind_control_word, behind_data_word, behind_ramp_word};
use crate::kinds::Kind;
use crate::kinds::Kind::{
    Address, BabbleCount, Channel, Count, DataWord, Direction, EarlyTicks, Gap, HalfBits, HeldTick,
    Index, LateTicks, LaterIndex, Line, MessageNumber, ModeCode, Name, NewName, PauseTicks, Period,
    ReplyRun, ResponseTicks, Retries, Run, ServiceSwitch, SetGap, StartTick, StatusBit, Step,
    Subaddress, Switch, Sync, TransmitSubaddress, Turns, WordPlace,
};
use crate::rule_symbols::{allowed_in_rules, behind_in_rules};
use crate::signal_symbols::{allowed_in_dictionaries, behind_in_dictionaries};
use Symbol::{
    Action, Block, Condition, Control, Else, Host, Marked, Message, One, OptionalWords,
    PlannedFault, Rest, Token, Words,
};

/// What may stand next.
#[derive(Clone, Copy, Debug, PartialEq, Eq)]
pub enum Symbol {
    /// Definitions, and the frames behind them.
    Script,
    /// Frames up to the end of the text.
    Frames,
    /// Frames up to the closing brace.
    Block,
    /// `else` and its block, or nothing.
    Else,
    /// A message, from its first word on.
    Message,
    /// A condition.
    Condition,
    /// Data words up to the closing bracket.
    Words,
    /// Data words in brackets, or nothing.
    OptionalWords,
    /// The token itself.
    Token(&'static str),
    /// A word of a kind.
    One(Kind),
    /// More words of a kind up to the end of a line, or nothing.
    Rest(Kind),
    /// A line of a job.
    Entry,
    /// A planned fault, from its name on.
    PlannedFault,
    /// Who is asked by a line: a terminal's host, by its address, or the controller's.
    Host,
    /// An action of a terminal's host.
    Action,
    /// What the controller's host asks for.
    Control,
    /// The command of the messages that data words of the controller go into, and the words.
    DataTo,
    /// The command of the messages that have a moving word of the controller, and how it moves.
    RampTo,
    /// The tick until which a message is held back, or nothing.
    HeldBack,
    /// The commands that a host marks as illegal, or as legal again.
    Marked,
    /// A line of rules.
    Rule,
    /// The channel of a rule, or nothing.
    RuleChannel,
    /// The line of the bus of a rule, or nothing.
    RuleLine,
    /// The first time of a rule, or nothing.
    RuleFrom,
    /// The last time of a rule, or nothing.
    RuleTo,
    /// Which messages a rule is about.
    Selector,
    /// What a rule asks of them.
    Check,
    /// The mask of a status word, or nothing.
    Mask,
    /// That it is asked by how much a data word grows, or nothing.
    Growth,
    /// Which messages are counted, or nothing.
    OfKind,
    /// A line of rules about a signal.
    SignalRule,
    /// What a rule asks of a signal.
    SignalCheck,
    /// The greatest value, or nothing.
    ValueHigh,
    /// A line of a dictionary of signals.
    Signal,
    /// Where a signal stands.
    SignalPlace,
    /// The bits of a word, or nothing.
    SignalBits,
    /// What the bits of a signal spell.
    SignalKind,
    /// More numbers with their names, or nothing.
    Namings,
    /// A scale, or nothing.
    SignalScale,
    /// An offset, or nothing.
    SignalOffset,
    /// A unit, or nothing.
    SignalUnit,
}

/// What follows the first word of a frame; none where no frame begins so.
fn behind_frame_word(word: &str) -> Option<&'static [Symbol]> {
    match word {
        "send" => Some(&[One(Line), Message]),
        "retry" => Some(&[One(Retries), Token("send"), One(Line), Message]),
        "gap" => Some(&[One(Gap)]),
        "repeat" => Some(&[One(Turns), Token("{"), Block]),
        "if" => Some(&[Condition, Token("{"), Block, Else]),
        "until" => Some(&[
            Condition,
            Token("at"),
            Token("most"),
            One(Turns),
            Token("{"),
            Block,
        ]),
        "call" => Some(&[One(Name)]),
        "frame" => Some(&[One(Period), Token("{"), Block]),
        _ => None,
    }
}

/// What follows the first word of a message; none where no message begins so.
pub fn behind_message_word(word: &str) -> Option<&'static [Symbol]> {
    match word {
        "rx" => Some(&[One(Address), One(Subaddress), Token("["), Words]),
        "tx" => Some(&[One(Address), One(Subaddress), One(Count)]),
        "rt" => Some(&[
            One(Address),
            One(Subaddress),
            One(Address),
            One(Subaddress),
            One(Count),
        ]),
        "mode" | "mode0" => Some(&[One(Address), One(ModeCode), OptionalWords]),
        "brx" => Some(&[One(Subaddress), Token("["), Words]),
        "brt" => Some(&[One(Address), One(Subaddress), One(Subaddress), One(Count)]),
        "bmode" | "bmode0" => Some(&[One(ModeCode), OptionalWords]),
        _ => None,
    }
}

/// What follows the first word of a condition.
fn behind_condition_word(word: &str) -> Option<&'static [Symbol]> {
    match word {
        "fail" | "silent" => Some(&[]),
        "bit" => Some(&[One(StatusBit)]),
        "not" => Some(&[Condition]),
        "all" | "any" => Some(&[Token("("), Condition, Condition, Token(")")]),
        _ => None,
    }
}

/// What follows the first word of a line of a job.
fn behind_entry_word(word: &str) -> Option<&'static [Symbol]> {
    match word {
        "channel" => Some(&[One(Channel)]),
        "start" => Some(&[One(StartTick)]),
        "terminal" => Some(&[One(Address)]),
        "at" => Some(&[One(MessageNumber), Host]),
        "fault" => Some(&[One(MessageNumber), PlannedFault]),
        // the first message, the last, and how far they are apart
        "faults" => Some(&[
            One(MessageNumber),
            One(MessageNumber),
            One(Step),
            PlannedFault,
        ]),
        "series" => Some(&[
            One(MessageNumber),
            One(MessageNumber),
            One(Step),
            One(Address),
            One(TransmitSubaddress),
            One(DataWord),
            One(DataWord),
        ]),
        "script" => Some(&[]),
        _ => None,
    }
}

/// What follows the name of a planned fault.
fn behind_fault_word(word: &str) -> Option<&'static [Symbol]> {
    match word {
        "mask" => Some(&[One(Run), One(Index), One(HalfBits)]),
        "drop" => Some(&[One(Run), One(Index)]),
        "add" => Some(&[One(Run), One(Index), One(Sync), One(DataWord)]),
        "late" => Some(&[One(ReplyRun), One(LateTicks)]),
        "mute" => Some(&[One(ReplyRun)]),
        "early" => Some(&[One(ReplyRun), One(EarlyTicks)]),
        "pause" => Some(&[One(Run), One(LaterIndex), One(PauseTicks)]),
        "babble" => Some(&[One(Run), One(BabbleCount), One(DataWord)]),
        _ => None,
    }
}

/// What follows the name of an action.
fn behind_action_word(word: &str) -> Option<&'static [Symbol]> {
    match word {
        "transmit" => Some(&[One(TransmitSubaddress), One(DataWord), Rest(DataWord)]),
        "busy" | "subsystem" | "fault" | "control" | "broadcast" | "power" => {
            Some(&[One(Switch)])
        }
        "service" => Some(&[One(ServiceSwitch)]),
        "ramp" => Some(&[
            One(TransmitSubaddress),
            One(WordPlace),
            One(DataWord),
            One(DataWord),
        ]),
        "deaf" | "mute" => Some(&[One(Line), One(Switch)]),
        "vector" | "selftest" | "bit" => Some(&[One(DataWord)]),
        "illegal" | "legal" => Some(&[Marked]),
        "response" => Some(&[One(ResponseTicks)]),
        "gap" => Some(&[One(SetGap)]),
        _ => None,
    }
}

/// What follows the first word of the commands that are marked.
fn behind_marked_word(word: &str) -> Option<&'static [Symbol]> {
    match word {
        "mode" => Some(&[One(Direction), One(ModeCode)]),
        "receive" | "transmit" => Some(&[One(Subaddress), One(Count)]),
        _ => None,
    }
}

impl Symbol {
    /// What has to stand behind a token in the place of this symbol, beside the symbol itself where it stays; none
    /// where the token is none that may begin it. Words of a kind are not judged.
    pub fn behind(self, token: &str) -> Option<&'static [Symbol]> {
        match self {
            Symbol::Script if token == "define" => Some(&[One(NewName), Token("{"), Block]),
            Symbol::Script | Symbol::Frames => behind_frame_word(token),
            Symbol::Block if token == "}" => Some(&[]),
            Symbol::Block => behind_frame_word(token),
            Symbol::Else if token == "else" => Some(&[Token("{"), Block]),
            Symbol::Message => behind_message_word(token),
            Symbol::Condition => behind_condition_word(token),
            Symbol::OptionalWords if token == "[" => Some(&[Words]),
            Symbol::Token(wanted) if token == wanted => Some(&[]),
            Symbol::Else | Symbol::OptionalWords | Symbol::Token(_) => None,
            Symbol::Words | Symbol::One(_) | Symbol::Rest(_) => Some(&[]),
            Symbol::Entry => behind_entry_word(token),
            Symbol::PlannedFault => behind_fault_word(token),
            Symbol::Host if token == "bc" => Some(&[Control]),
            Symbol::Host => Some(&[Action]),
            Symbol::Action => behind_action_word(token),
            Symbol::Control => behind_control_word(token),
            Symbol::DataTo => behind_data_word(token),
            Symbol::RampTo => behind_ramp_word(token),
            Symbol::HeldBack if token == "at" => Some(&[One(HeldTick)]),
            Symbol::HeldBack => None,
            Symbol::Marked => behind_marked_word(token),
            Symbol::Rule
            | Symbol::RuleChannel
            | Symbol::RuleLine
            | Symbol::RuleFrom
            | Symbol::RuleTo
            | Symbol::Selector
            | Symbol::Check
            | Symbol::Mask
            | Symbol::Growth
            | Symbol::OfKind
            | Symbol::SignalRule
            | Symbol::SignalCheck
            | Symbol::ValueHigh => behind_in_rules(self, token),
            _ => behind_in_dictionaries(self, token),
        }
    }

    /// The symbol that is still to come behind a token in the place of this one, below what the token asks for
    /// itself.
    pub fn left(self, token: &str) -> Option<Symbol> {
        match self {
            Symbol::Script if token == "define" => Some(Symbol::Script),
            Symbol::Script | Symbol::Frames => Some(Symbol::Frames),
            Symbol::Block if token != "}" => Some(Symbol::Block),
            Symbol::Words if token != "]" => Some(Symbol::Words),
            Symbol::Rest(kind) => Some(Symbol::Rest(kind)),
            Symbol::Namings => Some(Symbol::Namings),
            _ => None,
        }
    }

    /// Whether nothing may stand in its place.
    pub fn may_be_missing(self) -> bool {
        matches!(
            self,
            Symbol::Else
                | Symbol::OptionalWords
                | Symbol::Rest(_)
                | Symbol::HeldBack
                | Symbol::RuleChannel
                | Symbol::RuleLine
                | Symbol::RuleFrom
                | Symbol::RuleTo
                | Symbol::Mask
                | Symbol::Growth
                | Symbol::OfKind
                | Symbol::ValueHigh
                | Symbol::SignalBits
                | Symbol::Namings
                | Symbol::SignalScale
                | Symbol::SignalOffset
                | Symbol::SignalUnit
        )
    }

    /// Which tokens may stand in its place.
    pub fn allowed(self) -> &'static str {
        match self {
            Symbol::Script =>
                "a definition or a frame begins here: define, send, retry, gap, repeat, if, until, call or frame",
            Symbol::Frames =>
                "a frame begins here: send, retry, gap, repeat, if, until, call or frame",
            Symbol::Block =>
                "a frame (send, retry, gap, repeat, if, until, call, frame) or the closing } stands here",
            Symbol::Else => "else stands here",
            Symbol::Message =>
                "a message begins with rx, tx, rt, mode, mode0, brx, brt, bmode or bmode0",
            Symbol::Condition => {
                "a condition is fail, silent, bit NAME, not COND, all ( COND COND ) or any ( COND COND )"
            }
            Symbol::Words => "data words of four hexadecimal digits stand here, and ] behind them",
            Symbol::OptionalWords => "the data word stands here, in brackets",
            Symbol::Token(token) => allowed_token(token),
            Symbol::One(kind) | Symbol::Rest(kind) => kind.allowed(),
            Symbol::Entry =>
                "a line begins with channel, start, terminal, at, fault, faults, series or script, or with #",
            Symbol::PlannedFault => {
                "a planned fault is mask, drop, add, late, mute, early, pause or babble"
            },
            Symbol::Action => {
                "an action is transmit, ramp, busy, service, subsystem, fault, control, vector, selftest, \
                 bit, illegal, legal, response, gap, deaf, mute, broadcast or power"
            }
            Symbol::Host => "terminal addresses are 0 to 30, and bc is the controller's host",
            Symbol::Control => "the controller's host asks for data, ramp or insert",
            Symbol::DataTo | Symbol::RampTo =>
                "words of the controller go to rx A S, brx S, mode A C or bmode C",
            Symbol::HeldBack => "at TICK stands here, or the line of the message",
            Symbol::Marked => "mode, receive or transmit stands here",
            Symbol::Signal | Symbol::SignalPlace | Symbol::SignalKind => {
                allowed_in_dictionaries(self)
            }
            _ => allowed_in_rules(self),
        }
    }
}

/// Where a token has to stand.
fn allowed_token(token: &str) -> &'static str {
    match token {
        "{" => "the block begins here, with {",
        "[" => "the data words stand here, in brackets, as [0001 0002]",
        "(" => "two conditions stand here, in brackets, as ( fail silent )",
        ")" => "the bracket of two conditions is closed here, with )",
        "send" => "send stands here, as in retry 2 send A rx 5 1 [0001]",
        "at" | "most" => "at most N stands here, as in until fail at most 3 { .. }",
        _ => "another token stands here",
    }
}
