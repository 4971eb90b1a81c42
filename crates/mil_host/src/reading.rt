//! The action that a text spells.
ghost use Rattle.mil_host.specs.Reading.{action_in, of_name, number_in, data_in, one_of, line_of, line_in, switch_in};
ghost use Rattle.mil_host.specs.Reading.{one_in, and_end, some_data, only_switch, only_line_switch, only_data};
ghost use Rattle.mil_host.specs.Reading.{only_ticks, only_words, only_mark, only_mode_mark, only_ramp, data_of};
ghost use Rattle.mil_host.specs.Reading.{number_of, mark_in, service_in};
ghost use Rattle.mil_host.specs.declared.actions.Action.TheVariants as action;
ghost use Rattle.std.specs.Prelude.{◌≡◌, ◌≤◌, Ok, Err, Some, None, slice_get, true, length, drop, IfOk, MatchResult};

use crate::actions::Action;
use crate::host_values::{
    GREATEST_CODE, LEAST_SET_GAP, MOST_SET_GAP, ModeMark, ReplyGap, WordRamp,
};
use crate::names::{Name, name_in};
use crate::values::{Mark, ResponseGap, TransmitWords};
use arrayvec::ArrayVec;
use mil_word::Line;
use mil_word::fields::{HIGHEST_PUT_UP, HIGHEST_SUBADDRESS, MOST_WORDS};
use mil_word::timing::{LATEST_RESPONSE, LEAST_RESPONSE};
use numerals::spelled;
use text_lines::Words;

/// Why a text spells no action.
#[derive(Clone, Copy, Debug, PartialEq, Eq)]
pub enum BadAction {
    /// H1: a word that does not stand there, is missing or is left over, a thirty-third data word included.
    Word,
    /// H2: not a number of one to seven digits, or not four hexadecimal digits.
    Number,
    /// H3: out of range.
    Range,
}

/// The number of a word, within a range: H2 where it is not a number of one to seven digits, H3 where it is out of
/// range.
pub fn number_within(word: &[u8], low: u16, high: u16) -> Result<u16, BadAction>
    ensures value { result ≡ number_of low high word.now }
    ensures range { IfOk result (λ n. (low ≤ n) × (n ≤ high)) }
{
    let Some(value) = spelled(10, 1, 7, word) else {
        return Err(BadAction::Number);
    };
    if u64::from(low) <= value && value <= u64::from(high) {
        Ok(value as u16)
    } else {
        Err(BadAction::Range)
    }
}

/// The data word that a word spells.
fn data_word(word: &[u8]) -> Result<u16, BadAction>
    ensures { result ≡ data_of word.now }
{
    match spelled(16, 4, 4, word) {
        Some(value) => Ok(value as u16),
        None => Err(BadAction::Number),
    }
}

/// Which of two words this is.
fn yes_or_no(word: &[u8], first: &[u8], second: &[u8]) -> Result<bool, BadAction>
    ensures { result ≡ one_of first.now second.now word.now }
{
    if word == first {
        Ok(true)
    } else if word == second {
        Ok(false)
    } else {
        Err(BadAction::Word)
    }
}

/// The line that a word names.
fn line_named(word: &[u8]) -> Result<Line, BadAction>
    ensures { result ≡ line_of word.now }
{
    if yes_or_no(word, b"A", b"B")? {
        Ok(Line::A)
    } else {
        Ok(Line::B)
    }
}

/// The next word.
fn next_of<'a>(words: &mut Words<'a>) -> Result<&'a [u8], BadAction>
    ensures word { MatchResult result (λ word. Some word.now ≡ slice_get words.old 0)
        (λ e. (None ≡ slice_get words.old 0) × (e ≡ BadAction.Word)) }
    ensures rest { words.new ≡ drop 1 words.old }
{
    match words.next() {
        Some(word) => Ok(word),
        None => Err(BadAction::Word),
    }
}

/// A number as the next word.
fn read_number(words: &mut Words<'_>, low: u8, high: u8) -> Result<u8, BadAction>
    ensures value { result ≡ number_in low high words.old }
    ensures range { IfOk result (λ n. (low ≤ n) × (n ≤ high)) }
    ensures rest { words.new ≡ drop 1 words.old }
{
    let number = number_within(next_of(words)?, u16::from(low), u16::from(high))?;
    Ok(number as u8)
}

/// A data word as the next word.
fn read_data(words: &mut Words<'_>) -> Result<u16, BadAction>
    ensures value { result ≡ data_in words.old }
    ensures rest { words.new ≡ drop 1 words.old }
{
    data_word(next_of(words)?)
}

/// Which of two words the next one is.
fn read_one_of(words: &mut Words<'_>, first: &[u8], second: &[u8]) -> Result<bool, BadAction>
    ensures value { result ≡ one_in first.now second.now words.old }
    ensures rest { words.new ≡ drop 1 words.old }
{
    yes_or_no(next_of(words)?, first, second)
}

/// `on` or `off` as the next word.
fn read_switch(words: &mut Words<'_>) -> Result<bool, BadAction>
    ensures value { result ≡ switch_in words.old }
    ensures rest { words.new ≡ drop 1 words.old }
{
    read_one_of(words, b"on", b"off")
}

/// `A` or `B` as the next word.
fn read_line(words: &mut Words<'_>) -> Result<Line, BadAction>
    ensures value { result ≡ line_in words.old }
    ensures rest { words.new ≡ drop 1 words.old }
{
    line_named(next_of(words)?)
}

/// No word is left.
fn read_end<T: Drop>(words: &mut Words<'_>, value: T) -> Result<T, BadAction>
    ensures { result ≡ and_end words.old value }
{
    match words.next() {
        Some(_) => Err(BadAction::Word),
        None => Ok(value),
    }
}

/// `on` or `off`, and no more.
fn read_only_switch(words: &mut Words<'_>) -> Result<bool, BadAction>
    ensures { result ≡ only_switch words.old }
{
    let on = read_switch(words)?;
    read_end(words, on)
}

/// A line and `on` or `off`, and no more.
fn read_only_line_switch(words: &mut Words<'_>) -> Result<(Line, bool), BadAction>
    ensures { result ≡ only_line_switch words.old }
{
    let line = read_line(words)?;
    let on = read_switch(words)?;
    read_end(words, (line, on))
}

/// A data word, and no more.
fn read_only_data(words: &mut Words<'_>) -> Result<u16, BadAction>
    ensures { result ≡ only_data words.old }
{
    let value = read_data(words)?;
    read_end(words, value)
}

/// A time of this range, and no more.
fn read_only_ticks(words: &mut Words<'_>, low: u8, high: u8) -> Result<u8, BadAction>
    ensures value { result ≡ only_ticks low high words.old }
    ensures range { IfOk result (λ n. (low ≤ n) × (n ≤ high)) }
{
    let ticks = read_number(words, low, high)?;
    read_end(words, ticks)
}

/// Data words to the end, 1 to 32 of them.
fn read_all_data(words: &mut Words<'_>) -> Result<ArrayVec<u16, 32>, BadAction>
    ensures value { MatchResult result (λ v. some_data words.old ≡ Ok v.items) (λ e. some_data words.old ≡ Err e) }
    ensures some { IfOk result (λ v. 1 ≤ length v.items) }
{
    let mut values = ArrayVec::new();
    while let Some(word) = words.next() {
        if values.len() == usize::from(MOST_WORDS) {
            return Err(BadAction::Word);
        }
        let value = data_word(word)?;
        values.push(value);
    }
    if values.is_empty() {
        Err(BadAction::Word)
    } else {
        Ok(values)
    }
}

/// A subaddress and data words.
fn read_only_words(words: &mut Words<'_>) -> Result<TransmitWords, BadAction>
    ensures { result ≡ only_words words.old }
{
    let sub = read_number(words, 1, HIGHEST_PUT_UP)?;
    let values = read_all_data(words)?;
    Ok(TransmitWords::make(sub, values))
}

/// A direction, a subaddress and a count.
fn read_only_mark(words: &mut Words<'_>) -> Result<Mark, BadAction>
    ensures { result ≡ only_mark words.old }
{
    let transmit = read_one_of(words, b"transmit", b"receive")?;
    let sub = read_number(words, 1, HIGHEST_SUBADDRESS)?;
    let count = read_number(words, 1, MOST_WORDS)?;
    read_end(words, Mark::make(transmit, sub, count))
}

/// A direction and a mode code, and no more.
fn read_only_mode_mark(words: &mut Words<'_>) -> Result<ModeMark, BadAction>
    ensures { result ≡ only_mode_mark words.old }
{
    let transmit = read_one_of(words, b"transmit", b"receive")?;
    let code = read_number(words, 0, GREATEST_CODE)?;
    read_end(words, ModeMark::make(transmit, code))
}

/// A subaddress, a place and two data words, and no more.
fn read_only_ramp(words: &mut Words<'_>) -> Result<WordRamp, BadAction>
    ensures { result ≡ only_ramp words.old }
{
    let sub = read_number(words, 1, HIGHEST_PUT_UP)?;
    let index = read_number(words, 1, MOST_WORDS)?;
    let start = read_data(words)?;
    let add = read_data(words)?;
    read_end(words, WordRamp::make(sub, index, start, add))
}

/// What becomes illegal: mode commands behind `mode`, and else a subaddress.
fn read_illegal(words: &mut Words<'_>) -> Result<Action, BadAction>
    ensures { result ≡ mark_in action.Illegal action.IllegalMode words.old }
{
    if words.takes(b"mode") {
        Ok(Action::IllegalMode(read_only_mode_mark(words)?))
    } else {
        Ok(Action::Illegal(read_only_mark(words)?))
    }
}

/// What becomes legal again.
fn read_legal(words: &mut Words<'_>) -> Result<Action, BadAction>
    ensures { result ≡ mark_in action.Legal action.LegalMode words.old }
{
    if words.takes(b"mode") {
        Ok(Action::LegalMode(read_only_mode_mark(words)?))
    } else {
        Ok(Action::Legal(read_only_mark(words)?))
    }
}

/// `once`, or `on` or `off`, and no more.
fn read_service(words: &mut Words<'_>) -> Result<Action, BadAction>
    ensures { result ≡ service_in words.old }
{
    if words.takes(b"once") {
        read_end(words, Action::ServiceOnce)
    } else {
        Ok(Action::Service(read_only_switch(words)?))
    }
}

/// The action with a name, from the words behind it.
fn read_named(name: Name, words: &mut Words<'_>) -> Result<Action, BadAction>
    ensures { result ≡ of_name name words.old }
{
    match name {
        Name::TransmitName => Ok(Action::Transmit(read_only_words(words)?)),
        Name::BusyName => Ok(Action::Busy(read_only_switch(words)?)),
        Name::ServiceName => read_service(words),
        Name::SubsystemName => Ok(Action::Subsystem(read_only_switch(words)?)),
        Name::FaultName => Ok(Action::Fault(read_only_switch(words)?)),
        Name::ControlName => Ok(Action::Control(read_only_switch(words)?)),
        Name::VectorName => Ok(Action::Vector(read_only_data(words)?)),
        Name::SelfTestName => Ok(Action::SelfTest(read_only_data(words)?)),
        Name::IllegalName => read_illegal(words),
        Name::LegalName => read_legal(words),
        Name::ResponseName => {
            let ticks = read_only_ticks(words, LEAST_RESPONSE, LATEST_RESPONSE)?;
            Ok(Action::Response(ResponseGap::make(ticks)))
        }
        Name::DeafName => {
            let (line, on) = read_only_line_switch(words)?;
            Ok(Action::Deaf { line, on })
        }
        Name::MuteName => {
            let (line, on) = read_only_line_switch(words)?;
            Ok(Action::Mute { line, on })
        }
        Name::BroadcastName => Ok(Action::Broadcast(read_only_switch(words)?)),
        Name::PowerName => Ok(Action::Power(read_only_switch(words)?)),
        Name::BitName => Ok(Action::BitWord(read_only_data(words)?)),
        Name::GapName => {
            let ticks = read_only_ticks(words, LEAST_SET_GAP, MOST_SET_GAP)?;
            Ok(Action::Gap(ReplyGap::make(ticks)))
        }
        Name::RampName => Ok(Action::Ramp(read_only_ramp(words)?)),
    }
}

/// The action that a text spells, of words separated by one or more spaces: `transmit SUB WORD..`, `ramp SUB PLACE
/// START ADD`, `busy on|off`, `service on|off|once`, `subsystem on|off`, `fault on|off`, `control on|off`, `vector
/// WORD`, `selftest WORD`, `bit WORD`, `illegal receive|transmit SUB COUNT`, `legal receive|transmit SUB COUNT`,
/// `illegal mode receive|transmit CODE`, `legal mode receive|transmit CODE`, `response TICKS`, `gap TICKS`, `deaf A|B
/// on|off`, `mute A|B on|off`, `broadcast on|off` or `power on|off` (own choice). The first fault from left to right is
/// answered.
#[tactic(auto, unfolding(crate::specs::Reading::action_in))]
pub fn read_action(text: &[u8]) -> Result<Action, BadAction>
    ensures { result ≡ action_in text.now }
{
    let mut words = Words::of(text);
    match words.next() {
        Some(word) => match name_in(word) {
            Some(name) => read_named(name, &mut words),
            None => Err(BadAction::Word),
        },
        None => Err(BadAction::Word),
    }
}
