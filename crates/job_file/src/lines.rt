//! What a line of a job says, by itself: whether it may stand where it does is judged elsewhere.
ghost use Rattle.job_file.specs.Entries.{said_by, IsInRange, IsWhen};
ghost use Rattle.job_file.specs.Faults.{IsFaultOfWords, are_fault_words, are_words_behind, are_line_words};
ghost use Rattle.job_file.specs.Lines as lines;
ghost use Rattle.job_file.specs.HeadLines.{turn_at};
ghost use Rattle.job_file.specs.Spans.{IsSpan};
ghost use Rattle.job_file.specs.Whens.{turns_of};
ghost use Rattle.job_moments.specs.Planning.{MayStand};
ghost use Rattle.job_moments.specs.declared.occasions.Occasion.TheVariants.{Numbers};
ghost use Rattle.job_file.specs.declared.error.LineFault.TheVariants.{Word as BadWord, Number as BadNumber};
ghost use Rattle.job_file.specs.declared.keywords.FaultWord.TheVariants as kinds;
ghost use Rattle.job_file.specs.declared.keywords.Keyword.TheVariants as keywords;
ghost use Rattle.mil_word.specs.Fields.{highest_address};
ghost use Rattle.std.specs.Option.{is_some};
ghost use Rattle.std.specs.Prelude.{◌≡◌, ◌≤◌, IfOk, IfErr};
ghost use Rattle.text_lines.specs.Readings.{IsOkOption};
ghost use Rattle.text_lines.specs.Words.{words};

use crate::error::LineFault;
use crate::keywords::{FaultWord, Keyword, fault_word_in, is_controller, keyword_in, sync_in};
use crate::numbers::{data_word, half_bits, number, number_within, start_tick};
use crate::parts::{end, first_word, four_words, front, one_word, three_words, two_words};
use crate::spans::{Series, Span};
use crate::whens::{When, Which, read_when, read_which, span, when_words, which_words};
use job_moments::{Moment, Occasion, Turns};
use mil_line::Fault;
use mil_word::Word;
use mil_word::fields::{HIGHEST_ADDRESS, HIGHEST_PUT_UP};
use text_lines::{is_comment, next_word};

/// The greatest number of seven digits.
const MOST: u32 = 9_999_999;

/// What a line says.
#[derive(Drop)]
pub enum Entry<'a> {
    /// An empty line or a comment.
    Blank,
    /// All bytes after this line are the script.
    Script,
    /// The number of the channel, 1 to 65,535.
    Channel(u16),
    /// The start tick, at most 2^47.
    Start(u64),
    /// The address of a terminal, 0 to 30.
    Terminal(u8),
    /// The text of an action of a terminal's host, which comes before the message of this number, 1 to 1,000,000.
    Action {
        number: u32,
        address: u8,
        text: &'a [u8],
    },
    /// The text of what the host of the controller asks for before the message of this number, 1 to 1,000,000.
    Control {
        number: u32,
        text: &'a [u8],
    },
    /// A fault of the message of this number; their ranges are not judged yet.
    Fault {
        number: u32,
        fault: Fault,
    },
    /// A fault of each of these messages; its own ranges are not judged yet.
    Faults {
        span: Span,
        fault: Fault,
    },
    /// Actions of a terminal's host, one before each of these messages.
    Series(Series),
    /// The text of an action of a terminal's host, which is done at a moment.
    TimedAction {
        moment: Moment,
        address: u8,
        text: &'a [u8],
    },
    /// The text of what the host of the controller asks for at a moment.
    TimedControl {
        moment: Moment,
        text: &'a [u8],
    },
    /// A fault, and when it is due, but by number; its own ranges are not judged yet.
    TimedFault {
        occasion: Occasion,
        fault: Fault,
    },
}

/// The only two words, each a number.
#[tactic(auto, unfolding(crate::specs::Lines::two_numbers))]
fn two_numbers(text: &[u8]) -> Result<(u32, u32), LineFault>
    ensures value { IsOkOption (λ x. x) result (lines.two_numbers (words text.now)) }
    ensures words { IsFaultOfWords result (is_some (lines.two (words text.now))) }
{
    let (first, second) = two_words(text)?;
    let first = number(first)?;
    let second = number(second)?;
    Ok((first, second))
}

#[tactic(auto, unfolding(crate::specs::Lines::mask_in))]
fn mask(text: &[u8]) -> Result<Fault, LineFault>
    ensures value { IsOkOption (λ f. f) result (lines.mask_in (words text.now)) }
    ensures words { IsFaultOfWords result (are_fault_words kinds.Mask (words text.now)) }
{
    let (run, index, mask) = three_words(text)?;
    Ok(Fault::Mask {
        run: number(run)?,
        index: number(index)?,
        half_bits: half_bits(mask)?,
    })
}

#[tactic(auto, unfolding(crate::specs::Lines::add_in))]
fn added(text: &[u8]) -> Result<Fault, LineFault>
    ensures value { IsOkOption (λ f. f) result (lines.add_in (words text.now)) }
    ensures words { IsFaultOfWords result (are_fault_words kinds.Add (words text.now)) }
{
    let (run, index, name, value) = four_words(text)?;
    let sync = sync_in(name)?;
    Ok(Fault::Add {
        run: number(run)?,
        index: number(index)?,
        word: Word {
            sync,
            value: data_word(value)?,
        },
    })
}

#[tactic(auto, unfolding(crate::specs::Lines::pause_in))]
fn pause(text: &[u8]) -> Result<Fault, LineFault>
    ensures value { IsOkOption (λ f. f) result (lines.pause_in (words text.now)) }
    ensures words { IsFaultOfWords result (are_fault_words kinds.Pause (words text.now)) }
{
    let (run, index, ticks) = three_words(text)?;
    Ok(Fault::Pause {
        run: number(run)?,
        index: number(index)?,
        ticks: number(ticks)?,
    })
}

#[tactic(auto, unfolding(crate::specs::Lines::babble_in))]
fn babble(text: &[u8]) -> Result<Fault, LineFault>
    ensures value { IsOkOption (λ f. f) result (lines.babble_in (words text.now)) }
    ensures words { IsFaultOfWords result (are_fault_words kinds.Babble (words text.now)) }
{
    let (run, count, word) = three_words(text)?;
    Ok(Fault::Babble {
        run: number(run)?,
        count: number(count)?,
        word: data_word(word)?,
    })
}

#[tactic(auto, unfolding(crate::specs::Lines::fault_of))]
fn fault_named(kind: FaultWord, text: &[u8]) -> Result<Fault, LineFault>
    ensures value { IsOkOption (λ f. f) result (lines.fault_of kind (words text.now)) }
    ensures words { IsFaultOfWords result (are_fault_words kind (words text.now)) }
{
    match kind {
        FaultWord::Mask => mask(text),
        FaultWord::Drop => {
            let (run, index) = two_numbers(text)?;
            Ok(Fault::Drop { run, index })
        }
        FaultWord::Add => added(text),
        FaultWord::Late => {
            let (run, ticks) = two_numbers(text)?;
            Ok(Fault::Late { run, ticks })
        }
        FaultWord::Mute => {
            let run = number(one_word(text)?)?;
            Ok(Fault::Mute { run })
        }
        FaultWord::Early => {
            let (run, ticks) = two_numbers(text)?;
            Ok(Fault::Early { run, ticks })
        }
        FaultWord::Pause => pause(text),
        FaultWord::Babble => babble(text),
    }
}

/// The number of the channel.
#[tactic(auto, unfolding(crate::specs::Lines::channel_in))]
fn channel(text: &[u8]) -> Result<u16, LineFault>
    ensures said { IsOkOption lines.channel result (lines.channel_in (words text.now)) }
    ensures range { IfOk result (λ n. (1 ≤ n) × (n ≤ 65535)) }
    ensures words { IsFaultOfWords result (are_words_behind keywords.Channel (words text.now)) }
{
    let channel = number_within(one_word(text)?, 1, 65_535)?;
    Ok(channel as u16)
}

/// The address of a terminal.
#[tactic(auto, unfolding(crate::specs::Lines::terminal_in))]
fn terminal(text: &[u8]) -> Result<u8, LineFault>
    ensures said { IsOkOption lines.terminal result (lines.terminal_in (words text.now)) }
    ensures range { IfOk result (λ n. n ≤ highest_address) }
    ensures words { IsFaultOfWords result (are_words_behind keywords.Terminal (words text.now)) }
{
    let address = number_within(one_word(text)?, 0, u32::from(HIGHEST_ADDRESS))?;
    Ok(address as u8)
}

/// An action of a terminal's host, or, where `bc` stands in the place of an address, what the host of the controller
/// asks for.
fn acting<'a>(when: When, address: &[u8], text: &'a [u8]) -> Result<Entry<'a>, LineFault>
    requires { IsWhen 1 1000000 when }
    ensures said { IsOkOption said_by result (lines.action_at when address.now (words text.now)) }
    ensures range { IfOk result (λ e. IsInRange (said_by e)) }
    ensures fault { IfErr result (λ f. f ≡ BadNumber) }
{
    if is_controller(address) {
        return Ok(match when {
            When::Number(number) => Entry::Control { number, text },
            When::Moment(moment) => Entry::TimedControl { moment, text },
        });
    }
    let address = number_within(address, 0, u32::from(HIGHEST_ADDRESS))? as u8;
    Ok(match when {
        When::Number(number) => Entry::Action {
            number,
            address,
            text,
        },
        When::Moment(moment) => Entry::TimedAction {
            moment,
            address,
            text,
        },
    })
}

/// When something is due, and what a host does then.
#[tactic(auto, unfolding(crate::specs::Lines::action_in))]
fn action(text: &[u8]) -> Result<Entry<'_>, LineFault>
    ensures said { IsOkOption said_by result (lines.action_in (words text.now)) }
    ensures range { IfOk result (λ e. IsInRange (said_by e)) }
    ensures words { IsFaultOfWords result (are_words_behind keywords.At (words text.now)) }
{
    let (when, rest) = when_words(text)?;
    let (address, text) = first_word(rest)?;
    first_word(text)?;
    acting(read_when(when, 1, 1_000_000)?, address, text)
}

/// When a fault is planned, and the fault.
#[tactic(auto, unfolding(crate::specs::Lines::fault_in))]
fn fault(text: &[u8]) -> Result<Entry<'_>, LineFault>
    ensures said { IsOkOption said_by result (lines.fault_in (words text.now)) }
    ensures range { IfOk result (λ e. IsInRange (said_by e)) }
    ensures words { IsFaultOfWords result (are_words_behind keywords.Fault (words text.now)) }
{
    let (when, rest) = when_words(text)?;
    let (name, rest) = first_word(rest)?;
    let fault = fault_named(fault_word_in(name)?, rest)?;
    Ok(match read_when(when, 0, MOST)? {
        When::Number(number) => Entry::Fault { number, fault },
        When::Moment(moment) => Entry::TimedFault {
            occasion: Occasion::Once(moment),
            fault,
        },
    })
}

/// The same places or messages as turns.
fn turns(span: Span) -> Turns
    ensures { result ≡ turns_of span }
{
    Turns {
        first: span.first,
        last: span.last,
        step: span.step,
    }
}

/// At the messages of these numbers.
pub fn at_numbers(span: Span) -> Occasion
    requires { IsSpan span }
    ensures value { result ≡ Numbers (turns_of span) }
    ensures stands { MayStand result }
{
    Occasion::Numbers(turns(span))
}

/// At the message of a number.
pub fn at_number(number: u32) -> Occasion
    ensures value { result ≡ Numbers (turn_at number) }
    ensures stands { MayStand result }
{
    Occasion::Numbers(Turns {
        first: number,
        last: number,
        step: 1,
    })
}

/// Messages, and a fault of each of them.
#[tactic(auto, unfolding(crate::specs::Lines::faults_in))]
fn faults(text: &[u8]) -> Result<Entry<'_>, LineFault>
    ensures said { IsOkOption said_by result (lines.faults_in (words text.now)) }
    ensures range { IfOk result (λ e. IsInRange (said_by e)) }
    ensures words { IsFaultOfWords result (are_words_behind keywords.Faults (words text.now)) }
{
    let (which, rest) = which_words(text)?;
    let (name, rest) = first_word(rest)?;
    let fault = fault_named(fault_word_in(name)?, rest)?;
    Ok(match read_which(which)? {
        Which::Numbers(span) => Entry::Faults { span, fault },
        Which::Places { selector, span } => Entry::TimedFault {
            occasion: Occasion::Places {
                selector,
                turns: turns(span),
            },
            fault,
        },
        Which::Window { selector, from, to } => Entry::TimedFault {
            occasion: Occasion::Window { selector, from, to },
            fault,
        },
    })
}

/// Actions of a terminal's host, one before each of some messages: behind the messages four words, the address, the
/// subaddress, the first data word and what is added.
#[tactic(auto, unfolding(crate::specs::Lines::series_in, crate::specs::Lines::series_of))]
fn series(text: &[u8]) -> Result<Series, LineFault>
    ensures said { IsOkOption lines.series result (lines.series_in (words text.now)) }
    ensures range { IfOk result (λ s. IsInRange (lines.series s)) }
    ensures words { IsFaultOfWords result (are_words_behind keywords.Series (words text.now)) }
{
    let (first, last, step, rest) = front(text)?;
    let (address, sub, start, add) = four_words(rest)?;
    let span = span(first, last, step)?;
    Ok(Series {
        span,
        address: number_within(address, 0, u32::from(HIGHEST_ADDRESS))? as u8,
        sub: number_within(sub, 1, u32::from(HIGHEST_PUT_UP))? as u8,
        start: data_word(start)?,
        add: data_word(add)?,
    })
}

#[tactic(auto, unfolding(crate::specs::Lines::of_keyword, crate::specs::Lines::start_in))]
fn after_keyword(keyword: Keyword, text: &[u8]) -> Result<Entry<'_>, LineFault>
    ensures said { IsOkOption said_by result (lines.of_keyword keyword (words text.now)) }
    ensures range { IfOk result (λ e. IsInRange (said_by e)) }
    ensures words { IsFaultOfWords result (are_words_behind keyword (words text.now)) }
{
    match keyword {
        Keyword::Channel => Ok(Entry::Channel(channel(text)?)),
        Keyword::Start => {
            let start = start_tick(one_word(text)?)?;
            Ok(Entry::Start(start))
        }
        Keyword::Terminal => Ok(Entry::Terminal(terminal(text)?)),
        Keyword::At => action(text),
        Keyword::Fault => fault(text),
        Keyword::Faults => faults(text),
        Keyword::Series => Ok(Entry::Series(series(text)?)),
        Keyword::Script => {
            end(text)?;
            Ok(Entry::Script)
        }
    }
}

/// What a line says: `channel N`, `start TICK`, `terminal ADDRESS`, `at WHEN ADDRESS ACTION`, `at WHEN bc CONTROL`,
/// `fault WHEN FAULT`, `faults FIRST LAST STEP FAULT`, `faults SELECTOR FIRST LAST STEP FAULT`,
/// `faults SELECTOR from TIME to TIME FAULT`, `series FIRST LAST STEP ADDRESS SUB START ADD`, `script`, a comment or
/// nothing; WHEN is a number, a time or `SELECTOR nth K`. J1, then J2.
#[tactic(auto, unfolding(crate::specs::Lines::said_in))]
pub fn read_line(line: &[u8]) -> Result<Entry<'_>, LineFault>
    ensures said { IsOkOption said_by result (lines.said line.now) }
    ensures range { IfOk result (λ e. IsInRange (said_by e)) }
    ensures words { IsFaultOfWords result (are_line_words (words line.now)) }
{
    let Some((word, rest)) = next_word(line) else {
        return Ok(Entry::Blank);
    };
    if is_comment(word) {
        return Ok(Entry::Blank);
    }
    let keyword = keyword_in(word)?;
    after_keyword(keyword, rest)
}
