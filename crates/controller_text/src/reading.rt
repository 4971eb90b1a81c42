//! What the host of a controller asks for in a text.
ghost use Rattle.controller_host.specs.Destinations.{most_words_to};
ghost use Rattle.controller_host.specs.Values.{latest_tick};
ghost use Rattle.controller_host.specs.declared.controls.Control.TheVariants.{Data, Insert};
ghost use Rattle.controller_text.specs.Reading.{control_in, data_control, ramp_control, insert_control, some_data};
ghost use Rattle.controller_text.specs.Reading.{tick_of, tick_first, names_line, message_in, told_fault};
ghost use Rattle.mil_host.specs.Reading.{data_of, and_end};
ghost use Rattle.std.specs.Prelude.{◌≡◌, ◌≤◌, Ok, Err, length, IfOk, MatchResult};
ghost use Rattle.text_lines.specs.Words.{words};

use crate::destinations::{destination, next, number};
use arrayvec::ArrayVec;
use controller_host::{Control, Destination, Insertion, NewWords, Ramp};
use frame_text::{Cause, ScriptError, read_send};
use mil_host::BadAction;
use mil_message::Message;
use mil_word::Line;
use numerals::spelled;
use text_lines::{from_word, next_word};

/// The latest tick before which a message is held back: 2^47.
const LATEST_TICK: u64 = 140_737_488_355_328;

/// The data word that a word spells.
fn data_word(word: &[u8]) -> Result<u16, BadAction>
    ensures { result ≡ data_of word.now }
{
    match spelled(16, 4, 4, word) {
        Some(value) => Ok(value as u16),
        None => Err(BadAction::Number),
    }
}

/// How many data words go to a destination in one message at most.
fn most_words(destination: Destination) -> usize
    ensures value { result ≡ most_words_to destination }
    ensures few { result ≤ 32 }
{
    match destination {
        Destination::Terminal { .. } | Destination::All { .. } => 32,
        Destination::Mode { .. } | Destination::ModeToAll { .. } => 1,
    }
}

/// Data words to the end, at least one and at most so many.
fn data_words(text: &[u8], most: usize) -> Result<ArrayVec<u16, 32>, BadAction>
    requires { most ≤ 32 }
    ensures value { MatchResult result (λ v. some_data most (words text.now) ≡ Ok v.items)
        (λ e. some_data most (words text.now) ≡ Err e) }
    ensures some { IfOk result (λ v. 1 ≤ length v.items) }
    ensures few { IfOk result (λ v. length v.items ≤ most) }
{
    let mut values = ArrayVec::new();
    let mut rest = text;
    'words: while let Some((word, behind)) = next_word(rest) {
        if values.len() >= most {
            return Err(BadAction::Word);
        }
        let value = data_word(word)?;
        values.push(value);
        rest = behind;
    }
    if values.is_empty() {
        Err(BadAction::Word)
    } else {
        Ok(values)
    }
}

/// No word is left.
fn end<T: Drop>(text: &[u8], value: T) -> Result<T, BadAction>
    ensures { result ≡ and_end (words text.now) value }
{
    match next_word(text) {
        Some(_) => Err(BadAction::Word),
        None => Ok(value),
    }
}

/// `COMMAND WORD..`.
fn read_data(text: &[u8]) -> Result<NewWords, BadAction>
    ensures { MatchResult result (λ new. data_control (words text.now) ≡ Ok (Data new))
        (λ e. data_control (words text.now) ≡ Err e) }
{
    let (destination, rest) = destination(text)?;
    let words = data_words(rest, most_words(destination))?;
    Ok(NewWords::make(destination, words))
}

/// `COMMAND I START ADD`.
fn read_ramp(text: &[u8]) -> Result<Control, BadAction>
    ensures { result ≡ ramp_control (words text.now) }
{
    let (destination, rest) = destination(text)?;
    let (place, rest) = number(rest, 1, most_words(destination) as u8)?;
    let (start, rest) = next(rest)?;
    let start = data_word(start)?;
    let (add, rest) = next(rest)?;
    let add = data_word(add)?;
    end(
        rest,
        Control::Ramp(Ramp::make(destination, place, start, add)),
    )
}

/// The tick that a word spells: 0 to 2^47, with up to 15 digits.
fn tick_of(word: &[u8]) -> Result<u64, BadAction>
    ensures value { result ≡ tick_of word.now }
    ensures range { IfOk result (λ tick. tick ≤ latest_tick) }
{
    match spelled(10, 1, 15, word) {
        Some(tick) if tick <= LATEST_TICK => Ok(tick),
        Some(_) => Err(BadAction::Range),
        None => Err(BadAction::Number),
    }
}

/// `at TICK` in front, where it stands there, else tick 0; and what stands behind it.
fn read_tick(text: &[u8]) -> Result<(u64, &[u8]), BadAction>
    ensures value { MatchResult result (λ r. tick_first (words text.now) ≡ Ok (r.0, words r.1.now))
        (λ e. tick_first (words text.now) ≡ Err e) }
    ensures range { IfOk result (λ r. r.0 ≤ latest_tick) }
{
    let (word, rest) = next(text)?;
    if word != b"at".as_slice() {
        return Ok((0, text));
    }
    let (word, rest) = next(rest)?;
    Ok((tick_of(word)?, rest))
}

/// Why a script would refuse a message, as a fault of what the host asks for: H3 for numbers that no message has, H1
/// for all others.
fn fault_of(error: ScriptError) -> BadAction
    ensures { result ≡ told_fault error }
{
    match error {
        ScriptError::Text {
            cause: Cause::Message(_),
            ..
        } => BadAction::Range,
        ScriptError::Text { .. } | ScriptError::Memory { .. } => BadAction::Word,
    }
}

/// Whether a word names a line.
fn names_line(word: &[u8]) -> bool
    ensures { result ≡ names_line word.now }
{
    word == b"A".as_slice() || word == b"B".as_slice()
}

/// `LINE MESSAGE`: the line is a word, and the message is read by the tokens of a script.
fn read_message(text: &[u8]) -> Result<(Line, Message), BadAction>
    ensures { MatchResult result (λ send. message_in (words text.now) ≡ Ok (send.0, send.1))
        (λ e. message_in (words text.now) ≡ Err e) }
{
    let (line, _) = next(text)?;
    if !names_line(line) {
        return Err(BadAction::Word);
    }
    match read_send(from_word(text)) {
        Ok(read) => Ok(read),
        Err(error) => Err(fault_of(error)),
    }
}

/// `[at TICK] LINE MESSAGE`.
fn read_insertion(text: &[u8]) -> Result<Insertion, BadAction>
    ensures { MatchResult result (λ x. insert_control (words text.now) ≡ Ok (Insert x))
        (λ e. insert_control (words text.now) ≡ Err e) }
{
    let (tick, rest) = read_tick(text)?;
    let (line, message) = read_message(rest)?;
    Ok(Insertion::make(tick, line, message))
}

/// What the host of a controller asks for in a text of words that spaces part: `data COMMAND WORD..`, `ramp COMMAND I
/// START ADD` or `insert [at TICK] LINE MESSAGE`, COMMAND one of `rx A S`, `brx S`, `mode A C` and `bmode C`, and
/// MESSAGE as behind `send LINE` in a script, by whose tokens it is read (own choice). H1 is a word that does not stand
/// there, is missing or is left over, and a message that a script refuses for a byte, a token, a number or its end; H2
/// not a number of one to seven digits (a tick has up to fifteen), or not four hexadecimal digits; H3 out of range, and
/// a message whose numbers no message has. The first fault from left to right is answered.
#[tactic(auto, unfolding(crate::specs::Reading::control_in))]
pub fn read_control(text: &[u8]) -> Result<Control, BadAction>
    ensures { result ≡ control_in (words text.now) }
{
    let (word, rest) = next(text)?;
    if word == b"data".as_slice() {
        Ok(Control::Data(read_data(rest)?))
    } else if word == b"ramp".as_slice() {
        read_ramp(rest)
    } else if word == b"insert".as_slice() {
        Ok(Control::Insert(read_insertion(rest)?))
    } else {
        Err(BadAction::Word)
    }
}
