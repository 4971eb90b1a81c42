//! What a line of a session asks.
ghost use Rattle.bench_step.specs.Commands.{asked, asked_of, asked_by, alone, finding_in, finding_to};
ghost use Rattle.bench_step.specs.Commands.{forward, back, go, going, holding, condition_asked, number_up_to};
ghost use Rattle.bench_step.specs.Commands.{of_channel, only_number, only_time, plain, selecting, selects};
ghost use Rattle.bench_step.specs.Commands.{showing, steps, telling, two_words, with_number, TakesMemory};
ghost use Rattle.frame_tree.specs.Tree.{condition_in};
ghost use Rattle.judge_rules.specs.Selectors.{selector_of};
ghost use Rattle.std.specs.Prelude.{option_map};
ghost use Rattle.std.specs.Prelude.{◌≡◌, ◌≤◌, IfOk, IfSome, OnErr};
ghost use Rattle.text_lines.specs.Words.{words};

use crate::manners::Manner;
use bench_places::Sought;
use bench_select::{Bound, read_bound};
use bench_state::Detail;
use frame_text::{ScriptError, read_cond};
use frame_tree::Cond;
use judge_rules::{Selector, selector_of};
use mil_word::fields::{HIGHEST_ADDRESS, HIGHEST_SUBADDRESS};
use numerals::spelled;
use std::alloc::{AllocError, Global};
use text_lines::{next_word, split_word};

/// What a line of a session asks.
#[derive(Drop)]
pub enum Command {
    /// So many messages of the recording on.
    Forward(u64),
    /// So many messages back.
    Back(u64),
    /// To the place where so many messages of the recording are past.
    Go(u64),
    /// To the place before the first message with a later stamp than so many ticks of 0.1 µs.
    GoTime(u64),
    /// To the message of a number, counted from 1, among all that meet what is asked of them.
    Seek(Sought, u64),
    /// On to the next message whose outcome makes the condition true.
    Find(Cond<Global>),
    /// Back to the latest message before the place whose outcome makes it true.
    FindBack(Cond<Global>),
    /// On to the next message that the selector is about.
    Select(Selector),
    /// Back to the latest message before the place that it is about.
    SelectBack(Selector),
    /// What the terminals hold, in this detail.
    State(Detail),
    /// The message at the place, as people read it.
    Show,
    /// The message of a number.
    ShowAt(u64),
    /// The commands.
    Help,
    /// The end of the session.
    Quit,
    /// A `find` with neither a condition nor a selector behind it.
    NoCondition,
    /// Nothing that a line may ask.
    Unknown,
}

/// Which messages are looked through: those behind the place, or those before it.
#[derive(Clone, Copy)]
pub(crate) enum Way {
    On,
    Back,
}

/// A command that no word may follow.
fn alone(command: Command, rest: &[u8]) -> Command
    ensures { asked_of result ≡ alone (asked_of command) (words rest.now) }
{
    match next_word(rest) {
        Some(_) => Command::Unknown,
        None => command,
    }
}

/// A number up to another.
fn number_up_to(most: u64, word: &[u8]) -> Option<u64>
    ensures value { result ≡ number_up_to most word.now }
    ensures within { IfSome result (λ n. n ≤ most) }
{
    match spelled(10, 1, 10, word) {
        Some(number) if number <= most => Some(number),
        _ => None,
    }
}

/// The number that the only word is: one to ten digits.
fn only_number(rest: &[u8]) -> Option<u64>
    ensures { result ≡ only_number (words rest.now) }
{
    let (word, behind) = next_word(rest)?;
    match next_word(behind) {
        Some(_) => None,
        None => spelled(10, 1, 10, word),
    }
}

/// The time that the only word is, in ticks of 0.1 µs.
fn only_time(rest: &[u8]) -> Option<u64>
    ensures { result ≡ only_time (words rest.now) }
{
    let (word, behind) = next_word(rest)?;
    if next_word(behind).is_some() {
        return None;
    }
    match read_bound(word) {
        Some(Bound::Time(ticks)) => Some(ticks),
        _ => None,
    }
}

/// The only two words.
fn two_words(rest: &[u8]) -> Option<(&[u8], &[u8])>
    ensures { option_map (λ x. (x.0.now, x.1.now)) result ≡ two_words (words rest.now) }
{
    let (word, behind) = next_word(rest)?;
    let (other, end) = next_word(behind)?;
    match next_word(end) {
        Some(_) => None,
        None => Some((word, other)),
    }
}

/// How many messages: one, or, where lines are typed, the only number behind the word.
fn steps(manner: Manner, rest: &[u8]) -> Option<u64>
    ensures { result ≡ steps manner (words rest.now) }
{
    if next_word(rest).is_none() {
        return Some(1);
    }
    match manner {
        Manner::Given => None,
        Manner::Typed => only_number(rest),
    }
}

/// So many messages on.
fn going_on(manner: Manner, rest: &[u8]) -> Command
    ensures { asked_of result ≡ with_number forward (steps manner (words rest.now)) }
{
    match steps(manner, rest) {
        Some(count) => Command::Forward(count),
        None => Command::Unknown,
    }
}

/// So many messages back.
fn going_back(manner: Manner, rest: &[u8]) -> Command
    ensures { asked_of result ≡ with_number back (steps manner (words rest.now)) }
{
    match steps(manner, rest) {
        Some(count) => Command::Back(count),
        None => Command::Unknown,
    }
}

/// A message of a channel by its number there.
fn of_channel(rest: &[u8]) -> Command
    ensures { asked_of result ≡ of_channel (two_words (words rest.now)) }
{
    let Some((channel, number)) = two_words(rest) else {
        return Command::Unknown;
    };
    match (number_up_to(65535, channel), spelled(10, 1, 10, number)) {
        (Some(channel), Some(number)) => Command::Seek(Sought::Channel(channel as u16), number),
        _ => Command::Unknown,
    }
}

/// A place, one word of one to ten decimal digits; a time with its unit; or a message of a channel.
fn going(rest: &[u8]) -> Command
    ensures { asked_of result ≡ going (words rest.now) }
{
    let Some((word, behind)) = next_word(rest) else {
        return Command::Unknown;
    };
    if word == b"channel".as_slice() {
        return of_channel(behind);
    }
    match (only_number(rest), only_time(rest)) {
        (Some(place), _) => Command::Go(place),
        (None, Some(ticks)) => Command::GoTime(ticks),
        (None, None) => Command::Unknown,
    }
}

/// A selector, of the messages that way.
fn selecting(way: Way, rest: &[u8]) -> Command
    ensures { asked_of result ≡ selecting (selects way) (selector_of rest.now) }
{
    match (way, selector_of(rest)) {
        (Way::On, Ok(selector)) => Command::Select(selector),
        (Way::Back, Ok(selector)) => Command::SelectBack(selector),
        (_, Err(_)) => Command::NoCondition,
    }
}

/// A condition, on the messages that way.
fn meeting(way: Way, condition: Cond<Global>) -> Command
    ensures { asked_of result ≡ condition_asked way (condition_in condition) }
{
    match way {
        Way::On => Command::Find(condition),
        Way::Back => Command::FindBack(condition),
    }
}

/// A condition, or else a selector, on the messages that way.
#[tactic(auto, using(crate::proofs::Asking::finding_takes))]
fn finding_to(alloc: Global, way: Way, rest: &[u8]) -> Result<Command, AllocError>
    ensures read { IfOk result (λ c. asked_of c ≡ finding_to way rest.now) }
    ensures memory { OnErr result (TakesMemory (finding_to way rest.now)) }
{
    match read_cond(alloc, rest) {
        Ok(condition) => Ok(meeting(way, condition)),
        Err(ScriptError::Text { .. }) => Ok(selecting(way, rest)),
        Err(ScriptError::Memory { .. }) => Err(AllocError),
    }
}

/// A condition or a selector, behind `back` or alone.
fn finding_in(alloc: Global, rest: &[u8]) -> Result<Command, AllocError>
    ensures read { IfOk result (λ c. asked_of c ≡ finding_in rest.now) }
    ensures memory { OnErr result (TakesMemory (finding_in rest.now)) }
{
    let (word, behind) = split_word(rest);
    if word == b"back".as_slice() {
        finding_to(alloc, Way::Back, behind)
    } else {
        finding_to(alloc, Way::On, rest)
    }
}

/// What `state` shows.
fn plain(manner: Manner) -> Detail
    ensures { result ≡ plain manner }
{
    match manner {
        Manner::Given => Detail::Registers,
        Manner::Typed => Detail::Host,
    }
}

/// What the terminals hold: no word, or `--all` alone.
fn showing(manner: Manner, rest: &[u8]) -> Command
    ensures { asked_of result ≡ showing manner (words rest.now) }
{
    let Some((word, behind)) = next_word(rest) else {
        return Command::State(plain(manner));
    };
    if word == b"--all".as_slice() {
        alone(Command::State(Detail::Host), behind)
    } else {
        Command::Unknown
    }
}

/// The words of a terminal: its address, 0 to 30, and a subaddress, 1 to 30.
fn holding(rest: &[u8]) -> Command
    ensures { asked_of result ≡ holding (two_words (words rest.now)) }
{
    let Some((address, subaddress)) = two_words(rest) else {
        return Command::Unknown;
    };
    let address = number_up_to(u64::from(HIGHEST_ADDRESS), address);
    match (
        address,
        number_up_to(u64::from(HIGHEST_SUBADDRESS), subaddress),
    ) {
        (Some(address), Some(subaddress)) if 1 <= subaddress => Command::State(Detail::Data {
            address: address as u8,
            subaddress: subaddress as u8,
        }),
        _ => Command::Unknown,
    }
}

/// A message: that at the place, or that of a number.
fn telling(rest: &[u8]) -> Command
    ensures { asked_of result ≡ telling (words rest.now) }
{
    if next_word(rest).is_none() {
        return Command::Show;
    }
    match only_number(rest) {
        Some(number) => Command::ShowAt(number),
        None => Command::Unknown,
    }
}

/// What a line asks, by its first word and what stands behind it.
fn read_by(alloc: Global, manner: Manner, word: &[u8], rest: &[u8]) -> Result<Command, AllocError>
    ensures read { IfOk result (λ c. asked_of c ≡ asked_by manner word.now rest.now) }
    ensures memory { OnErr result (TakesMemory (asked_by manner word.now rest.now)) }
{
    if word == b"forward".as_slice() {
        Ok(going_on(manner, rest))
    } else if word == b"back".as_slice() {
        Ok(going_back(manner, rest))
    } else if word == b"go".as_slice() {
        Ok(going(rest))
    } else if word == b"find".as_slice() {
        finding_in(alloc, rest)
    } else if word == b"state".as_slice() {
        Ok(showing(manner, rest))
    } else if word == b"data".as_slice() {
        Ok(holding(rest))
    } else if word == b"show".as_slice() {
        Ok(telling(rest))
    } else if word == b"help".as_slice() {
        Ok(alone(Command::Help, rest))
    } else if word == b"quit".as_slice() {
        Ok(alone(Command::Quit, rest))
    } else {
        Ok(Command::Unknown)
    }
}

/// What a line asks: `forward`, `back`, `go N`, `go TIME`, `go channel C N`, `find COND`, `find back COND`, `find
/// SELECTOR`, `find back SELECTOR`, `state`, `state --all`, `data ADDRESS SUBADDRESS`, `show`, `show N`, `help` or
/// `quit`; where it is typed also `forward N` and `back N`. Spaces alone part its words; a number has one to ten
/// digits, and a time its unit, as `1.2s`; the condition is all that stands behind `find` or `back`, and what is no
/// condition there may be a selector in the words of a rule. Memory is taken for what stands behind `find` alone.
#[tactic(auto, unfolding(crate::specs::Commands::asked))]
pub(crate) fn read_command(
    alloc: Global,
    manner: Manner,
    line: &[u8],
) -> Result<Command, AllocError>
    ensures read { IfOk result (λ c. asked_of c ≡ asked manner line.now) }
    ensures memory { OnErr result (TakesMemory (asked manner line.now)) }
{
    let (word, rest) = split_word(line);
    read_by(alloc, manner, word, rest)
}
