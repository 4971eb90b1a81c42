//! The block status word of a finished talk, and what a program learns of it.
ghost use Rattle.mil_bus.specs.BlockStatus.{first_due, second_due, is_late, is_excuse, is_miscounted};
ghost use Rattle.mil_bus.specs.BlockStatus.{is_from_other, has_other_address, status_bits, came_bits, bit_if};
ghost use Rattle.mil_bus.specs.BlockStatus.{is_line_b, is_transfer, has_response_time_out, has_word_count_error};
ghost use Rattle.mil_bus.specs.BlockStatus.{has_format_error, has_error, block_of, outcome_of};
ghost use Rattle.mil_bus.specs.Counts.{seen_of};
ghost use Rattle.mil_message.specs.Forms.{controller_words, replies_due};
ghost use Rattle.std.specs.Prelude.{◌≡◌, ◌≤◌, length};

use crate::Talk;
use crate::counts::{Came, TalkCounts, is_command};
use mil_message::{Due, Form, Message};
use mil_status::{BlockBits, StatusBits};
use mil_word::timing::RESPONSE_TIME_OUT;
use mil_word::{Line, Status, Word};

/// What a program learns of a talk.
#[derive(Clone, Copy, Debug, PartialEq, Eq)]
pub struct Outcome {
    /// Whether there was any error (bit 12 of the block status word).
    pub failed: bool,
    /// Whether a reply was due and none came.
    pub silent: bool,
    /// The status bits of all due replies together, in the places of the status word.
    pub bits: u16,
}

/// What a finished talk came to.
#[derive(Clone, Copy, Debug, PartialEq, Eq)]
pub struct Finished {
    /// The block status word of its record (IRIG 106-17 Chapter 11, MIL-STD-1553 data packets).
    pub block: u16,
    /// What a program learns of it.
    pub outcome: Outcome,
}

/// The replies that are due as runs 1 and 2.
#[derive(Clone, Copy, Debug)]
struct DueReplies {
    first: Option<Due>,
    second: Option<Due>,
    /// How many there are, 0 to 2.
    count: u8,
}

/// The replies that a message is due.
fn due_of(message: &Message) -> DueReplies
    ensures first { result.first ≡ first_due (replies_due message.now) }
    ensures second { result.second ≡ second_due (replies_due message.now) }
    ensures count { result.count ≡ length (replies_due message.now) }
    ensures few { result.count ≤ 2 }
{
    let due = message.replies_due();
    DueReplies {
        first: due.as_slice().first().copied(),
        second: due.as_slice().get(1).copied(),
        count: due.len() as u8,
    }
}

fn is_late(due: Option<Due>, came: Option<Came>) -> bool
    ensures { result ≡ is_late due came }
{
    match (due, came) {
        (None, _) => false,
        (Some(_), None) => true,
        (Some(_), Some(came)) => came.gap.ticks() > RESPONSE_TIME_OUT,
    }
}

fn is_excuse(word: Option<Word>) -> bool
    ensures { result ≡ is_excuse word }
{
    match word {
        None => false,
        Some(word) => {
            let status = Status::of(word.value);
            is_command(word) && (status.has_message_error() || status.has_busy())
        }
    }
}

fn is_miscounted(due: Option<Due>, came: Option<Came>) -> bool
    ensures { result ≡ is_miscounted due came }
{
    match (due, came) {
        (Some(due), Some(came)) => {
            u16::from(came.count) != u16::from(due.words) + 1
                && !(came.count == 1 && is_excuse(came.first))
        }
        _ => false,
    }
}

fn is_from_other(address: u8, word: Option<Word>) -> bool
    ensures { result ≡ is_from_other address word }
{
    match word {
        None => false,
        Some(word) => is_command(word) && Status::of(word.value).address() != address,
    }
}

fn has_other_address(due: Option<Due>, came: Option<Came>) -> bool
    ensures { result ≡ has_other_address due came }
{
    match (due, came) {
        (Some(due), Some(came)) => is_from_other(due.address, came.first),
        _ => false,
    }
}

fn status_bits(word: Option<Word>) -> u16
    ensures { result ≡ status_bits word }
{
    match word {
        Some(word) if is_command(word) => word.value & StatusBits::ALL.0,
        _ => 0,
    }
}

fn came_bits(due: Option<Due>, came: Option<Came>) -> u16
    ensures { result ≡ came_bits due came }
{
    match (due, came) {
        (Some(_), Some(came)) => status_bits(came.first),
        _ => 0,
    }
}

/// A bit of the block status word, where it is on.
fn bit_if(on: bool, bit: BlockBits) -> u16
    ensures value { result ≡ bit_if on bit.0 }
    ensures small { result ≤ bit.0 }
{
    if on { bit.0 } else { 0 }
}

fn is_line_b(line: Line) -> bool
    ensures { result ≡ is_line_b line }
{
    match line {
        Line::A => false,
        Line::B => true,
    }
}

fn is_transfer(message: &Message) -> bool
    ensures { result ≡ is_transfer message.now }
{
    match message.form() {
        Form::Between { .. } | Form::BetweenAll { .. } => true,
        Form::ToTerminal { .. }
        | Form::FromTerminal { .. }
        | Form::Mode { .. }
        | Form::ModeFrom { .. }
        | Form::ModeTo { .. }
        | Form::ToAll { .. }
        | Form::ModeAll { .. }
        | Form::ModeAllTo { .. } => false,
    }
}

/// How many words the controller sends.
fn controller_count(message: &Message) -> usize
    ensures { result ≡ length (controller_words message.now) }
{
    let commands = if is_transfer(message) { 2 } else { 1 };
    commands + message.data_words().len()
}

/// The errors of a talk.
#[derive(Clone, Copy, Debug)]
struct Errors {
    /// Whether fewer replies came than are due, or a due one came late.
    late: bool,
    /// Whether the controller or a due reply has another number of words.
    miscounted: bool,
    /// Whether there is any error.
    any: bool,
}

/// The errors of the talk of a message that is due these replies.
fn judged(message: &Message, due: DueReplies, seen: &TalkCounts) -> Errors
    requires first { due.first ≡ first_due (replies_due message.now) }
    requires second { due.second ≡ second_due (replies_due message.now) }
    ensures late { result.late ≡ has_response_time_out message.now seen.now }
    ensures miscounted { result.miscounted ≡ has_word_count_error message.now seen.now }
    ensures any { result.any ≡ has_error message.now seen.now }
{
    let late = is_late(due.first, seen.one) || is_late(due.second, seen.two);
    let miscounted = usize::from(seen.controllers) != controller_count(message)
        || is_miscounted(due.first, seen.one)
        || is_miscounted(due.second, seen.two);
    let any = late
        || miscounted
        || seen.paused
        || seen.other_sync
        || seen.unsound
        || has_other_address(due.first, seen.one)
        || has_other_address(due.second, seen.two)
        || seen.beyond;
    Errors {
        late,
        miscounted,
        any,
    }
}

/// The block status word of a talk with these errors.
fn block_with(talk: &Talk, errors: Errors, seen: &TalkCounts) -> u16
    requires late { errors.late ≡ has_response_time_out talk.now.message seen.now }
    requires miscounted { errors.miscounted ≡ has_word_count_error talk.now.message seen.now }
    requires any { errors.any ≡ has_error talk.now.message seen.now }
    ensures { result ≡ block_of talk.now.line talk.now.message seen.now }
{
    bit_if(is_line_b(talk.line), BlockBits::LINE_B)
        + bit_if(errors.any, BlockBits::MESSAGE_ERROR)
        + bit_if(is_transfer(&talk.message), BlockBits::TERMINAL_TO_TERMINAL)
        + bit_if(seen.paused, BlockBits::FORMAT_ERROR)
        + bit_if(errors.late, BlockBits::RESPONSE_TIMEOUT)
        + bit_if(errors.miscounted, BlockBits::WORD_COUNT_ERROR)
        + bit_if(seen.other_sync, BlockBits::SYNC_TYPE_ERROR)
        + bit_if(seen.unsound, BlockBits::INVALID_WORD_ERROR)
}

/// What a program learns of a talk with these errors that is due these replies.
#[tactic(auto, unfolding(crate::specs::BlockStatus::outcome_of))]
fn outcome_with(talk: &Talk, due: DueReplies, errors: Errors, seen: &TalkCounts) -> Outcome
    requires first { due.first ≡ first_due (replies_due talk.now.message) }
    requires second { due.second ≡ second_due (replies_due talk.now.message) }
    requires any { errors.any ≡ has_error talk.now.message seen.now }
    requires seen { seen.now ≡ seen_of talk.now.message talk.now.sent.items }
    ensures { result ≡ outcome_of talk.now.message talk.now.sent.items }
{
    // Named for the proofs alone.
    let _ = talk;
    Outcome {
        failed: errors.any,
        silent: due.first.is_some() && seen.one.is_none(),
        bits: came_bits(due.first, seen.one) | came_bits(due.second, seen.two),
    }
}

impl Talk {
    /// What is seen of this talk, in one pass.
    pub fn seen(&self) -> TalkCounts
        ensures { result ≡ seen_of self.now.message self.now.sent.items }
    {
        let commands = if is_transfer(&self.message) { 2 } else { 1 };
        self.sent.seen(commands, due_of(&self.message).count)
    }

    /// What is seen of this talk, in the place of what was seen before, and what it came to.
    pub(crate) fn look(&self, seen: &mut TalkCounts) -> Finished
        ensures seen { seen.new ≡ seen_of self.now.message self.now.sent.items }
        ensures block { result.block ≡ block_of self.now.line self.now.message seen.new }
        ensures outcome { result.outcome ≡ outcome_of self.now.message self.now.sent.items }
    {
        let due = due_of(&self.message);
        let commands = if is_transfer(&self.message) { 2 } else { 1 };
        *seen = self.sent.seen(commands, due.count);
        let errors = judged(&self.message, due, seen);
        Finished {
            block: block_with(self, errors, seen),
            outcome: outcome_with(self, due, errors, seen),
        }
    }

    /// The block status word, from what is seen of this talk.
    pub fn block(&self, seen: &TalkCounts) -> u16
        ensures { result ≡ block_of self.now.line self.now.message seen.now }
    {
        block_with(
            self,
            judged(&self.message, due_of(&self.message), seen),
            seen,
        )
    }

    /// Whether this talk failed, whether no reply came that was due, and the status bits that came.
    pub fn outcome(&self) -> Outcome
        ensures { result ≡ outcome_of self.now.message self.now.sent.items }
    {
        self.outcome_by(&self.seen())
    }

    /// The same, from what is seen of this talk.
    pub fn outcome_by(&self, seen: &TalkCounts) -> Outcome
        requires seen { seen.now ≡ seen_of self.now.message self.now.sent.items }
        ensures { result ≡ outcome_of self.now.message self.now.sent.items }
    {
        let due = due_of(&self.message);
        outcome_with(self, due, judged(&self.message, due, seen), seen)
    }
}
