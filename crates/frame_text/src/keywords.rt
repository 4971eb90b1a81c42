//! The words that the grammar knows, by where they stand.

ghost use Rattle.frame_text.specs.Conditions as conditions;
ghost use Rattle.frame_text.specs.Frames as frames;
ghost use Rattle.frame_text.specs.Messages as messages;
ghost use Rattle.frame_text.specs.Reading as reading;
ghost use Rattle.frame_text.specs.Tokens as tokens_of;
ghost use Rattle.std.specs.Prelude.{◌≡◌};

use crate::faults::Cause;
use ConditionWord::{All, Any, Bit, Fail, NoCondition, Not, Silent};
use FrameWord::{Call, Gap, If, NoFrame, Repeat, Retry, Send, Timed, Until};
use MessageWord::{
    Mode, ModeAll, ModeZero, ModeZeroAll, NoMessage, Receive, ReceiveAll, Transfer, TransferAll,
    Transmit,
};
use text_lines::meaning;

/// The word that a message begins with.
#[derive(Clone, Copy)]
pub enum MessageWord {
    Receive,
    Transmit,
    Transfer,
    Mode,
    ModeZero,
    ReceiveAll,
    TransferAll,
    ModeAll,
    ModeZeroAll,
    NoMessage,
}

/// The word that a condition begins with.
#[derive(Clone, Copy)]
pub enum ConditionWord {
    Fail,
    Silent,
    Bit,
    Not,
    All,
    Any,
    NoCondition,
}

/// The word that a frame begins with.
#[derive(Clone, Copy)]
pub enum FrameWord {
    Send,
    Retry,
    Gap,
    Repeat,
    If,
    Until,
    Timed,
    Call,
    NoFrame,
}

/// Whether two tokens are the same.
pub fn is(word: &[u8], text: &[u8]) -> bool
    ensures { result ≡ reading.same_bytes word.now text.now }
{
    word == text
}

/// The fault of a token that may not stand where it does.
pub fn misplaced(word: &[u8]) -> Cause
    ensures { result ≡ reading.misplaced word.now }
{
    if is_word(word) || is_bracket(word) {
        Cause::Token
    } else {
        Cause::Byte
    }
}

/// Whether a byte is a letter, a digit or `_`.
pub fn is_word_byte(b: u8) -> bool
    ensures { result ≡ tokens_of.in_word b }
{
    b.is_ascii_digit() || b.is_ascii_uppercase() || b == b'_' || b.is_ascii_lowercase()
}

/// Whether a token is a word.
pub fn is_word(word: &[u8]) -> bool
    ensures { result ≡ reading.is_word word.now }
{
    match word.split_first() {
        Some((first, _)) => is_word_byte(*first),
        None => false,
    }
}

fn is_bracket(word: &[u8]) -> bool
    ensures { result ≡ reading.is_bracket word.now }
{
    is(word, b"{")
        || is(word, b"}")
        || is(word, b"(")
        || is(word, b")")
        || is(word, b"[")
        || is(word, b"]")
}

// What each of these words is at the beginning of a message.
const MESSAGE_WORDS: [(&[u8], MessageWord); 9] = [
    (b"rx", Receive),
    (b"tx", Transmit),
    (b"rt", Transfer),
    (b"mode", Mode),
    (b"mode0", ModeZero),
    (b"brx", ReceiveAll),
    (b"brt", TransferAll),
    (b"bmode", ModeAll),
    (b"bmode0", ModeZeroAll),
];

// What each of these words is at the beginning of a condition.
const CONDITION_WORDS: [(&[u8], ConditionWord); 6] = [
    (b"fail", Fail),
    (b"silent", Silent),
    (b"bit", Bit),
    (b"not", Not),
    (b"all", All),
    (b"any", Any),
];

// What each of these words is at the beginning of a frame.
const FRAME_WORDS: [(&[u8], FrameWord); 8] = [
    (b"send", Send),
    (b"retry", Retry),
    (b"gap", Gap),
    (b"repeat", Repeat),
    (b"if", If),
    (b"until", Until),
    (b"frame", Timed),
    (b"call", Call),
];

/// What a message may begin with.
#[tactic(auto, unfolding(crate::specs::Messages::message_word))]
pub fn message_word(word: &[u8]) -> MessageWord
    ensures { result ≡ messages.message_word word.now }
{
    meaning(&MESSAGE_WORDS, word).unwrap_or(NoMessage)
}

/// What a condition may begin with.
#[tactic(auto, unfolding(crate::specs::Conditions::condition_word))]
pub fn condition_word(word: &[u8]) -> ConditionWord
    ensures { result ≡ conditions.condition_word word.now }
{
    meaning(&CONDITION_WORDS, word).unwrap_or(NoCondition)
}

/// What a frame may begin with.
#[tactic(auto, unfolding(crate::specs::Frames::frame_word))]
pub fn frame_word(word: &[u8]) -> FrameWord
    ensures { result ≡ frames.frame_word word.now }
{
    meaning(&FRAME_WORDS, word).unwrap_or(NoFrame)
}
