//! The kinds of messages that a rule counts.
ghost use Rattle.judge_rules.specs.Kinds as spec;
ghost use Rattle.std.specs.Prelude.{◌≡◌, drop};

use crate::fault::RuleFault;
use crate::rules::Kind;
use crate::words::ended;
use text_lines::{Words, meaning};

/// The name of each kind; a bit of the block status word has the name that `bench dump --decode` shows it by.
const KINDS: [(&[u8], Kind); 11] = [
    (b"ok", Kind::Sound),
    (b"fail", Kind::Failed),
    (b"clean", Kind::Clean),
    (b"silent", Kind::Silent),
    (b"message_error", Kind::MessageError),
    (b"terminal_to_terminal", Kind::TerminalToTerminal),
    (b"format_error", Kind::FormatError),
    (b"response_timeout", Kind::ResponseTimeout),
    (b"word_count_error", Kind::WordCountError),
    (b"sync_type_error", Kind::SyncTypeError),
    (b"invalid_word_error", Kind::InvalidWordError),
];

/// The kind that a word names.
#[tactic(auto, unfolding(crate::specs::Kinds::kind_named))]
fn kind_named(word: &[u8]) -> Option<Kind>
    ensures { result ≡ spec.kind_named word.now }
{
    meaning(&KINDS, word)
}

/// A kind as the next word.
fn read_kind(words: &mut Words<'_>) -> Result<Kind, RuleFault>
    ensures value { result ≡ spec.kind_in words.old }
    ensures rest { words.new ≡ drop 1 words.old }
{
    let Some(word) = words.next() else {
        return Err(RuleFault::Word);
    };
    match kind_named(word) {
        Some(kind) => Ok(kind),
        None => Err(RuleFault::Word),
    }
}

/// The kind that is counted, where the words name one, and no more.
pub(crate) fn read_counted(words: &mut Words<'_>) -> Result<Option<Kind>, RuleFault>
    ensures { result ≡ spec.counted_in words.old }
{
    if !words.takes(b"of") {
        return ended(words, Ok(None));
    }
    let kind = read_kind(words);
    match ended(words, kind) {
        Ok(kind) => Ok(Some(kind)),
        Err(fault) => Err(fault),
    }
}
