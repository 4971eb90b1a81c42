//! The ranges of a message's numbers: each function answers the number, or the fault where it is out of range.
ghost use Rattle.mil_message.specs.Request.{written};
ghost use Rattle.mil_message.specs.Rules.{is_address, is_subaddress, is_count, is_code_alone, is_code_from, is_code_to};
ghost use Rattle.mil_message.specs.Rules.{is_no_word, is_one_word, mode_word, Meets};
ghost use Rattle.mil_mode.specs.Codes.{last_code};
ghost use Rattle.mil_mode.specs.Table.{data_word_count};
ghost use Rattle.std.specs.Prelude.{⊤, ◌≡◌, ◌==◌, ◌&&◌, nat_le, not, length};

use crate::BadMessage;
use arrayvec::ArrayVec;
use mil_mode::codes::{LAST_CODE, LAST_WITHOUT_WORD};
use mil_mode::data_words as mode_data_words;
use mil_word::fields::{HIGHEST_ADDRESS, HIGHEST_SUBADDRESS, MOST_WORDS};

/// A number within a range, or this fault where it is not.
fn within(number: u32, low: u8, high: u8, fault: BadMessage) -> Result<u8, BadMessage>
    ensures { Meets result (nat_le low number && nat_le number high) (λ n. n ≡ number) fault }
{
    if u32::from(low) <= number && number <= u32::from(high) {
        Ok(number as u8)
    } else {
        Err(fault)
    }
}

/// The address of one terminal: 0 to 30.
pub fn address(number: u32) -> Result<u8, BadMessage>
    ensures { Meets result (is_address number) (λ n. n ≡ number) BadMessage.Address }
{
    within(number, 0, HIGHEST_ADDRESS, BadMessage::Address)
}

/// A subaddress for data: 1 to 30.
pub fn subaddress(number: u32) -> Result<u8, BadMessage>
    ensures { Meets result (is_subaddress number) (λ n. n ≡ number) BadMessage.Subaddress }
{
    within(number, 1, HIGHEST_SUBADDRESS, BadMessage::Subaddress)
}

/// A count of data words: 1 to 32.
pub fn word_count(number: u32) -> Result<u8, BadMessage>
    ensures { Meets result (is_count number) (λ n. n ≡ number) BadMessage.CountOrCode }
{
    within(number, 1, MOST_WORDS, BadMessage::CountOrCode)
}

/// Data words to send: 1 to 32.
pub fn data_words(words: &[u16]) -> Result<ArrayVec<u16, 32>, BadMessage>
    ensures { Meets result (is_count (length words.now)) (λ v. v.items ≡ words.now) BadMessage.CountOrCode }
{
    if words.is_empty() {
        return Err(BadMessage::CountOrCode);
    }
    match ArrayVec::try_from(words) {
        Ok(words) => Ok(words),
        Err(_) => Err(BadMessage::CountOrCode),
    }
}

/// A code that goes without a data word.
pub fn code_alone(code: u32) -> Result<u8, BadMessage>
    ensures { Meets result (is_code_alone code) (λ n. n ≡ code) BadMessage.CountOrCode }
{
    within(code, 0, LAST_WITHOUT_WORD, BadMessage::CountOrCode)
}

/// A code that goes with a data word under this T/R bit.
fn code_with_word(code: u32, transmit: bool) -> Result<u8, BadMessage>
    ensures { Meets result (nat_le code last_code && data_word_count transmit code == 1)
        (λ n. n ≡ code) BadMessage.CountOrCode }
{
    if code <= u32::from(LAST_CODE) && mode_data_words(transmit, code as u8) == 1 {
        Ok(code as u8)
    } else {
        Err(BadMessage::CountOrCode)
    }
}

/// A code with a data word that the terminal sends.
pub fn code_from(code: u32) -> Result<u8, BadMessage>
    ensures { Meets result (is_code_from code) (λ n. n ≡ code) BadMessage.CountOrCode }
{
    code_with_word(code, true)
}

/// A code with a data word that the terminal receives.
pub fn code_to(code: u32) -> Result<u8, BadMessage>
    ensures { Meets result (is_code_to code) (λ n. n ≡ code) BadMessage.CountOrCode }
{
    code_with_word(code, false)
}

/// That no data word is written.
pub fn no_word(words: Option<&[u16]>) -> Result<(), BadMessage>
    ensures { Meets result (is_no_word (written words.entry)) (λ _. ⊤) BadMessage.ModeWord }
{
    match words {
        None => Ok(()),
        Some(_) => Err(BadMessage::ModeWord),
    }
}

/// The one data word that is written.
pub fn one_word(words: Option<&[u16]>) -> Result<u16, BadMessage>
    ensures { Meets result (is_one_word (written words.entry))
        (λ word. word ≡ mode_word (written words.entry)) BadMessage.ModeWord }
{
    match words {
        Some([word]) => Ok(*word),
        _ => Err(BadMessage::ModeWord),
    }
}

/// Both ends of a transfer, which are two.
pub fn ends(sender: u32, receiver: u32) -> Result<(), BadMessage>
    ensures { Meets result (not (sender == receiver)) (λ _. ⊤) BadMessage.SameEnds }
{
    if sender == receiver {
        Err(BadMessage::SameEnds)
    } else {
        Ok(())
    }
}
