//! The selector of a rule.
ghost use Rattle.judge_rules.specs.Selectors as spec;
ghost use Rattle.std.specs.Prelude.{◌≡◌, drop};

use crate::fault::{RuleFault, both};
use crate::rules::Selector;
use crate::values::read_choice;
use crate::words::ended;
use mil_mode::codes::LAST_CODE;
use mil_word::fields::{HIGHEST_ADDRESS, HIGHEST_SUBADDRESS};
use text_lines::Words;

fn read_address(words: &mut Words<'_>) -> Result<Option<u8>, RuleFault>
    ensures value { result ≡ spec.address_in words.old }
    ensures rest { words.new ≡ drop 1 words.old }
{
    read_choice(words, 0, HIGHEST_ADDRESS)
}

fn read_subaddress(words: &mut Words<'_>) -> Result<Option<u8>, RuleFault>
    ensures value { result ≡ spec.subaddress_in words.old }
    ensures rest { words.new ≡ drop 1 words.old }
{
    read_choice(words, 1, HIGHEST_SUBADDRESS)
}

fn read_code(words: &mut Words<'_>) -> Result<Option<u8>, RuleFault>
    ensures value { result ≡ spec.code_in words.old }
    ensures rest { words.new ≡ drop 1 words.old }
{
    read_choice(words, 0, LAST_CODE)
}

/// An address and a subaddress: one end of a transfer.
fn read_end(words: &mut Words<'_>) -> Result<(Option<u8>, Option<u8>), RuleFault>
    ensures value { result ≡ spec.end_in words.old }
    ensures rest { words.new ≡ drop 2 words.old }
{
    let address = read_address(words);
    let subaddress = read_subaddress(words);
    both(address, subaddress)
}

#[tactic(auto, unfolding(crate::specs::Selectors::between_in, crate::specs::Selectors::behind_ends))]
fn read_between(words: &mut Words<'_>) -> Result<Selector, RuleFault>
    ensures value { result ≡ spec.between_in words.old }
    ensures rest { words.new ≡ spec.behind_ends words.old }
{
    let from = read_end(words);
    let to = read_end(words);
    let ((sender, sender_subaddress), (receiver, receiver_subaddress)) = both(from, to)?;
    Ok(Selector::Between {
        sender,
        sender_subaddress,
        receiver,
        receiver_subaddress,
    })
}

fn read_mode(words: &mut Words<'_>) -> Result<Selector, RuleFault>
    ensures value { result ≡ spec.mode_in words.old }
    ensures rest { words.new ≡ drop 2 words.old }
{
    let address = read_address(words);
    let code = read_code(words);
    let (address, code) = both(address, code)?;
    Ok(Selector::Mode { address, code })
}

fn read_between_all(words: &mut Words<'_>) -> Result<Selector, RuleFault>
    ensures value { result ≡ spec.between_all_in words.old }
    ensures rest { words.new ≡ drop 3 words.old }
{
    let from = read_end(words);
    let to = read_subaddress(words);
    let ((sender, sender_subaddress), receiver_subaddress) = both(from, to)?;
    Ok(Selector::BetweenAll {
        sender,
        sender_subaddress,
        receiver_subaddress,
    })
}

/// The selector that the next words spell.
pub fn read_selector(words: &mut Words<'_>) -> Result<Selector, RuleFault>
    ensures value { result ≡ spec.selector_in words.old }
    ensures rest { words.new ≡ spec.behind_selector words.old }
{
    let Some(name) = words.next() else {
        return Err(RuleFault::Word);
    };
    if name == b"any".as_slice() {
        Ok(Selector::Any)
    } else if name == b"rx".as_slice() {
        let (address, subaddress) = read_end(words)?;
        Ok(Selector::Receive {
            address,
            subaddress,
        })
    } else if name == b"tx".as_slice() {
        let (address, subaddress) = read_end(words)?;
        Ok(Selector::Transmit {
            address,
            subaddress,
        })
    } else if name == b"rt".as_slice() {
        read_between(words)
    } else if name == b"mode".as_slice() {
        read_mode(words)
    } else if name == b"brx".as_slice() {
        let subaddress = read_subaddress(words)?;
        Ok(Selector::ReceiveAll { subaddress })
    } else if name == b"brt".as_slice() {
        read_between_all(words)
    } else if name == b"bmode".as_slice() {
        let code = read_code(words)?;
        Ok(Selector::ModeAll { code })
    } else {
        Err(RuleFault::Word)
    }
}

/// The selector that a text spells, in the words of a rule and no others, as `tx 5 3` or `rt * * 7 *`. Else its fault:
/// a word that does not stand there, is missing or is left over before what is no number, and that before a number out
/// of its range.
pub fn selector_of(text: &[u8]) -> Result<Selector, RuleFault>
    ensures { result ≡ spec.selector_of text.now }
{
    let mut words = Words::of(text);
    let selector = read_selector(&mut words);
    ended(&mut words, selector)
}
