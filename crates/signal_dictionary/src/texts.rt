//! Names, labels and units.
ghost use Rattle.signal_dictionary.specs.Texts as spec;
ghost use Rattle.std.specs.List.{list_all};
ghost use Rattle.std.specs.Prelude.{◌≡◌, ◌<◌, drop, length, IfOk, IfErr};

use arrayvec::ArrayVec;
use judge_rules::{RuleFault, ended};
use text_lines::Words;

/// The longest name, in bytes.
const MOST_OF_NAME: usize = 32;
/// The longest label and the longest unit, in bytes.
const MOST_OF_LABEL: usize = 16;

/// The name of a signal: 1 to 32 letters, digits, `_` and `.`, of which the first is a letter.
#[derive(Debug, Drop, PartialEq, Eq)]
pub struct Name {
    pub bytes: ArrayVec<u8, 32>,
}

/// What a number of a signal is called: 1 to 16 letters, digits, `_`, `.` and `-`.
#[derive(Debug, Default, Drop, PartialEq, Eq)]
pub struct Label {
    pub bytes: ArrayVec<u8, 16>,
}

/// The unit of a signal: 1 to 16 printable characters but space, comma and quote; nothing where it has none.
#[derive(Debug, Drop, PartialEq, Eq)]
pub struct Unit {
    pub bytes: ArrayVec<u8, 16>,
}

fn is_letter(byte: u8) -> bool
    ensures { result ≡ spec.is_letter byte }
{
    65 <= byte && byte <= 90 || 97 <= byte && byte <= 122
}

fn is_digit(byte: u8) -> bool
    ensures { result ≡ spec.is_digit byte }
{
    48 <= byte && byte <= 57
}

/// A byte of a name.
fn is_of_name(byte: u8) -> bool
    ensures { result ≡ spec.is_of_name byte }
{
    is_letter(byte) || is_digit(byte) || byte == b'_' || byte == b'.'
}

/// A byte of a label.
fn is_of_label(byte: u8) -> bool
    ensures { result ≡ spec.is_of_label byte }
{
    is_of_name(byte) || byte == b'-'
}

/// A byte of a unit.
fn is_of_unit(byte: u8) -> bool
    ensures { result ≡ spec.is_of_unit byte }
{
    33 <= byte && byte <= 126 && byte != b',' && byte != b'"'
}

fn all_of_name(word: &[u8]) -> bool
    ensures { result ≡ list_all spec.is_of_name word.now }
{
    word.iter().all(|byte| is_of_name(*byte))
}

fn all_of_label(word: &[u8]) -> bool
    ensures { result ≡ list_all spec.is_of_label word.now }
{
    word.iter().all(|byte| is_of_label(*byte))
}

fn all_of_unit(word: &[u8]) -> bool
    ensures { result ≡ list_all spec.is_of_unit word.now }
{
    word.iter().all(|byte| is_of_unit(*byte))
}

/// Whether a word begins with a letter.
fn starts_with_letter(word: &[u8]) -> bool
    ensures { result ≡ spec.starts_with_letter word.now }
{
    match word.first() {
        Some(byte) => is_letter(*byte),
        None => false,
    }
}

/// Whether a word is the name of a signal: 1 to 32 letters, digits, `_` and `.`, of which the first is a letter.
pub fn is_name(word: &[u8]) -> bool
    ensures { result ≡ spec.is_name word.now }
{
    starts_with_letter(word) && word.len() <= MOST_OF_NAME && all_of_name(word)
}

/// Whether a word is a label: 1 to 16 letters, digits, `_`, `.` and `-`.
pub fn is_label(word: &[u8]) -> bool
    ensures { result ≡ spec.is_label word.now }
{
    1 <= word.len() && word.len() <= MOST_OF_LABEL && all_of_label(word)
}

/// Whether a word is a unit: 1 to 16 printable characters but space, comma and quote.
pub fn is_unit(word: &[u8]) -> bool
    ensures { result ≡ spec.is_unit word.now }
{
    1 <= word.len() && word.len() <= MOST_OF_LABEL && all_of_unit(word)
}

/// The bytes of a word; a fault of a word where there is no room for them.
fn bytes_of<const N: usize>(word: &[u8]) -> Result<ArrayVec<u8, N>, RuleFault>
    ensures bytes { IfOk result (λ bytes. bytes.items ≡ word.now) }
    ensures long { IfErr result (λ fault. (fault ≡ RuleFault.Word) × (N < length word.now)) }
{
    match ArrayVec::try_from(word) {
        Ok(bytes) => Ok(bytes),
        Err(_) => Err(RuleFault::Word),
    }
}

/// The name that a word is.
fn name_of(word: &[u8]) -> Result<Name, RuleFault>
    ensures { result ≡ spec.name_of word.now }
{
    if !is_name(word) {
        return Err(RuleFault::Word);
    }
    let bytes = bytes_of(word)?;
    Ok(Name { bytes })
}

/// A name as the next word.
pub(crate) fn read_name(words: &mut Words<'_>) -> Result<Name, RuleFault>
    ensures value { result ≡ spec.name_in words.old }
    ensures rest { words.new ≡ drop 1 words.old }
{
    match words.next() {
        Some(word) => name_of(word),
        None => Err(RuleFault::Word),
    }
}

/// The label that a word is; else a fault of a word.
pub fn label_of(word: &[u8]) -> Result<Label, RuleFault>
    ensures { result ≡ spec.label_of word.now }
{
    if !is_label(word) {
        return Err(RuleFault::Word);
    }
    let bytes = bytes_of(word)?;
    Ok(Label { bytes })
}

/// The unit that a word is.
fn unit_of(word: &[u8]) -> Result<Unit, RuleFault>
    ensures { result ≡ spec.unit_of word.now }
{
    if !is_unit(word) {
        return Err(RuleFault::Word);
    }
    let bytes = bytes_of(word)?;
    Ok(Unit { bytes })
}

/// No unit.
pub(crate) fn no_unit() -> Unit
    ensures { result ≡ spec.no_unit }
{
    Unit {
        bytes: ArrayVec::new(),
    }
}

/// The unit that stands behind its word, as the last word.
fn read_last(words: &mut Words<'_>) -> Result<Unit, RuleFault>
    ensures { result ≡ spec.last_unit words.old }
{
    let unit = match words.next() {
        Some(word) => unit_of(word),
        None => Err(RuleFault::Word),
    };
    ended(words, unit)
}

/// The unit that this word and those that are left spell, and no more.
pub(crate) fn unit_from(first: &[u8], words: &mut Words<'_>) -> Result<Unit, RuleFault>
    ensures { result ≡ spec.unit_from first.now words.old }
{
    if first == b"unit".as_slice() {
        read_last(words)
    } else {
        Err(RuleFault::Word)
    }
}

/// The unit, if the words that are left have one, and no more.
pub(crate) fn read_unit(words: &mut Words<'_>) -> Result<Unit, RuleFault>
    ensures { result ≡ spec.unit_in words.old }
{
    match words.next() {
        Some(first) => unit_from(first, words),
        None => Ok(no_unit()),
    }
}
