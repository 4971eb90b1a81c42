//! The words of a line, one by one.
ghost use Rattle.job_file.specs.Parts as parts;
ghost use Rattle.job_file.specs.declared.error.LineFault.TheVariants.{Word as BadWord};
ghost use Rattle.std.specs.Prelude.{◌≡◌, IfErr};
ghost use Rattle.text_lines.specs.Readings.{IsOkOption};
ghost use Rattle.text_lines.specs.Words.{words};

use crate::error::LineFault;
use text_lines::next_word;

/// The first word, and what comes after it.
pub fn first_word(text: &[u8]) -> Result<(&[u8], &[u8]), LineFault>
    ensures value { IsOkOption (λ x. (x.0.now, words x.1.now)) result (parts.first (words text.now)) }
    ensures words { IfErr result (λ f. f ≡ BadWord) }
{
    match next_word(text) {
        Some(split) => Ok(split),
        None => Err(LineFault::Word),
    }
}

/// No word is left.
pub fn end(text: &[u8]) -> Result<(), LineFault>
    ensures value { IsOkOption (λ x. x) result (parts.ended (words text.now) tt) }
    ensures words { IfErr result (λ f. f ≡ BadWord) }
{
    match next_word(text) {
        Some(_) => Err(LineFault::Word),
        None => Ok(()),
    }
}

/// The only word.
#[tactic(auto, unfolding(crate::specs::Parts::one))]
pub fn one_word(text: &[u8]) -> Result<&[u8], LineFault>
    ensures value { IsOkOption (λ x. x.now) result (parts.one (words text.now)) }
    ensures words { IfErr result (λ f. f ≡ BadWord) }
{
    let (word, rest) = first_word(text)?;
    end(rest)?;
    Ok(word)
}

/// The only two words.
#[tactic(auto, unfolding(crate::specs::Parts::two))]
pub fn two_words(text: &[u8]) -> Result<(&[u8], &[u8]), LineFault>
    ensures value { IsOkOption (λ x. (x.0.now, x.1.now)) result (parts.two (words text.now)) }
    ensures words { IfErr result (λ f. f ≡ BadWord) }
{
    let (first, rest) = first_word(text)?;
    let second = one_word(rest)?;
    Ok((first, second))
}

/// The only three words.
#[tactic(auto, unfolding(crate::specs::Parts::three))]
pub fn three_words(text: &[u8]) -> Result<(&[u8], &[u8], &[u8]), LineFault>
    ensures value { IsOkOption (λ x. (x.0.now, x.1.now, x.2.now)) result (parts.three (words text.now)) }
    ensures words { IfErr result (λ f. f ≡ BadWord) }
{
    let (first, rest) = first_word(text)?;
    let (second, third) = two_words(rest)?;
    Ok((first, second, third))
}

/// The only four words.
#[tactic(auto, unfolding(crate::specs::Parts::four))]
pub fn four_words(text: &[u8]) -> Result<(&[u8], &[u8], &[u8], &[u8]), LineFault>
    ensures value { IsOkOption (λ x. (x.0.now, x.1.now, x.2.now, x.3.now)) result (parts.four (words text.now)) }
    ensures words { IfErr result (λ f. f ≡ BadWord) }
{
    let (first, rest) = first_word(text)?;
    let (second, third, fourth) = three_words(rest)?;
    Ok((first, second, third, fourth))
}

/// The first three words, and what comes after them.
#[tactic(auto, unfolding(crate::specs::Parts::front))]
pub fn front(text: &[u8]) -> Result<(&[u8], &[u8], &[u8], &[u8]), LineFault>
    ensures value { IsOkOption (λ x. ((x.0.now, x.1.now, x.2.now), words x.3.now)) result
        (parts.front (words text.now)) }
    ensures words { IfErr result (λ f. f ≡ BadWord) }
{
    let (first, rest) = first_word(text)?;
    let (second, rest) = first_word(rest)?;
    let (third, rest) = first_word(rest)?;
    Ok((first, second, third, rest))
}
