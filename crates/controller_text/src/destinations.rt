//! Destinations as words: `rx A S`, `brx S`, `mode A C` and `bmode C`.
ghost use Rattle.controller_host.specs.Destinations.{IsDestination, IsCode};
ghost use Rattle.controller_text.specs.Reading.{number_first, code_first, destination_first};
ghost use Rattle.std.specs.Prelude.{◌≡◌, ◌≤◌, ◌∷◌, [], Ok, Err, IfOk, MatchResult};
ghost use Rattle.text_lines.specs.Words.{words};

use controller_host::Destination;
use mil_host::{BadAction, number_within};
use mil_word::fields::{HIGHEST_ADDRESS, HIGHEST_SUBADDRESS};
use text_lines::next_word;

/// The next word of a text, and what stands behind it; H1 where there is none.
pub(crate) fn next(text: &[u8]) -> Result<(&[u8], &[u8]), BadAction>
    ensures { MatchResult result (λ r. words text.now ≡ r.0.now ∷ words r.1.now)
        (λ e. (words text.now ≡ []) × (e ≡ BadAction.Word)) }
{
    match next_word(text) {
        Some(read) => Ok(read),
        None => Err(BadAction::Word),
    }
}

/// A number of a range as the next word, and what stands behind it.
pub(crate) fn number(text: &[u8], low: u8, high: u8) -> Result<(u8, &[u8]), BadAction>
    ensures value { MatchResult result (λ r. number_first low high (words text.now) ≡ Ok (r.0, words r.1.now))
        (λ e. number_first low high (words text.now) ≡ Err e) }
    ensures range { IfOk result (λ r. (low ≤ r.0) × (r.0 ≤ high)) }
{
    let (word, rest) = next(text)?;
    let number = number_within(word, u16::from(low), u16::from(high))?;
    Ok((number as u8, rest))
}

/// A mode code with a data word that the controller sends as the next word: 17, or 20 to 31.
fn code(text: &[u8]) -> Result<(u8, &[u8]), BadAction>
    ensures value { MatchResult result (λ r. code_first (words text.now) ≡ Ok (r.0, words r.1.now))
        (λ e. code_first (words text.now) ≡ Err e) }
    ensures range { IfOk result (λ r. IsCode r.0) }
{
    let (code, rest) = number(text, 0, 31)?;
    if code < 17 || code == 18 || code == 19 {
        return Err(BadAction::Range);
    }
    Ok((code, rest))
}

/// A destination as the next words, and what stands behind it.
pub(crate) fn destination(text: &[u8]) -> Result<(Destination, &[u8]), BadAction>
    ensures value { MatchResult result (λ r. destination_first (words text.now) ≡ Ok (r.0, words r.1.now))
        (λ e. destination_first (words text.now) ≡ Err e) }
    ensures range { IfOk result (λ r. IsDestination r.0) }
{
    let (word, rest) = next(text)?;
    if word == b"rx".as_slice() {
        let (address, rest) = number(rest, 0, HIGHEST_ADDRESS)?;
        let (subaddress, rest) = number(rest, 1, HIGHEST_SUBADDRESS)?;
        Ok((
            Destination::Terminal {
                address,
                subaddress,
            },
            rest,
        ))
    } else if word == b"brx".as_slice() {
        let (subaddress, rest) = number(rest, 1, HIGHEST_SUBADDRESS)?;
        Ok((Destination::All { subaddress }, rest))
    } else if word == b"mode".as_slice() {
        let (address, rest) = number(rest, 0, HIGHEST_ADDRESS)?;
        let (code, rest) = code(rest)?;
        Ok((Destination::Mode { address, code }, rest))
    } else if word == b"bmode".as_slice() {
        let (code, rest) = code(rest)?;
        Ok((Destination::ModeToAll { code }, rest))
    } else {
        Err(BadAction::Word)
    }
}
