//! Numbers in the lines of a job.
ghost use Rattle.job_file.specs.Numbers.{number_within, half_bits_of, start_of};
ghost use Rattle.job_file.specs.declared.error.LineFault.TheVariants.{Number};
ghost use Rattle.numerals.specs.Numerals.{data_word_of, number_of, spelled};
ghost use Rattle.std.specs.Prelude.{◌≡◌, ◌≤◌, ◌<◌, ◌^◌, IfOk, IfErr};
ghost use Rattle.text_lines.specs.Readings.{IsOkOption};

use crate::error::LineFault;
use mil_word::Wave;
use numerals::spelled;

/// The number that a word of `least` to `most` digits in a base spells.
fn read(base: u8, least: usize, most: usize, word: &[u8]) -> Result<u64, LineFault>
    requires base { base ≤ 16 }
    requires few { most ≤ 15 }
    ensures value { IsOkOption (λ n. n) result (spelled base least most word.now) }
    ensures small { IfOk result (λ n. n < 16 ^ most) }
    ensures fault { IfErr result (λ f. f ≡ Number) }
{
    spelled(base, least, most, word).ok_or(LineFault::Number)
}

/// A number of one to seven decimal digits.
pub fn number(word: &[u8]) -> Result<u32, LineFault>
    ensures value { IsOkOption (λ n. n) result (number_of word.now) }
    ensures fault { IfErr result (λ f. f ≡ Number) }
{
    let value = read(10, 1, 7, word)?;
    Ok(value as u32)
}

/// A number of one to seven decimal digits, from `low` to `high`.
pub fn number_within(word: &[u8], low: u32, high: u32) -> Result<u32, LineFault>
    ensures value { IsOkOption (λ n. n) result (number_within low high word.now) }
    ensures low { IfOk result (λ n. low ≤ n) }
    ensures high { IfOk result (λ n. n ≤ high) }
    ensures fault { IfErr result (λ f. f ≡ Number) }
{
    let value = number(word)?;
    if low <= value && value <= high {
        Ok(value)
    } else {
        Err(LineFault::Number)
    }
}

/// A start tick: one to fifteen decimal digits, at most 2^47.
pub fn start_tick(word: &[u8]) -> Result<u64, LineFault>
    ensures value { IsOkOption (λ n. n) result (start_of word.now) }
    ensures high { IfOk result (λ n. n ≤ 140737488355328) }
    ensures fault { IfErr result (λ f. f ≡ Number) }
{
    let value = read(10, 1, 15, word)?;
    if value <= 140_737_488_355_328 {
        Ok(value)
    } else {
        Err(LineFault::Number)
    }
}

/// A data word of four hexadecimal digits.
pub fn data_word(word: &[u8]) -> Result<u16, LineFault>
    ensures value { IsOkOption (λ n. n) result (data_word_of word.now) }
    ensures fault { IfErr result (λ f. f ≡ Number) }
{
    let value = read(16, 4, 4, word)?;
    Ok(value as u16)
}

/// Forty half bits as ten hexadecimal digits.
pub fn half_bits(word: &[u8]) -> Result<Wave, LineFault>
    ensures value { IsOkOption (λ n. n) result (half_bits_of word.now) }
    ensures fault { IfErr result (λ f. f ≡ Number) }
{
    let value = read(16, 10, 10, word)?;
    Ok(Wave::of(value))
}
