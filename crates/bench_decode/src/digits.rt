//! Decimal digits, eight at a time: each in a byte of its own of one number, the first digit lowest. And the
//! hexadecimal digits of a word.
ghost use Rattle.bench_decode.specs.Columns.{right};
ghost use Rattle.bench_decode.specs.Digits.{IsLedBy, eight_noughts, ones, packed};
ghost use Rattle.bench_decode.specs.Times.{decimals_text};
ghost use Rattle.bench_dump.specs.DumpText.{word_digits};
ghost use Rattle.signal_values.specs.Texts.{digits_of};
ghost use Rattle.std.specs.Prelude.{◌≡◌, ℕ, ◌+◌, ◌-◌, ◌/◌, ◌%◌, ◌*◌, ◌<◌, ◌≤◌, ◌^◌, decimal, length, take};

use crate::times::{SECOND, Time};

const HEXADECIMAL: [u8; 16] = *b"0123456789ABCDEF";

/// The digit 0 in each byte, and the same with a point in the first one.
const NOUGHTS: u64 = 0x3030_3030_3030_3030;

const POINT: u64 = 0x3030_3030_3030_302E;

/// The digit 9 in each byte, less that of 0.
const GREATEST: u64 = 0x0909_0909_0909_0909;

/// Of two numbers below 10,000, side by side, the hundreds and the rest of each, by a product for the quotient by 100.
#[inline(always)]
fn split_hundreds(fours: u64) -> u64
    ensures { (a b : ℕ) → a < 10000 → b < 10000 → fours ≡ a + b * 4294967296
        → result ≡ a / 100 + a % 100 * 65536 + b / 100 * 4294967296 + b % 100 * 281474976710656 }
{
    let hundreds = fours.wrapping_mul(10_486) >> 20 & 0x0000_007F_0000_007F;
    let rests = fours.wrapping_sub(hundreds.wrapping_mul(100));
    hundreds.wrapping_add(rests << 16)
}

/// Of four numbers below 100, side by side, the tens and the rest of each, by a product for the quotient by 10.
#[inline(always)]
fn split_tens(twos: u64) -> u64
    ensures { (p q r s : ℕ) → p < 100 → q < 100 → r < 100 → s < 100
        → twos ≡ p + q * 65536 + r * 4294967296 + s * 281474976710656 → result
        ≡ p / 10 + p % 10 * 256 + (q / 10 + q % 10 * 256) * 65536 + (r / 10 + r % 10 * 256) * 4294967296
        + (s / 10 + s % 10 * 256) * 281474976710656 }
{
    let tens = twos.wrapping_mul(103) >> 10 & 0x000F_000F_000F_000F;
    let rests = twos.wrapping_sub(tens.wrapping_mul(10));
    tens.wrapping_add(rests << 8)
}

/// The digits of a number below 100,000,000. Numbers of four, two and one digit are split in half side by side.
#[inline(always)]
fn eight_digits(number: u32) -> u64
    requires { number < 100000000 }
    ensures digits { result + eight_noughts ≡ packed (digits_of 8 number) }
    ensures small { result ≤ GREATEST }
{
    let fours = u64::from(number / 10_000) + (u64::from(number % 10_000) << 32);
    split_tens(split_hundreds(fours))
}

/// How many bits the noughts in front of a number's digits have, but for the eighth.
#[inline(always)]
fn leading_bits(digits: u64) -> u32
    requires { digits ≤ GREATEST }
    ensures { (n z : ℕ) → digits + eight_noughts ≡ packed (digits_of 8 n) → IsLedBy n z → result ≡ z * 8 }
{
    (digits + (1 << 56)).trailing_zeros() / 8 * 8
}

/// What noughts are more than spaces, in as many bytes as have so many bits.
#[inline(always)]
fn blanks_of(bits: u32) -> u64
    ensures { (z : ℕ) → z ≤ 7 → bits ≡ z * 8 → result ≡ 16 * ones z }
{
    1u64.wrapping_shl(bits).wrapping_sub(1) & 0x1010_1010_1010_1010
}

/// A number below 100,000,000 in eight columns, with spaces in front, of which the first so many columns are left out,
/// at most two; behind it stand as many bytes of no meaning.
#[inline(always)]
pub(crate) fn in_columns(number: u32, left_out: u32) -> [u8; 8]
    requires few { left_out ≤ 2 }
    requires small { number < 10 ^ (8 - left_out) }
    ensures text { take (8 - left_out) result ≡ right (8 - left_out) (decimal number) }
    ensures many { length result ≡ 8 }
{
    let digits = eight_digits(number);
    let blanks = blanks_of(leading_bits(digits));
    let text = (digits + NOUGHTS).wrapping_sub(blanks);
    (text >> left_out * 8).to_le_bytes()
}

/// The point and the seven decimals of a time in seconds.
#[inline(always)]
pub(crate) fn decimals_of(time: Time) -> [u8; 8]
    requires { time.ticks < SECOND }
    ensures { result ≡ decimals_text time.ticks }
{
    (eight_digits(time.ticks as u32) + POINT).to_le_bytes()
}

/// The four hexadecimal digits of a word.
#[inline(always)]
pub(crate) fn digits_of_word(word: u16) -> [u8; 4]
    ensures { result ≡ word_digits word }
{
    [
        HEXADECIMAL[(word / 4096) as usize],
        HEXADECIMAL[(word / 256 % 16) as usize],
        HEXADECIMAL[(word / 16 % 16) as usize],
        HEXADECIMAL[(word % 16) as usize],
    ]
}
