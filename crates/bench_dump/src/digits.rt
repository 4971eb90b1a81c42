//! Digits, written two at a time at a place of a buffer that has room for them.
ghost use Rattle.bench_dump.specs.DumpText.{byte_digits};
ghost use Rattle.bench_dump.specs.Places.{IsPutInBuffer, eight_digits, four_digits, two_digits};
ghost use Rattle.std.specs.Prelude.{◌≡◌, ℕ, ◌+◌, ◌<◌, ◌≤◌, ◌^◌, List, length, decimal};

/// The two upper-case hexadecimal digits of each byte.
static HEXADECIMAL: [u8; 512] =
    *b"000102030405060708090A0B0C0D0E0F101112131415161718191A1B1C1D1E1F202122232425262728292A2B2C2D2E2F\
     303132333435363738393A3B3C3D3E3F404142434445464748494A4B4C4D4E4F505152535455565758595A5B5C5D5E5F\
     606162636465666768696A6B6C6D6E6F707172737475767778797A7B7C7D7E7F808182838485868788898A8B8C8D8E8F\
     909192939495969798999A9B9C9D9E9FA0A1A2A3A4A5A6A7A8A9AAABACADAEAFB0B1B2B3B4B5B6B7B8B9BABBBCBDBEBF\
     C0C1C2C3C4C5C6C7C8C9CACBCCCDCECFD0D1D2D3D4D5D6D7D8D9DADBDCDDDEDFE0E1E2E3E4E5E6E7E8E9EAEBECEDEEEF\
     F0F1F2F3F4F5F6F7F8F9FAFBFCFDFEFF";

/// The two decimal digits of each number below 100.
static DECIMAL: [u8; 200] =
    *b"000102030405060708091011121314151617181920212223242526272829303132333435363738394041424344454647\
     484950515253545556575859606162636465666768697071727374757677787980818283848586878889909192939495\
     96979899";

/// Places a byte as two hexadecimal digits.
#[inline(always)]
pub(crate) fn place_byte(buffer: &mut [u8], at: usize, byte: u8) -> usize
    requires { at + 2 ≤ length buffer.old }
    ensures placed { IsPutInBuffer buffer.old buffer.new at (byte_digits byte) result }
    ensures end { result ≡ at + 2 }
{
    let from = byte as usize * 2;
    let (first, second) = (HEXADECIMAL[from], HEXADECIMAL[from + 1]);
    buffer[at] = first;
    buffer[at + 1] = second;
    at + 2
}

/// So many decimal digits of a number, in a buffer that has room for them.
trait Digits {
    // How many, and those of a number that has noughts in front where it has fewer.
    ghost count: { ℕ };

    ghost padded: { ℕ → List ℕ };

    /// Places a number with noughts in front.
    fn place_padded(buffer: &mut [u8], at: usize, number: u32) -> usize
        requires small { number < 10 ^ count }
        requires room { at + count ≤ length buffer.old }
        ensures placed { IsPutInBuffer buffer.old buffer.new at (padded number) result }
        ensures end { result ≡ at + count };

    /// Places a number without noughts in front, in one digit at least.
    fn place(buffer: &mut [u8], at: usize, number: u32) -> usize
        requires small { number < 10 ^ count }
        requires room { at + count ≤ length buffer.old }
        ensures placed { IsPutInBuffer buffer.old buffer.new at (decimal number) result }
        ensures few { result ≤ at + count };
}

/// Numbers below 100.
struct Two;

impl Digits for Two {
    ghost count = { 2 };

    ghost padded = { two_digits };

    #[inline(always)]
    fn place_padded(buffer: &mut [u8], at: usize, number: u32) -> usize {
        let from = number as usize * 2;
        let (first, second) = (DECIMAL[from], DECIMAL[from + 1]);
        buffer[at] = first;
        buffer[at + 1] = second;
        at + 2
    }

    #[inline(always)]
    fn place(buffer: &mut [u8], at: usize, number: u32) -> usize {
        if number < 10 {
            buffer[at] = b'0' + number as u8;
            return at + 1;
        }
        Two::place_padded(buffer, at, number)
    }
}

/// Numbers below 10,000.
struct Four;

impl Digits for Four {
    ghost count = { 4 };

    ghost padded = { four_digits };

    #[inline(always)]
    fn place_padded(buffer: &mut [u8], at: usize, number: u32) -> usize {
        let middle = Two::place_padded(buffer, at, number / 100);
        Two::place_padded(buffer, middle, number % 100)
    }

    #[inline(always)]
    fn place(buffer: &mut [u8], at: usize, number: u32) -> usize {
        if number < 100 {
            return Two::place(buffer, at, number);
        }
        let middle = Two::place(buffer, at, number / 100);
        Two::place_padded(buffer, middle, number % 100)
    }
}

/// Numbers below 100,000,000.
struct Eight;

impl Digits for Eight {
    ghost count = { 8 };

    ghost padded = { eight_digits };

    #[inline(always)]
    fn place_padded(buffer: &mut [u8], at: usize, number: u32) -> usize {
        let middle = Four::place_padded(buffer, at, number / 10_000);
        Four::place_padded(buffer, middle, number % 10_000)
    }

    #[inline(always)]
    fn place(buffer: &mut [u8], at: usize, number: u32) -> usize {
        if number < 10_000 {
            return Four::place(buffer, at, number);
        }
        let middle = Four::place(buffer, at, number / 10_000);
        Four::place_padded(buffer, middle, number % 10_000)
    }
}

/// Places what stands before the last eight digits of a number.
#[inline(always)]
fn place_high(buffer: &mut [u8], at: usize, number: u64) -> usize
    requires small { number < 1000000000000 }
    requires room { at + 12 ≤ length buffer.old }
    ensures placed { IsPutInBuffer buffer.old buffer.new at (decimal number) result }
    ensures few { result ≤ at + 12 }
{
    if number < 100_000_000 {
        return Eight::place(buffer, at, number as u32);
    }
    let middle = Four::place(buffer, at, (number / 100_000_000) as u32);
    Eight::place_padded(buffer, middle, (number % 100_000_000) as u32)
}

/// Places a number in one to twenty digits in a buffer that has room for twenty, and answers where they end. What
/// stands behind the end may be overwritten.
#[inline]
pub fn place_decimal(buffer: &mut [u8], at: usize, number: u64) -> usize
    requires { at + 20 ≤ length buffer.old }
    ensures placed { IsPutInBuffer buffer.old buffer.new at (decimal number) result }
    ensures few { result ≤ at + 20 }
{
    if number < 100_000_000 {
        return Eight::place(buffer, at, number as u32);
    }
    let middle = place_high(buffer, at, number / 100_000_000);
    Eight::place_padded(buffer, middle, (number % 100_000_000) as u32)
}
