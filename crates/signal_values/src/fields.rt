//! The bits of data words that a signal names.
ghost use Rattle.signal_values.specs.Fields as spec;
ghost use Rattle.std.specs.Prelude.{◌≡◌, ◌≤◌};

/// The bits from the upper one to the lower one of a word, bit 0 being the last, as a number. Condition: they are bits
/// of a word, in this order.
pub fn bits_of(word: u16, high: u8, low: u8) -> u32
    requires order { low ≤ high }
    requires most { high ≤ 15 }
    ensures { result ≡ spec.bits_of word high low }
{
    u32::from(word) / 2u32.pow(u32::from(low)) % 2u32.pow(u32::from(high - low) + 1)
}

/// Two words as one number, of which the first is the upper half.
pub fn pair_of(first: u16, second: u16) -> u32
    ensures { result ≡ spec.pair_of first second }
{
    u32::from(first) * 65536 + u32::from(second)
}
