//! Binary coded decimals.
ghost use Rattle.bench_clock.specs.TimeBody.{two_digits};
ghost use Rattle.std.specs.Prelude.{◌≡◌, ◌<◌, ◌≤◌, ℕ};

/// A number below 100 as two decimal digits, the tens in bits 7 to 4.
pub(crate) fn two_digits(number: u8) -> u8
    requires { number < 100 }
    ensures { result ≡ two_digits number }
{
    number / 10 * 16 + number % 10
}

/// The number of two digits, of which each may be up to 15.
pub(crate) fn number_of(digits: u8) -> u8
    ensures number { (n : ℕ) → n < 100 → digits ≡ two_digits n → result ≡ n }
    ensures small { result ≤ 165 }
{
    digits / 16 * 10 + digits % 16
}
