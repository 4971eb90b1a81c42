//! The address of a terminal.
ghost use Rattle.mil_word.specs.Fields.{highest_address};
ghost use Rattle.std.specs.Prelude.{◌≡◌, ◌≤◌};

use std::marker::Model;

/// The address of one remote terminal, 0 to 30: 31 is that of all (MIL-STD-1553B 4.3.3.5.1.2).
#[derive(Clone, Copy, Debug)]
pub struct Address {
    value: u8,
}

impl Model for Address {
    ghost use Rattle.mil_word.specs.Fields.{highest_address};
    ghost use Rattle.std.specs.Prelude.{ℕ, ◌≤◌};

    ghost Value = { ℕ };

    ghost view = { λ a. a.value };

    ghost invariant = { λ a. a.value ≤ highest_address };

    ghost inverse = { λ n. record { value = n } };
}

impl Address {
    /// The address of this number, 0 to 30.
    pub fn of(value: u8) -> Address
        requires { value ≤ highest_address }
        ensures { result ≡ value }
    {
        Address { value }
    }

    /// The number, 0 to 30.
    #[inline]
    pub fn value(self) -> u8
        ensures value { result ≡ self }
        ensures range { result ≤ highest_address }
    {
        self.value
    }
}
