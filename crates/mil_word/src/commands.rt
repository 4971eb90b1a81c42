//! The fields of a command word (MIL-STD-1553B 4.3.3.5.1).
ghost use Rattle.mil_word.specs.Fields.{address_of, is_transmit, sub_of, code_of, count_of, is_mode, is_receive};
ghost use Rattle.mil_word.specs.Fields.{field_values, is_broadcast, most_words};
ghost use Rattle.std.specs.Prelude.{◌≡◌, ◌≤◌, ◌<◌, ◌^◌};

use crate::fields::{ALL_TERMINALS, MODE_SUBADDRESS_OF_ONES, MODE_SUBADDRESS_OF_ZEROS, MOST_WORDS};
use std::marker::Model;

/// A command word; contracts see its 16 bits as a number.
#[derive(Clone, Copy, Debug, PartialEq, Eq)]
pub struct Command {
    value: u16,
}

impl Model for Command {
    ghost use Rattle.std.specs.Prelude.{ℕ, ◌<◌, ◌^◌};

    ghost Value = { ℕ };

    ghost view = { λ c. c.value };

    ghost invariant = { λ c. c.value < 2 ^ 16 };

    ghost inverse = { λ n. record { value = n } };
}

impl Command {
    /// The command word with these 16 bits.
    #[inline]
    pub fn of(value: u16) -> Command
        ensures { result ≡ value }
    {
        Command { value }
    }

    /// The 16 bits.
    #[inline]
    pub fn value(self) -> u16
        ensures { result ≡ self }
    {
        self.value
    }

    /// The terminal address, 0 to 31 (4.3.3.5.1.2); 31 is broadcast.
    #[inline]
    pub fn address(self) -> u8
        ensures field { result ≡ address_of self }
        ensures range { result < field_values }
    {
        (self.value >> 11) as u8
    }

    /// Whether the address is 31, that of all terminals (4.3.3.5.1.2).
    #[inline]
    pub fn is_broadcast(self) -> bool
        ensures { result ≡ is_broadcast self }
    {
        self.address() == ALL_TERMINALS
    }

    /// Whether the T/R bit is one, so that the terminal is to transmit (4.3.3.5.1.3).
    #[inline]
    pub fn is_transmit(self) -> bool
        ensures { result ≡ is_transmit self }
    {
        self.value >> 10 & 1 == 1
    }

    /// The subaddress, 0 to 31 (4.3.3.5.1.4).
    #[inline]
    pub fn subaddress(self) -> u8
        ensures field { result ≡ sub_of self }
        ensures range { result < field_values }
    {
        (self.value >> 5 & 31) as u8
    }

    /// Whether the subaddress is 0 or 31, so that the last field is a mode code (4.3.3.5.1.7).
    #[inline]
    pub fn is_mode(self) -> bool
        ensures { result ≡ is_mode self }
    {
        let subaddress = self.subaddress();
        subaddress == MODE_SUBADDRESS_OF_ZEROS || subaddress == MODE_SUBADDRESS_OF_ONES
    }

    /// The last field as it stands, 0 to 31: the mode code of a mode command (4.3.3.5.1.7).
    #[inline]
    pub fn code(self) -> u8
        ensures field { result ≡ code_of self }
        ensures range { result < field_values }
    {
        (self.value & 31) as u8
    }

    /// The data word count that the last field gives, 1 to 32: zeros are 32 (4.3.3.5.1.5).
    #[inline]
    pub fn count(self) -> u8
        ensures field { result ≡ count_of self }
        ensures at_least_one { 1 ≤ result }
        ensures at_most_32 { result ≤ most_words }
    {
        let code = self.code();
        if code == 0 { MOST_WORDS } else { code }
    }

    /// Whether this is a receive command that is no mode command.
    #[inline]
    pub fn is_receive(self) -> bool
        ensures { result ≡ is_receive self }
    {
        !self.is_mode() && !self.is_transmit()
    }
}
