//! The fields of a status word (MIL-STD-1553B 4.3.3.5.3).
ghost use Rattle.mil_word.specs.Fields.{address_of, has_message_error, has_instrumentation, has_service_request};
ghost use Rattle.mil_word.specs.Fields.{has_broadcast_received, has_busy, has_subsystem_flag, has_control_acceptance};
ghost use Rattle.mil_word.specs.Fields.{field_values, has_terminal_flag};
ghost use Rattle.std.specs.Prelude.{◌≡◌, ◌<◌};

use std::marker::Model;

/// A status word; contracts see its 16 bits as a number.
#[derive(Clone, Copy, Debug, PartialEq, Eq)]
pub struct Status {
    value: u16,
}

impl Model for Status {
    ghost use Rattle.std.specs.Prelude.{ℕ, ◌<◌, ◌^◌};

    ghost Value = { ℕ };

    ghost view = { λ s. s.value };

    ghost invariant = { λ s. s.value < 2 ^ 16 };

    ghost inverse = { λ n. record { value = n } };
}

impl Status {
    /// The status word with these 16 bits.
    #[inline]
    pub fn of(value: u16) -> Status
        ensures { result ≡ value }
    {
        Status { value }
    }

    /// The 16 bits.
    #[inline]
    pub fn value(self) -> u16
        ensures { result ≡ self }
    {
        self.value
    }

    /// The address of the terminal that sends it, 0 to 31 (4.3.3.5.3.2).
    #[inline]
    pub fn address(self) -> u8
        ensures field { result ≡ address_of self }
        ensures range { result < field_values }
    {
        (self.value >> 11) as u8
    }

    /// The message error bit (4.3.3.5.3.3).
    #[inline]
    pub fn has_message_error(self) -> bool
        ensures { result ≡ has_message_error self }
    {
        self.value >> 10 & 1 == 1
    }

    /// The instrumentation bit (4.3.3.5.3.4).
    #[inline]
    pub fn has_instrumentation(self) -> bool
        ensures { result ≡ has_instrumentation self }
    {
        self.value >> 9 & 1 == 1
    }

    /// The service request bit (4.3.3.5.3.5).
    #[inline]
    pub fn has_service_request(self) -> bool
        ensures { result ≡ has_service_request self }
    {
        self.value >> 8 & 1 == 1
    }

    /// The broadcast command received bit (4.3.3.5.3.7).
    #[inline]
    pub fn has_broadcast_received(self) -> bool
        ensures { result ≡ has_broadcast_received self }
    {
        self.value >> 4 & 1 == 1
    }

    /// The busy bit (4.3.3.5.3.8).
    #[inline]
    pub fn has_busy(self) -> bool
        ensures { result ≡ has_busy self }
    {
        self.value >> 3 & 1 == 1
    }

    /// The subsystem flag (4.3.3.5.3.9).
    #[inline]
    pub fn has_subsystem_flag(self) -> bool
        ensures { result ≡ has_subsystem_flag self }
    {
        self.value >> 2 & 1 == 1
    }

    /// The dynamic bus control acceptance bit (4.3.3.5.3.10).
    #[inline]
    pub fn has_control_acceptance(self) -> bool
        ensures { result ≡ has_control_acceptance self }
    {
        self.value >> 1 & 1 == 1
    }

    /// The terminal flag (4.3.3.5.3.11).
    #[inline]
    pub fn has_terminal_flag(self) -> bool
        ensures { result ≡ has_terminal_flag self }
    {
        self.value & 1 == 1
    }
}
