//! The conditions that a status word tells.
ghost use Rattle.mil_terminal.specs.Status.{no_conditions, bits_of, status_word as word_of};
ghost use Rattle.std.specs.Prelude.{◌≡◌, if◌then◌else◌};

use crate::addresses::Address;
use mil_status::{StatusBits, status_word};

/// The conditions that a status word tells (MIL-STD-1553B 4.3.3.5.3.3 to 4.3.3.5.3.11). Terminals here never set the
/// instrumentation bit (own choice).
#[derive(Clone, Copy, Debug, PartialEq, Eq)]
pub struct Conditions {
    pub message_error: bool,
    pub service_request: bool,
    pub broadcast: bool,
    pub busy: bool,
    pub subsystem: bool,
    pub control: bool,
    pub terminal: bool,
}

/// The bit of a condition, where it is on.
fn bit_if(on: bool, bit: StatusBits) -> u16
    ensures { result ≡ (if on then bit.0 else 0) }
{
    if on { bit.0 } else { 0 }
}

impl Conditions {
    /// What a terminal tells before any window has ended.
    pub(crate) fn none() -> Conditions
        ensures { result ≡ no_conditions }
    {
        Conditions {
            message_error: false,
            service_request: false,
            broadcast: false,
            busy: false,
            subsystem: false,
            control: false,
            terminal: false,
        }
    }

    /// The bits that tell them.
    fn bits(&self) -> StatusBits
        ensures { result.0 ≡ bits_of self.now }
    {
        StatusBits(
            bit_if(self.message_error, StatusBits::MESSAGE_ERROR)
                + bit_if(self.service_request, StatusBits::SERVICE_REQUEST)
                + bit_if(self.broadcast, StatusBits::BROADCAST)
                + bit_if(self.busy, StatusBits::BUSY)
                + bit_if(self.subsystem, StatusBits::SUBSYSTEM)
                + bit_if(self.control, StatusBits::CONTROL)
                + bit_if(self.terminal, StatusBits::TERMINAL),
        )
    }

    /// The status word that tells them.
    pub(crate) fn word(&self, own: Address) -> u16
        ensures { result ≡ word_of own self.now }
    {
        status_word(own.value(), self.bits())
    }
}
