//! The bits of a status word.
ghost use Rattle.mil_status.specs.Status.{status_of};
ghost use Rattle.std.specs.Prelude.{◌≡◌, ◌≤◌, ◌<◌, ◌+◌, ◌*◌, ◌^◌};

use bitflags::{Flag, Flags};

/// A set of bits of a status word, each at its place; the number has the bit of each set to one.
#[derive(Clone, Copy, Debug, PartialEq, Eq)]
pub struct StatusBits(pub u16);

/// The eight bits by the names that scripts give them.
static FLAGS: [Flag<StatusBits>; 8] = [
    Flag {
        name: "message_error",
        value: StatusBits::MESSAGE_ERROR,
    },
    Flag {
        name: "instrumentation",
        value: StatusBits::INSTRUMENTATION,
    },
    Flag {
        name: "service_request",
        value: StatusBits::SERVICE_REQUEST,
    },
    Flag {
        name: "broadcast",
        value: StatusBits::BROADCAST,
    },
    Flag {
        name: "busy",
        value: StatusBits::BUSY,
    },
    Flag {
        name: "subsystem",
        value: StatusBits::SUBSYSTEM,
    },
    Flag {
        name: "control",
        value: StatusBits::CONTROL,
    },
    Flag {
        name: "terminal",
        value: StatusBits::TERMINAL,
    },
];

impl StatusBits {
    /// `StatusBit::MessageError` alone.
    pub const MESSAGE_ERROR: StatusBits = StatusBits(1024);
    /// `StatusBit::Instrumentation` alone.
    pub const INSTRUMENTATION: StatusBits = StatusBits(512);
    /// `StatusBit::ServiceRequest` alone.
    pub const SERVICE_REQUEST: StatusBits = StatusBits(256);
    /// `StatusBit::Broadcast` alone.
    pub const BROADCAST: StatusBits = StatusBits(16);
    /// `StatusBit::Busy` alone.
    pub const BUSY: StatusBits = StatusBits(8);
    /// `StatusBit::Subsystem` alone.
    pub const SUBSYSTEM: StatusBits = StatusBits(4);
    /// `StatusBit::Control` alone.
    pub const CONTROL: StatusBits = StatusBits(2);
    /// `StatusBit::Terminal` alone.
    pub const TERMINAL: StatusBits = StatusBits(1);
    /// All eight.
    pub const ALL: StatusBits = StatusBits(0x071F);
}

impl Flags for StatusBits {
    ghost use Rattle.mil_status.specs.Status.{status_bits};
    ghost use Rattle.std.specs.Prelude.{⊤};

    type Bits = u16;

    ghost exact = { ⊤ };

    ghost table = { status_bits };

    ghost set_of = { λ s. s.0 };

    fn flags<'a>() -> &'a [Flag<StatusBits>] {
        &FLAGS
    }

    fn bits(&self) -> u16 {
        self.0
    }

    fn from_bits_retain(bits: u16) -> StatusBits {
        StatusBits(bits)
    }
}

/// The status word of a terminal: its address, and each of the eight bits in its place.
pub fn status_word(address: u8, bits: StatusBits) -> u16
    requires { address ≤ 31 }
    ensures { result ≡ status_of address bits.0 }
{
    joined(u16::from(address), bits.0 >> 8 & 7, bits.0 & 31)
}

/// A word from its first five bits, bits 10 to 8 and bits 4 to 0.
#[inline]
fn joined(address: u16, high: u16, low: u16) -> u16
    requires five { address < 2 ^ 5 }
    requires three { high < 2 ^ 3 }
    requires five_more { low < 2 ^ 5 }
    ensures { result ≡ address * 2 ^ 11 + (high * 2 ^ 8 + low) }
{
    address << 11 | (high << 8 | low)
}
