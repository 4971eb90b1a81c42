//! Where data words of the controller go.
ghost use Rattle.controller_host.specs.Destinations.{destination_of, is_same};
ghost use Rattle.std.specs.Prelude.{◌≡◌};

use mil_message::{Form, Message};

/// Where data words of the controller go, by command: T/R 0, and of mode commands either subaddress (MIL-STD-1553B
/// 4.3.3.6). Words of a message between terminals are not the controller's.
#[derive(Clone, Copy, Debug)]
pub enum Destination {
    /// A subaddress, 1 to 30, of one terminal, 0 to 30.
    Terminal { address: u8, subaddress: u8 },
    /// A subaddress, 1 to 30, of all terminals.
    All { subaddress: u8 },
    /// A mode code with a data word, 17 or 20 to 31, to one terminal, 0 to 30.
    Mode { address: u8, code: u8 },
    /// A mode code with a data word, 17 or 20 to 31, to all terminals.
    ModeToAll { code: u8 },
}

impl Destination {
    /// Where the controller's data words of a message go; None of one that has none.
    pub fn of(message: &Message) -> Option<Destination>
        ensures { result ≡ destination_of message.now }
    {
        match message.form() {
            Form::ToTerminal {
                address,
                subaddress,
                ..
            } => Some(Destination::Terminal {
                address: *address,
                subaddress: *subaddress,
            }),
            Form::ToAll { subaddress, .. } => Some(Destination::All {
                subaddress: *subaddress,
            }),
            Form::ModeTo { address, code, .. } => Some(Destination::Mode {
                address: *address,
                code: *code,
            }),
            Form::ModeAllTo { code, .. } => Some(Destination::ModeToAll { code: *code }),
            _ => None,
        }
    }

    /// Whether another is the same.
    pub fn is(&self, other: &Destination) -> bool
        ensures { result ≡ is_same self.now other.now }
    {
        match (self, other) {
            (
                Destination::Terminal {
                    address,
                    subaddress,
                },
                Destination::Terminal {
                    address: a,
                    subaddress: s,
                },
            ) => address == a && subaddress == s,
            (Destination::All { subaddress }, Destination::All { subaddress: s }) => {
                subaddress == s
            }
            (
                Destination::Mode { address, code },
                Destination::Mode {
                    address: a,
                    code: c,
                },
            ) => address == a && code == c,
            (Destination::ModeToAll { code }, Destination::ModeToAll { code: c }) => code == c,
            _ => false,
        }
    }
}
