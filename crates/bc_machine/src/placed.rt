//! Actions of hosts, each placed at a message.
ghost use Rattle.std.specs.Prelude.{◌≡◌};

use controller_host::Control;
use mil_host::Action;

/// What a host asks for: the host of a terminal, or that of the controller.
#[derive(Debug, Drop)]
pub enum HostAction {
    /// An action of the host of the terminal at an address, 0 to 30.
    Terminal { address: u8, action: Action },
    /// What the host of the controller asks for.
    Controller(Control),
}

impl HostAction {
    /// The same.
    pub fn copy(&self) -> HostAction
        ensures { result ≡ self.now }
    {
        match self {
            HostAction::Terminal { address, action } => HostAction::Terminal {
                address: *address,
                action: action.copy(),
            },
            HostAction::Controller(control) => HostAction::Controller(control.copy()),
        }
    }
}

/// An action of a host, just before a message. That of a terminal's host does nothing where the bus has no such
/// terminal; none does anything at a number that no message comes to.
#[derive(Debug, Drop)]
pub struct Placed {
    /// The number of the message, counted from 1.
    pub number: u32,
    pub action: HostAction,
}
