//! What is shown of the terminals.

/// What is shown of each terminal.
#[derive(Clone, Copy, Debug, PartialEq, Eq)]
pub enum Detail {
    /// Its registers.
    Registers,
    /// Its registers, and in lines behind them what its host set: the lines on which it is deaf, and mute; which of
    /// busy, service request, subsystem flag, terminal fault and acceptance of bus control are on; its ramps; and what
    /// else is not as at first.
    Host,
    /// The data words of one terminal alone, of address 0 to 30, at a subaddress of 1 to 30: nothing is shown at
    /// another.
    Data { address: u8, subaddress: u8 },
}
