//! The mode codes by name (MIL-STD-1553B 4.3.3.5.1.7 and its table I). Codes 0 to 15 go without a data word, and those
//! from 16 on with one.

/// Offer control of the bus to the terminal (4.3.3.5.1.7.1).
pub const DYNAMIC_BUS_CONTROL: u8 = 0;

/// Synchronize without a data word (4.3.3.5.1.7.2).
pub const SYNCHRONIZE: u8 = 1;

/// Transmit the status word as it stands (4.3.3.5.1.7.3).
pub const TRANSMIT_STATUS_WORD: u8 = 2;

/// Begin the self test (4.3.3.5.1.7.4).
pub const INITIATE_SELF_TEST: u8 = 3;

/// Shut down the transmitter of the other line (4.3.3.5.1.7.5).
pub const TRANSMITTER_SHUTDOWN: u8 = 4;

/// Start that transmitter again (4.3.3.5.1.7.6).
pub const OVERRIDE_SHUTDOWN: u8 = 5;

/// Keep the terminal flag at zero (4.3.3.5.1.7.7).
pub const INHIBIT_TERMINAL_FLAG: u8 = 6;

/// Let the terminal flag be set again (4.3.3.5.1.7.8).
pub const OVERRIDE_INHIBIT: u8 = 7;

/// Reset the terminal (4.3.3.5.1.7.9).
pub const RESET_REMOTE_TERMINAL: u8 = 8;

/// The first and the last code without a data word that the standard keeps for later (4.3.3.5.1.7.10).
pub const FIRST_RESERVED: u8 = 9;

pub const LAST_RESERVED_WITHOUT_WORD: u8 = 15;

/// Transmit the vector word (4.3.3.5.1.7.11).
pub const TRANSMIT_VECTOR_WORD: u8 = 16;

/// Synchronize with a data word (4.3.3.5.1.7.12).
pub const SYNCHRONIZE_WITH_WORD: u8 = 17;

/// Transmit the last command word (4.3.3.5.1.7.13).
pub const TRANSMIT_LAST_COMMAND: u8 = 18;

/// Transmit the BIT word (4.3.3.5.1.7.14).
pub const TRANSMIT_BIT_WORD: u8 = 19;

/// Shut down a transmitter that the data word selects (4.3.3.5.1.7.15).
pub const SELECTED_SHUTDOWN: u8 = 20;

/// Start a transmitter again that the data word selects (4.3.3.5.1.7.16).
pub const OVERRIDE_SELECTED_SHUTDOWN: u8 = 21;

/// The first code with a data word that the standard keeps for later (4.3.3.5.1.7.17).
pub const FIRST_RESERVED_WITH_WORD: u8 = 22;

/// Up to this code a mode command has no data word, and from the next one on it has one.
pub const LAST_WITHOUT_WORD: u8 = 15;

pub const FIRST_WITH_WORD: u8 = 16;

/// The highest code.
pub const LAST_CODE: u8 = 31;
