//! The numbers of the fields of command and status words (MIL-STD-1553B 4.3.3.5.1).

/// How many values a field of five bits has: how many addresses there are, and how many subaddresses (4.3.3.5.1).
pub const FIELD_VALUES: usize = 32;

/// The address of all terminals (4.3.3.5.1.2).
pub const ALL_TERMINALS: u8 = 31;

/// The highest address of one terminal (4.3.3.5.1.2).
pub const HIGHEST_ADDRESS: u8 = 30;

/// How many data words a message has at most (4.3.3.5.1.5).
pub const MOST_WORDS: u8 = 32;

/// The two subaddresses that say that the last field is a mode code (4.3.3.5.1.7).
pub const MODE_SUBADDRESS_OF_ZEROS: u8 = 0;

pub const MODE_SUBADDRESS_OF_ONES: u8 = 31;

/// The subaddress that wraps around: a transmit command there sends what was received there (Notice 2).
pub const WRAP_AROUND: u8 = 30;

/// The highest subaddress that a host puts words up for: the one below that which wraps around (own choice).
pub const HIGHEST_PUT_UP: u8 = 29;

/// The highest subaddress for data.
pub const HIGHEST_SUBADDRESS: u8 = 30;
