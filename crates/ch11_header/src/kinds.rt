//! The types of packets that the bench writes or reads (IRIG 106-17 Chapter 11, table of data types).

/// Computer generated data, Format 1: a setup record.
pub const SETUP_RECORD: u8 = 0x01;

/// Computer generated data, Format 3: an index of a recording.
pub const RECORDING_INDEX: u8 = 0x03;

/// Time data, Format 1.
pub const TIME_DATA: u8 = 0x11;

/// MIL-STD-1553 bus data, Format 1.
pub const BUS_MESSAGES: u8 = 0x19;
