//! Chapter 11 files: headers, bodies, packets and recordings, written and read, and their dumps; and writers over
//! sinks.
mod bodies;
mod builders;
mod clocks;
mod dumps;
mod equal;
mod headers;
mod messages;
mod readers;
mod recordings;
mod skips;
mod time_packets;
mod writers;
