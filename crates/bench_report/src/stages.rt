//! How far the lines of a channel have come.
use crate::channels::ChannelReport;

/// Which line may come next.
#[derive(Drop)]
pub enum Stage {
    /// No line has come: a channel, or the packets.
    Begin,
    /// A channel was named: how many messages it made.
    Named(u16),
    /// A channel is told of: one more of its lines, another channel, or the packets.
    Body(ChannelReport),
    /// The packets have come: no line.
    End(u64),
}
