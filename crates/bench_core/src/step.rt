//! What may come next on the bench.
use bc_machine::HostAction;

/// One step of the bench.
#[derive(Debug, Drop)]
pub enum Step {
    /// The channel at an index makes its next message and offers it to the queue, or offers its end mark.
    Offer(u8),

    /// The writer takes the front of the queue.
    Take,

    /// A host of the channel at an index posts an action, for a terminal or for the controller: it acts at the
    /// channel's next message, behind what is placed there.
    Post(u8, HostAction),
}
