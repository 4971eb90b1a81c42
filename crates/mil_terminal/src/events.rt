//! What a remote terminal meets.
use mil_host::Action;
use mil_line::Gap;
use mil_word::{Line, Wave};

/// What a remote terminal can meet. No program keeps one: contracts speak of lists of them, the newest first.
#[derive(Debug, Drop)]
pub enum Event {
    /// A word on a line, and the gap before it.
    Heard { line: Line, wave: Wave, gap: Gap },
    /// A line that fell quiet after words.
    Quiet(Line),
    /// An action of the host.
    Host(Action),
}
