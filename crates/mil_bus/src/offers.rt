//! What a sender gives to the line.
use crate::Source;
use mil_line::Gap;
use mil_message::Values;

/// What a sender gives: the controller at first, then the terminal that replies.
#[derive(Drop)]
pub struct Offered {
    pub source: Source,
    pub gap: Gap,
    pub values: Values,
    /// Whether a terminal gave it, as its answer to the last quiet.
    pub answered: bool,
}
