//! How the lines of a session come, and so how they are answered.

/// How the lines of a session come, and so how they are answered.
#[derive(Clone, Copy, Debug, PartialEq, Eq)]
pub enum Manner {
    /// From a file or another program: each answer is of a form of its own.
    Given,
    /// Typed at a terminal: a move also shows its message, `state` shows what hosts set too, and `forward` and `back`
    /// take a number.
    Typed,
}
