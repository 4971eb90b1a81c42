//! What there is to say of a code.

/// What there is to say of a code.
#[derive(Clone, Copy, Debug)]
pub struct Explanation {
    /// The code as the program prints it.
    pub code: &'static str,
    /// What it means, in a line.
    pub means: &'static str,
    /// What to do about it.
    pub remedy: &'static str,
    /// A line or a text that has the fault.
    pub example: &'static str,
}
