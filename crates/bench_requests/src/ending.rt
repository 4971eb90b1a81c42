//! What becomes of the files of a run that gave no recording.

/// What becomes of the files of a run that gave no recording. The recording and the report that were there stay.
#[derive(Clone, Copy, Debug, PartialEq, Eq)]
pub enum Ending {
    /// Where no recording was, an empty one is made.
    Refused,
    /// Where no recording was, none is made; what was recorded until then stays beside it.
    Broken,
}
