//! What a remote terminal answers.
use arrayvec::ArrayVec;
use mil_line::Gap;

/// What a remote terminal sends after a quiet: its status word, and the data words behind it.
#[derive(Debug, Drop)]
pub struct Reply {
    /// The gap before the status word, which is the response time; the words that follow are contiguous.
    pub gap: Gap,
    /// The status word first, and then at most 32 data words.
    pub words: ArrayVec<u16, 33>,
}
