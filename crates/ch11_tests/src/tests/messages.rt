//! Messages to be recorded.
ghost use Rattle.std.specs.Prelude.{◌≡◌};

use arrayvec::ArrayVec;
use ch11_f1::Record;

/// A message of these words, of which there are at most forty, without a bit in its block status word.
pub(crate) fn message_of(stamp: u64, gaps: u16, words: &[u16]) -> Record
    ensures { result.stamp ≡ stamp }
{
    let mut kept = ArrayVec::new();
    for word in words {
        let _ = kept.try_push(*word);
    }
    Record {
        stamp,
        block: 0,
        gaps,
        words: kept,
    }
}
