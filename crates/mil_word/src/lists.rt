//! Lists of data words.
ghost use Rattle.std.specs.Prelude.{◌≡◌};

use arrayvec::ArrayVec;

/// The same data words once more, copied as a whole.
pub fn copied(words: &ArrayVec<u16, 32>) -> ArrayVec<u16, 32>
    ensures { result ≡ words.now }
{
    let mut copied = ArrayVec::new();
    // There is room for all of them.
    let _ = copied.try_extend_from_slice(words.as_slice());
    copied
}
