//! The words of a run by their values.
ghost use Rattle.std.specs.Prelude.{◌≡◌, take, drop};

use arrayvec::ArrayVec;

/// The words of a run that is sent as it should, by their values: commands or a status word, and then data words.
#[derive(Debug, Drop)]
pub struct Values {
    pub words: ArrayVec<u16, 34>,
    /// How many of them, the first, are commands or a status word; at most 2.
    pub commands: u8,
}

impl Values {
    /// The commands or the status word, and the data words.
    #[inline]
    pub fn parts(&self) -> (&[u16], &[u16])
        ensures commands { result.0.now ≡ take self.now.commands self.now.words.items }
        ensures data { result.1.now ≡ drop self.now.commands self.now.words.items }
    {
        let words = self.words.as_slice();
        words.split_at(usize::from(self.commands).min(words.len()))
    }
}
