//! How large an image is.
ghost use Rattle.bench_assemble.specs.SizesLine.{sizes_line};
ghost use Rattle.std.specs.Io.KnownBytes.{Appends};
ghost use Rattle.std.specs.Prelude.{OnOk, ◌++◌, ◌∷◌, [], Some};

use std::io::Write;
use std::{fmt, io};

/// The sizes of an image.
#[derive(Clone, Copy, Debug, PartialEq, Eq)]
pub struct Sizes {
    /// How many operations it has, 1 to 4096.
    pub operations: usize,
    /// How many messages its table has, 0 to 1024.
    pub messages: usize,
    /// How many steps a run takes at most, 1 to 100,000,000.
    pub budget: u64,
}

/// `operations 11 messages 1 budget 47`
impl fmt::Display for Sizes {
    ghost output = { λ s. Some (sizes_line s.operations s.messages s.budget) };

    fn fmt<W: fmt::Write>(&self, f: &mut fmt::Formatter<W>) -> fmt::Result {
        write!(
            f,
            "operations {} messages {} budget {}",
            self.operations, self.messages, self.budget
        )
    }
}

/// Writes the sizes as a line. A fault is the writer's.
pub fn print_sizes<W: Write>(out: &mut W, sizes: &Sizes) -> io::Result<()>
    ensures written { OnOk result (Appends (W.contents out.old) (W.contents out.new)
        (sizes_line sizes.now.operations sizes.now.messages sizes.now.budget ++ 10 ∷ [])) }
{
    writeln!(out, "{sizes}")
}
