//! Why steps were not played to their end.
use std::error::Error;
use std::fmt::{self, Display, Formatter, Write};

/// Why steps were not played to their end.
#[derive(Clone, Copy, Debug, PartialEq, Eq)]
pub enum PlayError {
    /// O1: a step is of a channel that does not exist. Nothing was done.
    Index,
    /// O2: memory was refused at the step behind so many, which are done.
    Memory {
        /// How many steps are done.
        done: usize,
    },
    /// O3: an action is posted to an address at which its channel has no terminal. Nothing was done.
    NoTerminal,
    /// O4: with these steps a channel would have more posts than the settings allow since the world was made. Nothing
    /// was done.
    Posts,
}

/// `O1`, `O2`, `O3`, `O4`.
impl Display for PlayError {
    ghost use Rattle.bench_core.specs.World.{play_code};
    ghost use Rattle.std.specs.Prelude.{Some};

    ghost output = { λ e. Some (play_code e) };

    fn fmt<W: Write>(&self, f: &mut Formatter<W>) -> fmt::Result {
        f.write_str(match self {
            PlayError::Index => "O1",
            PlayError::Memory { .. } => "O2",
            PlayError::NoTerminal => "O3",
            PlayError::Posts => "O4",
        })
    }
}

impl Error for PlayError {}
