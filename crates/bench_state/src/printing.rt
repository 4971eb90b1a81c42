//! Words as they are printed.
ghost use Rattle.bench_state.specs.DataText.{words_text};
ghost use Rattle.std.specs.Io.KnownBytes.{Appends};
ghost use Rattle.std.specs.Prelude.{OnOk};

use mil_host::DataWords;
use std::io;
use std::io::Write;

/// Prints words, each behind a space, and a dash where there is none.
pub(crate) fn print_words<W: Write>(out: &mut W, words: &[u16]) -> io::Result<()>
    ensures { OnOk result (Appends (W.contents out.old) (W.contents out.new) (words_text words.now)) }
{
    if words.is_empty() {
        return write!(out, " -");
    }
    write!(out, "{}", DataWords(words))
}
