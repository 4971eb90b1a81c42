//! How what commands write is told by its beginning.
ghost use Rattle.bench_files.specs.Kinds.{is_of_kind, is_report};
ghost use Rattle.std.specs.Prelude.{◌≡◌};

use crate::kind::Kind;
use text_lines::split_line;

/// Whether a file that begins so may be a report, and is no job, which begins with its channel too.
fn is_report(beginning: &[u8]) -> bool
    ensures { result ≡ is_report beginning.now }
{
    beginning.starts_with(b"packets ")
        || (beginning.starts_with(b"channel ") && split_line(beginning).1.starts_with(b"made "))
}

/// Whether a file that begins so is of this kind, or has no byte, so that one of this kind may take its place. The
/// first 64 bytes are enough.
pub fn is_of_kind(kind: Kind, beginning: &[u8]) -> bool
    ensures { result ≡ is_of_kind kind beginning.now }
{
    if beginning.is_empty() {
        return true;
    }
    match kind {
        Kind::Recording => beginning.starts_with(&[0x25, 0xEB]),
        Kind::Report => is_report(beginning),
        Kind::Image => beginning.starts_with(b"BC0"),
        Kind::Rows => beginning.starts_with(b"number,channel,"),
        Kind::Picture => beginning.starts_with(b"<svg "),
        Kind::Verdicts => beginning.starts_with(b"<?xml "),
        Kind::Waves => beginning.starts_with(b"$comment kind: "),
        Kind::Page => beginning.starts_with(b"<!DOCTYPE html>"),
        Kind::Job => beginning.starts_with(b"# What was recorded of channel "),
    }
}
