//! What commands write.
use std::fmt::{self, Display, Formatter, Write};

/// What a command writes into a file.
#[derive(Clone, Copy, Debug, PartialEq, Eq)]
pub enum Kind {
    /// Packets, the first of which begins with the sync pattern (IRIG 106-17, 11.2.1.1).
    Recording,
    /// The report of a run.
    Report,
    /// The image of a script.
    Image,
    /// Messages as comma-separated values.
    Rows,
    /// Messages as a picture.
    Picture,
    /// Verdicts, as a JUnit report.
    Verdicts,
    /// The lines of buses over time, as a value change dump.
    Waves,
    /// Messages as a page for a browser.
    Page,
    /// A job that plays a recorded channel again.
    Job,
}

/// `recording`, `report`, `image`, `table of messages`, `picture`, `JUnit report`, `value change dump`, `page`,
/// `job of a recording`.
impl Display for Kind {
    ghost use Rattle.bench_files.specs.Codes.{kind_text};
    ghost use Rattle.std.specs.Prelude.{Some};

    ghost output = { λ kind. Some (kind_text kind) };

    fn fmt<W: Write>(&self, f: &mut Formatter<W>) -> fmt::Result {
        f.write_str(match self {
            Kind::Recording => "recording",
            Kind::Report => "report",
            Kind::Image => "image",
            Kind::Rows => "table of messages",
            Kind::Picture => "picture",
            Kind::Verdicts => "JUnit report",
            Kind::Waves => "value change dump",
            Kind::Page => "page",
            Kind::Job => "job of a recording",
        })
    }
}
