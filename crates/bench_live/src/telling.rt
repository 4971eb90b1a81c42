//! What is said of lines that were not posted.
ghost use Rattle.bench_live.specs.Posting.{AreHandsOf};
ghost use Rattle.bench_live.specs.Telling.{told_text};
ghost use Rattle.std.specs.Prelude.{Some};

use crate::desk::{Desk, Hand};
use crate::posting::{PostFault, Told, next_fault};
use std::alloc::Global;
use std::fmt::{self, Display, Formatter, Write};
use std::io::BufRead;
use std::rt::Clock;
use std::sync::Wait;

/// `H2 line 3`, `channel 9 is not there: line 3`.
impl Display for Told {
    ghost output = { λ told. Some (told_text told.number told.fault) };

    fn fmt<W: Write>(&self, f: &mut Formatter<W>) -> fmt::Result {
        let line = self.number;
        match self.fault {
            PostFault::Line(bad) => write!(f, "{bad} line {line}"),
            PostFault::NoChannel(channel) => {
                write!(f, "channel {channel} is not there: line {line}")
            }
            PostFault::NoTerminal => write!(f, "E3 line {line}"),
            PostFault::Spent(channel) => {
                write!(
                    f,
                    "channel {channel} takes no more than 65536 posts: line {line}"
                )
            }
            PostFault::Ended(channel) => write!(f, "channel {channel} has ended: line {line}"),
        }
    }
}

/// Posts what the lines of an input ask for, up to its end, and says of each that is not posted why.
pub(crate) fn post_all<R: Wait + Clock, E: Eprint, B: BufRead + Drop>(
    rt: &R,
    alloc: Global,
    errors: &E,
    desk: &Desk,
    hands: Vec<Hand>,
    input: B,
)
    requires { AreHandsOf desk.now hands.items }
{
    let (mut hands, mut input, mut number) = (hands, input, 0);
    for _ in rt.forever() {
        match next_fault(rt, alloc, desk, &mut hands, &mut input, &mut number) {
            Ok(Some(told)) => {
                // Nothing else is lost where standard error takes no more.
                let _ = eprintln!(errors; "bench: {told}");
            }
            Ok(None) => return,
            Err(error) => {
                // Nothing else is lost where standard error takes no more.
                let _ = eprintln!(errors; "bench: reading the standard input: {error}");
                return;
            }
        }
    }
}
