//! The replies of a session of `bench step` that refuse a line, explained as they are given.

use std::io;
use std::io::Write;

/// How many bytes the longest reply has that is explained, with the line feed that ends it.
const LONGEST: usize = 8;

/// The beginning of a reply, and how many bytes it has so far.
#[derive(Clone, Copy, Debug, PartialEq, Eq)]
struct Reply {
    first: [u8; LONGEST],
    len: usize,
}

impl Reply {
    fn none() -> Reply {
        Reply {
            first: [0; LONGEST],
            len: 0,
        }
    }

    /// The reply with these bytes behind it.
    fn with(self, bytes: &[u8]) -> Reply {
        let mut longer = self;
        for byte in bytes {
            if longer.len < LONGEST {
                longer.first[longer.len] = *byte;
            }
            longer.len = longer.len.saturating_add(1);
        }
        longer
    }

    /// Why it was given; nothing where it refuses nothing.
    fn why(&self) -> Option<&'static str> {
        if self.len > LONGEST {
            return None;
        }
        let (first, _) = self.first.split_at(self.len);
        if first == b"Y2\n".as_slice() {
            return Some(
                "there is no such message from here on: the place stays, and back or go N leads to others",
            );
        }
        if first == b"Y3\n".as_slice() {
            return Some("this is the beginning already: forward leads on");
        }
        if first == b"unknown\n".as_slice() {
            return Some(
                "the lines are forward, back, go, find, find back, state, data, show, help and quit; help says what \
                 stands behind each",
            );
        }
        None
    }
}

/// A writer of replies, each of which ends with a flush; behind one that refuses a line the reason is shown
/// elsewhere, where that is asked for. What is written is what the replies are.
#[derive(Drop)]
pub struct Explained<'a, W: Write + Drop, E> {
    out: W,
    errors: &'a E,
    is_shown: bool,
    reply: Reply,
}

impl<'a, W: Write + Drop, E> Explained<'a, W, E> {
    /// A writer before its first reply.
    pub fn begin(out: W, errors: &'a E, is_shown: bool) -> Explained<'a, W, E> {
        Explained {
            out,
            errors,
            is_shown,
            reply: Reply::none(),
        }
    }
}

impl<W: Write + Drop, E: Eprint> Write for Explained<'_, W, E> {
    fn write(&mut self, buf: &[u8]) -> io::Result<usize> {
        let taken = self.out.write(buf)?;
        let (bytes, _) = buf.split_at(taken);
        self.reply = self.reply.with(bytes);
        Ok(taken)
    }

    fn flush(&mut self) -> io::Result<()> {
        self.out.flush()?;
        if self.is_shown {
            if let Some(why) = self.reply.why() {
                // Nothing else is lost where standard error takes no more.
                let _ = eprintln!(self.errors; "  {why}");
            }
        }
        self.reply = Reply::none();
        Ok(())
    }
}
