//! A writer that makes JSON lines of what is written to it.

use crate::rows::{object_of_line, object_of_row};
use std::alloc::{AllocError, Global};
use std::io::{self, Error, ErrorKind, Write};

/// What is written: lines of pairs of a key and its value, or tables of comma-separated values, each with a row of
/// names first and an empty line between two of them.
#[derive(Clone, Copy, Debug, PartialEq, Eq)]
pub enum JsonSource {
    Lines,
    Tables,
}

/// A writer that makes an object of each line that is written to it, and hands on these as JSON, a line each. A line
/// that is not ended is not handed on. Want of memory is an error of the kind `OutOfMemory`, and kept besides.
#[derive(Drop)]
pub struct JsonLines<W: Write + Drop> {
    out: W,
    source: JsonSource,
    /// The line that is not ended yet.
    line: Vec<u8>,
    /// The names of a table's values; empty in front of its first row.
    names: Vec<u8>,
    is_refused: bool,
}

impl<W: Write + Drop> JsonLines<W> {
    /// A writer over this one.
    pub fn over(alloc: Global, source: JsonSource, out: W) -> JsonLines<W> {
        JsonLines {
            out,
            source,
            line: Vec::new(alloc),
            names: Vec::new(alloc),
            is_refused: false,
        }
    }

    /// The writer that it hands on to.
    pub fn inner(&self) -> &W {
        &self.out
    }

    /// Whether memory for a line was refused.
    pub fn is_refused(&self) -> bool {
        self.is_refused
    }

    /// Appends what a line that is ended comes to.
    fn put_line(&mut self, made: &mut Vec<u8>) -> Result<(), AllocError> {
        let alloc = *made.allocator();
        match self.source {
            JsonSource::Lines => object_of_line(alloc, self.line.as_slice())?.put(made)?,
            JsonSource::Tables => self.put_row(alloc, made)?,
        }
        self.line.clear();
        Ok(())
    }

    /// Appends what a row that is ended comes to: nothing where it is one of names, or is empty and so ends a table.
    fn put_row(&mut self, alloc: Global, made: &mut Vec<u8>) -> Result<(), AllocError> {
        if self.line.is_empty() {
            self.names.clear();
            return Ok(());
        }
        if self.names.is_empty() {
            return self.names.extend_from_slice(self.line.as_slice());
        }
        object_of_row(alloc, self.names.as_slice(), self.line.as_slice())?.put(made)
    }

    /// What bytes come to that are written.
    fn made_of(&mut self, bytes: &[u8]) -> Result<Vec<u8>, AllocError> {
        let mut made = Vec::new(*self.line.allocator());
        for byte in bytes {
            if *byte == b'\n' {
                self.put_line(&mut made)?;
            } else {
                self.line.push(*byte)?;
            }
        }
        Ok(made)
    }
}

impl<W: Write + Drop> Write for JsonLines<W> {
    fn write(&mut self, buf: &[u8]) -> io::Result<usize> {
        match self.made_of(buf) {
            Ok(made) => {
                self.out.write_all(made.as_slice())?;
                Ok(buf.len())
            }
            Err(_) => {
                self.is_refused = true;
                Err(Error::from(ErrorKind::OutOfMemory))
            }
        }
    }

    fn flush(&mut self) -> io::Result<()> {
        self.out.flush()
    }
}
