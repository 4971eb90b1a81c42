//! Files of the system, which pass bytes by a seek.

use ch11_stream::Advance;
use std::io::{self, Read, Seek, SeekFrom};

/// A file of the system. No clause knows its bytes.
#[derive(Drop)]
pub struct SystemFile<F> {
    file: F,
}

impl<F: Read> SystemFile<F> {
    /// A file that was opened.
    pub fn over(file: F) -> SystemFile<F> {
        SystemFile { file }
    }
}

impl<F: Read> Read for SystemFile<F> {
    fn read(&mut self, buf: &mut [u8]) -> io::Result<usize> {
        self.file.read(buf)
    }
}

impl<F: Read + Seek> Advance for SystemFile<F> {
    /// By a seek, also past the file's end; 0 where the file cannot seek.
    fn advance(&mut self, count: u64) -> io::Result<u64> {
        let Ok(distance) = i64::try_from(count) else {
            return Ok(0);
        };
        match self.file.seek(SeekFrom::Current(distance)) {
            Ok(_) => Ok(count),
            Err(_) => Ok(0),
        }
    }
}
