//! Recordings that commands read: a file that is opened anew for each pass over it, or the bytes of a pipe, which are
//! kept, since it can be read once alone.

use crate::terminals::prints_to_terminal;
use bench_clock::{ReadClock, read_clock, read_sound_clock};
use bench_requests::{CommandFault, open_to_read, read_whole};
use bench_select::{Stamps, read_stamps};
use bench_watch::{Reopen, SystemFile, Watch, Watched};
use ch11_check::check;
use ch11_stream::{Advance, SoundPackets, StreamFault};
use std::alloc::{AllocError, Global};
use std::fs;
use std::io::{self, Error, ErrorKind, IsTerminal, Read};
use std::rt::{Clock, Files};

/// How many bytes of the front of a recording are read for its setup records.
const FRONT: usize = 1_048_576;

/// The times of day that are asked for, if any, and the channel whose time packets tell them; all where none is named.
#[derive(Clone, Copy, Debug, PartialEq, Eq)]
pub struct Times {
    /// Whether any are asked for.
    pub asked: bool,
    /// The channel that is named, 1 to 65,535.
    pub channel: Option<u16>,
}

/// The bytes of a recording in one pass over it.
#[derive(Drop)]
pub enum Bytes<'f, F, R, E> {
    /// Those that are kept.
    Kept(&'f [u8]),
    /// Those of a file that was opened for this pass, and is watched.
    File(Watched<'f, F, R, E>),
}

impl<'f, F: Read, R: Clock + Files, E: Eprint + IsTerminal> Read for Bytes<'f, F, R, E> {
    fn read(&mut self, buf: &mut [u8]) -> io::Result<usize> {
        match self {
            Bytes::Kept(rest) => rest.read(buf),
            Bytes::File(file) => file.read(buf),
        }
    }
}

impl<'f, F: Advance, R: Clock + Files, E: Eprint + IsTerminal> Advance for Bytes<'f, F, R, E> {
    fn advance(&mut self, count: u64) -> io::Result<u64> {
        match self {
            Bytes::Kept(rest) => rest.advance(count),
            Bytes::File(file) => file.advance(count),
        }
    }
}

/// What a pass over a recording reads.
#[derive(Drop)]
pub enum Pass<F: Read> {
    /// All of it.
    Whole(F),
    /// The packets without a fault of one that may be damaged.
    Sound(SoundPackets<F>),
}

impl<F: Read + Drop> Pass<F> {
    /// A pass over these bytes, or over what is sound of them.
    fn over(alloc: Global, bytes: F, skip: bool) -> Result<Pass<F>, AllocError> {
        if skip {
            Ok(Pass::Sound(SoundPackets::over(alloc, bytes)?))
        } else {
            Ok(Pass::Whole(bytes))
        }
    }
}

impl<F: Read> Read for Pass<F> {
    fn read(&mut self, buf: &mut [u8]) -> io::Result<usize> {
        match self {
            Pass::Whole(bytes) => bytes.read(buf),
            Pass::Sound(packets) => packets.read(buf),
        }
    }
}

impl<F: Advance> Advance for Pass<F> {
    fn advance(&mut self, count: u64) -> io::Result<u64> {
        match self {
            Pass::Whole(bytes) => bytes.advance(count),
            Pass::Sound(packets) => packets.advance(count),
        }
    }
}

/// A recording that a command asks for: what tells how far a pass over it has come, and its bytes where they are kept.
#[derive(Drop)]
pub struct Source<'f, 'a, R, E> {
    rt: &'f R,
    name: &'a str,
    watch: Watch<'f, R, E>,
    kept: Option<Vec<u8>>,
}

/// The bytes of a recording that cannot be opened anew for each pass, as of a pipe; None where it is a plain file.
fn kept_of<'a, R: Files + AllocGlobal>(
    rt: &R,
    name: &'a str,
) -> Result<Option<Vec<u8>>, CommandFault<'a>> {
    match fs::metadata(rt, name) {
        Ok(about) if about.is_file() => {
            drop(open_to_read(rt, name)?);
            Ok(None)
        }
        _ => Ok(Some(read_whole(rt, name)?)),
    }
}

impl<'f, 'a, R: Files + AllocGlobal + Clock, E: Eprint + IsTerminal> Source<'f, 'a, R, E> {
    /// The recording with this name. Bytes are kept of what is no plain file. One that cannot be opened, or not be read
    /// where it is kept, is a device fault with its name as given.
    pub fn of(
        rt: &'f R,
        errors: &'f E,
        name: &'a str,
    ) -> Result<Source<'f, 'a, R, E>, CommandFault<'a>> {
        Ok(Source::over(rt, errors, name, kept_of(rt, name)?))
    }

    /// The same, and its bytes are kept in any case.
    pub fn kept(
        rt: &'f R,
        errors: &'f E,
        name: &'a str,
    ) -> Result<Source<'f, 'a, R, E>, CommandFault<'a>> {
        Ok(Source::over(rt, errors, name, Some(read_whole(rt, name)?)))
    }

    /// The recording with this name, of which these bytes are kept, if any.
    fn over(
        rt: &'f R,
        errors: &'f E,
        name: &'a str,
        kept: Option<Vec<u8>>,
    ) -> Source<'f, 'a, R, E> {
        Source {
            rt,
            name,
            watch: Watch::begin(rt, errors, name),
            kept,
        }
    }

    /// The recording for passes over it, or with `skip` for passes over what is sound of it.
    pub fn recording(&self, skip: bool, prints: bool) -> Recording<'_, 'a, R, E> {
        Recording {
            rt: self.rt,
            name: self.name,
            watch: &self.watch,
            kept: match &self.kept {
                Some(bytes) => Some(bytes.as_slice()),
                None => None,
            },
            skip,
            prints,
        }
    }

    /// The passes are over: no line tells any more how far one has come.
    pub fn end(&self) {
        self.watch.end();
    }
}

/// A recording that is read anew from its start for each pass. How far the first has come is shown, and how far later
/// ones have where what they print goes to no terminal.
#[derive(Drop)]
pub struct Recording<'f, 'a, R, E> {
    rt: &'f R,
    name: &'a str,
    watch: &'f Watch<'f, R, E>,
    kept: Option<&'f [u8]>,
    /// Whether it may be damaged, and is read as far as it is sound where it is opened anew.
    skip: bool,
    /// Whether passes behind the first print.
    prints: bool,
}

impl<'f, 'a, R: Files + AllocGlobal + Clock, E: Eprint + IsTerminal> Recording<'f, 'a, R, E> {
    /// Its bytes from the first one on. How far they are read is shown, or not.
    fn open(&self, shown: bool) -> io::Result<Bytes<'f, SystemFile<R::File>, R, E>> {
        if let Some(bytes) = self.kept {
            return Ok(Bytes::Kept(bytes));
        }
        match fs::open(self.rt, self.name) {
            Ok(file) => {
                let file = SystemFile::over(file);
                Ok(Bytes::File(Watched::over(file, self.watch, shown)))
            }
            Err(error) => Err(error),
        }
    }

    /// The same, where one that cannot be opened is a device fault with its name.
    fn begin(&self, shown: bool) -> Result<Bytes<'f, SystemFile<R::File>, R, E>, CommandFault<'a>> {
        match self.open(shown) {
            Ok(bytes) => Ok(bytes),
            Err(error) => Err(CommandFault::of_stream(self.name, &error)),
        }
    }

    /// The memory of its process.
    pub fn alloc(&self) -> Global {
        self.rt.alloc()
    }

    /// Its name as given.
    pub fn name(&self) -> &'a str {
        self.name
    }

    /// Its bytes, where they are kept.
    pub fn bytes(&self) -> Option<&'f [u8]> {
        self.kept
    }

    /// All its bytes, for a pass that prints nothing.
    pub fn begin_reading(&self) -> Result<Bytes<'f, SystemFile<R::File>, R, E>, CommandFault<'a>> {
        self.begin(true)
    }

    /// All its bytes, for a pass that prints to the standard output.
    pub fn begin_printing(&self) -> Result<Bytes<'f, SystemFile<R::File>, R, E>, CommandFault<'a>> {
        self.begin(!prints_to_terminal(self.rt))
    }

    /// All its bytes, for a pass that is shown nowhere.
    pub(crate) fn begin_unseen(
        &self,
    ) -> Result<Bytes<'f, SystemFile<R::File>, R, E>, CommandFault<'a>> {
        self.begin(false)
    }

    /// All its bytes, or what is sound of it, as `reopen` gives them, where one that cannot be opened is a device fault
    /// with its name.
    pub fn begin_anew(
        &self,
    ) -> Result<Pass<Bytes<'f, SystemFile<R::File>, R, E>>, CommandFault<'a>> {
        match self.reopen() {
            Ok(pass) => Ok(pass),
            Err(error) => Err(CommandFault::of_stream(self.name, &error)),
        }
    }

    /// Whether it can be read to its end, or its first fault.
    pub fn check(&self) -> Result<(), CommandFault<'a>> {
        let bytes = self.begin_reading()?;
        answer_of_reading(self.name, check(self.alloc(), bytes))
    }

    /// Its clock, or that of what is sound of it, in a pass of its own where times of day are asked for, and else one
    /// that tells none.
    pub fn clock(&self, times: Times) -> Result<ReadClock, CommandFault<'a>> {
        let alloc = self.alloc();
        if !times.asked {
            return Ok(ReadClock::unset(alloc));
        }
        let bytes = self.begin_reading()?;
        let read = if self.skip {
            read_sound_clock(alloc, bytes, times.channel)
        } else {
            read_clock(alloc, bytes, times.channel)
        };
        answer_of_reading(self.name, read)
    }

    /// What its time stamps are, or those of what is sound of it, in a pass of its own where times are asked for, and
    /// else those of no message.
    pub fn stamps(&self, asked: bool) -> Result<Stamps, CommandFault<'a>> {
        if !asked {
            let none: &[u8] = &[];
            return answer_of_reading(self.name, read_stamps(self.alloc(), none));
        }
        let found = match self.begin_reading() {
            Ok(bytes) => self.stamps_among(bytes),
            Err(fault) => Err(fault),
        };
        if found.is_err() {
            self.watch.end();
        }
        found
    }

    /// The same behind all that was asked, in a pass that is shown nowhere.
    pub fn stamps_unseen(&self) -> Result<Stamps, CommandFault<'a>> {
        let bytes = self.begin_unseen()?;
        self.stamps_among(bytes)
    }

    /// What the time stamps are of its bytes in a pass, or of what is sound of them.
    fn stamps_among(
        &self,
        bytes: Bytes<'f, SystemFile<R::File>, R, E>,
    ) -> Result<Stamps, CommandFault<'a>> {
        let pass = Pass::over(self.alloc(), bytes, self.skip)?;
        answer_of_reading(self.name, read_stamps(self.alloc(), pass))
    }

    /// Its first bytes, at most 1 MiB, in a pass that is shown nowhere; as many as can be read.
    pub fn front(&self) -> Result<Vec<u8>, AllocError> {
        let mut front = Vec::new(self.alloc());
        let Ok(mut bytes) = self.open(false) else {
            return Ok(front);
        };
        let mut room = [0u8; 4096];
        for _piece in 0..FRONT {
            match bytes.read(&mut room) {
                Ok(count) if count > 0 && count <= room.len() && front.len() < FRONT => {
                    front.extend_from_slice(&room[..count])?;
                }
                _ => return Ok(front),
            }
        }
        Ok(front)
    }

    /// What was made of it, or the fault of one that could not be read to its end.
    pub fn answer<T>(&self, answer: Result<T, StreamFault>) -> Result<T, CommandFault<'a>> {
        answer_of_reading(self.name, answer)
    }

    /// What was printed of it, or why it was not printed to its end.
    pub fn printed<T>(&self, answer: Result<T, StreamFault>) -> Result<T, CommandFault<'a>> {
        match answer {
            Ok(made) => Ok(made),
            Err(fault) => Err(fault_of_dump(self.name, fault, self.watch.has_failed())),
        }
    }
}

impl<'f, 'a, R: Files + AllocGlobal + Clock, E: Eprint + IsTerminal> Reopen
    for Recording<'f, 'a, R, E> {
    type Reader = Pass<Bytes<'f, SystemFile<R::File>, R, E>>;

    fn reopen(&self) -> io::Result<Pass<Bytes<'f, SystemFile<R::File>, R, E>>> {
        let shown = self.watch.is_new() || !self.prints || !prints_to_terminal(self.rt);
        let bytes = match self.open(shown) {
            Ok(bytes) => bytes,
            Err(error) => return Err(error),
        };
        match Pass::over(self.alloc(), bytes, self.skip) {
            Ok(pass) => Ok(pass),
            Err(_) => Err(Error::from(ErrorKind::OutOfMemory)),
        }
    }
}

/// The fault of a recording that was not read to its end, where a device's failure is that of this name.
pub fn fault_of_reading<'a>(name: &'a str, fault: StreamFault) -> CommandFault<'a> {
    match fault {
        StreamFault::Refused(refusal) => CommandFault::Recording(refusal),
        StreamFault::Memory => CommandFault::Memory,
        StreamFault::Device => CommandFault::Device(name),
    }
}

/// What was made of a recording with this name, or the fault of one that could not be read to its end.
pub fn answer_of_reading<'a, T>(
    name: &'a str,
    answer: Result<T, StreamFault>,
) -> Result<T, CommandFault<'a>> {
    match answer {
        Ok(made) => Ok(made),
        Err(fault) => Err(fault_of_reading(name, fault)),
    }
}

/// The fault of a recording that was not printed to its end: the reader's, where that failed.
pub fn fault_of_dump<'a>(name: &'a str, fault: StreamFault, failed: bool) -> CommandFault<'a> {
    fault_of_reading(if failed { name } else { "-" }, fault)
}
