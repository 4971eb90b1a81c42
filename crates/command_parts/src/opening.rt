//! A recording that is opened for messages of it to be written to a file of another kind.

use crate::dictionaries::selection_by;
use crate::extracting::Extract;
use crate::looking::tell_of_unknown;
use crate::recordings::{Recording, Source, Times};
use bench_files::Kind;
use bench_requests::CommandFault;
use bench_select::{Selection, Stamps};
use signal_dictionary::Signal;
use std::io::IsTerminal;
use std::rt::{Clock, Files};

/// How a recording is opened for messages of it to be written.
#[derive(Clone, Copy, Debug)]
pub struct OpenWay<'a> {
    /// The kind of the out file.
    pub kind: Kind,
    /// The file of the dictionary of signals, if any.
    pub dictionary: Option<&'a str>,
    /// The times of day that are asked for.
    pub times: Times,
    /// Whether the stamps of all messages count, and not only where a bound is a time.
    pub stamped: bool,
    /// Whether it may be damaged, and is read as far as it is sound.
    pub skip: bool,
}

impl<'a> OpenWay<'a> {
    /// That of a recording which is sound, and of which the stamps of all messages count.
    pub fn stamped(kind: Kind, dictionary: Option<&'a str>, times: Times) -> OpenWay<'a> {
        OpenWay {
            kind,
            dictionary,
            times,
            stamped: true,
            skip: false,
        }
    }
}

/// The messages that are chosen of a recording.
#[derive(Clone, Copy)]
pub struct ChosenMessages<'o> {
    /// Which messages.
    pub selection: Selection<'o>,
    /// The signals of the dictionary, none where none is named.
    pub signals: &'o [Signal],
}

/// A recording that was opened for messages of it to be written.
#[derive(Drop)]
pub struct Opened<'f, 'a, R, E> {
    /// Which messages, and where to.
    pub(crate) extract: &'f Extract<'a>,
    /// How it was opened.
    pub(crate) opening: OpenWay<'a>,
    signals: Vec<Signal>,
    source: Source<'f, 'a, R, E>,
    stamps: Stamps,
}

impl<'a> Extract<'a> {
    /// Opens the recording. The faults of the command line and of the out file come first, then those of the
    /// dictionary.
    pub fn open<'f, R: Files + AllocGlobal + Clock, E: Eprint + IsTerminal>(
        &'f self,
        rt: &'f R,
        errors: &'f E,
        opening: OpenWay<'a>,
    ) -> Result<Opened<'f, 'a, R, E>, CommandFault<'a>> {
        let signals = self.judge(rt, opening.kind, opening.dictionary)?;
        let stamped = self.needs_stamps(opening, signals.as_slice())?;
        let source = Source::of(rt, errors, self.recording)?;
        let stamps = source.recording(opening.skip, false).stamps(stamped)?;
        Ok(Opened {
            extract: self,
            opening,
            signals,
            source,
            stamps,
        })
    }

    /// Whether the stamps of messages count; or the fault of a selection by none of these signals.
    fn needs_stamps(
        &self,
        opening: OpenWay<'a>,
        signals: &[Signal],
    ) -> Result<bool, CommandFault<'a>> {
        let selection = selection_by(&self.selection, opening.dictionary, signals)?;
        Ok(opening.stamped || selection.is_timed())
    }
}

impl<'a, R: Files + AllocGlobal + Clock, E: Eprint + IsTerminal> Opened<'_, 'a, R, E> {
    /// The recording for passes over it.
    pub fn recording(&self) -> Recording<'_, 'a, R, E> {
        self.source.recording(self.opening.skip, false)
    }

    /// The messages that are chosen of it.
    pub fn chosen(&self) -> Result<ChosenMessages<'_>, CommandFault<'a>> {
        let (dictionary, signals) = (self.opening.dictionary, self.signals.as_slice());
        let selection = selection_by(&self.extract.selection, dictionary, signals)?;
        Ok(ChosenMessages {
            selection: selection.counting_from(self.stamps.origins.as_slice()),
            signals,
        })
    }

    /// The file to write to.
    pub fn out(&self) -> &'a str {
        self.extract.out
    }

    /// The passes are over: no line tells any more how far one has come, and it is said of which channels the times are
    /// not known.
    pub fn end(&self, errors: &E) {
        self.source.end();
        tell_of_unknown(errors, self.extract.recording, &self.stamps);
    }
}
