//! Why a run gave no recording.
ghost use Rattle.bench_run.specs.Codes.{run_code};
ghost use Rattle.std.specs.Prelude.{◌≡◌, [], Some};

use bench_mail::Inbox;
use bench_report::Report;
use std::alloc::Global;
use std::fmt::{self, Display, Formatter, Write};

/// Why a run gave no recording; each fault hands the sink back.
#[derive(Drop)]
pub enum RunError<S> {
    /// U2: there is no job or more than 32, or a setting is out of its range; in a live run also where there are not a
    /// mailbox and an inbox for each job, made for it. Nothing was put into the sink.
    Settings { sink: S },
    /// U1: two jobs have the same channel. Nothing was put into the sink.
    ChannelTwice { sink: S },
    /// U5: the prologue is not a list of sound packets, or has one of MIL-STD-1553 messages. Nothing was put into the
    /// sink.
    Prologue { sink: S },
    /// U3: memory or a thread was refused. What the sink took is the beginning of a recording.
    Memory { sink: S },
    /// U4: the sink failed once it had taken so many bytes. The channels ran to their ends, and the report tells of
    /// them; its packets are those that the sink took whole.
    Sink { sink: S, report: Report, taken: u64 },
}

/// `U2`, `U1`, `U5`, `U3`, `U4 taken 100`.
impl<S> Display for RunError<S> {
    ghost output = { λ e. Some (run_code e) };

    fn fmt<W: Write>(&self, f: &mut Formatter<W>) -> fmt::Result {
        match self {
            RunError::Settings { .. } => f.write_str("U2"),
            RunError::ChannelTwice { .. } => f.write_str("U1"),
            RunError::Prologue { .. } => f.write_str("U5"),
            RunError::Memory { .. } => f.write_str("U3"),
            RunError::Sink { taken, .. } => write!(f, "U4 taken {taken}"),
        }
    }
}

/// Why a live run gave no recording: the fault, and the inboxes in the order of the jobs, but none after U3.
#[derive(Drop)]
pub struct LiveError<S> {
    pub fault: RunError<S>,
    pub inboxes: Vec<Inbox>,
}

impl<S> LiveError<S> {
    /// U3, with no inbox.
    pub(crate) fn of_memory(alloc: Global, sink: S) -> LiveError<S>
        ensures fault { result.fault ≡ RunError.Memory sink }
        ensures inboxes { result.inboxes.items ≡ [] }
    {
        LiveError {
            fault: RunError::Memory { sink },
            inboxes: Vec::new(alloc),
        }
    }
}

/// What the fault prints.
impl<S> Display for LiveError<S> {
    ghost output = { λ e. Some (run_code e.fault) };

    fn fmt<W: Write>(&self, f: &mut Formatter<W>) -> fmt::Result {
        self.fault.fmt(f)
    }
}
