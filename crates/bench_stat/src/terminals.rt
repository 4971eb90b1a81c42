//! The figures of a terminal.
ghost use Rattle.bench_stat.specs.Figures.{figures_of, terminals_of, is_receive_call, is_transmit_call, is_mode_call};
ghost use Rattle.bench_stat.specs.ChannelText as text;
ghost use Rattle.bench_stat.specs.Steps.{with_kind, with_response, with_call};
ghost use Rattle.bench_stat.specs.declared.calls.Call.{Call as CallValue};
ghost use Rattle.mil_word.specs.Fields.{field_values};
ghost use Rattle.std.specs.Prelude.{◌≡◌, ◌<◌, ◌∷◌, [], List, length};

use crate::calls::{Call, CallKind};
use crate::counts::{counted, more};
use mil_word::fields::FIELD_VALUES;

/// What is counted of a terminal address. Counts go as far as 64 bits count.
#[derive(Clone, Copy, Debug, PartialEq, Eq)]
pub struct TerminalFigures {
    /// How often it was told to receive data words.
    pub receive: u64,
    /// How often it was told to transmit data words.
    pub transmit: u64,
    /// How many mode commands it got.
    pub mode: u64,
    /// How many of these commands stood in a message with an error that belongs to this terminal.
    pub errors: u64,
    /// How many of them it answered, by the gap times word.
    pub responses: u64,
    /// The sum of its response times, in ticks of 0.1 µs.
    pub total: u64,
    /// The least response time in ticks, 255 where there was none. The gap times word has 255 for longer ones too.
    pub least: u8,
    /// The greatest response time in ticks, 0 where there was none.
    pub greatest: u8,
}

impl TerminalFigures {
    /// The figures of a terminal that was never called.
    pub fn none() -> TerminalFigures
        ensures { result ≡ figures_of [] }
    {
        TerminalFigures {
            receive: 0,
            transmit: 0,
            mode: 0,
            errors: 0,
            responses: 0,
            total: 0,
            least: 255,
            greatest: 0,
        }
    }

    /// How many commands it got, as far as 64 bits count.
    pub fn commands(&self) -> u64
        ensures { result ≡ text.commands_of self.now }
    {
        more(more(self.receive, self.transmit), self.mode)
    }

    /// What is shown of it in front of its response times: the commands of each kind, errors and responses.
    pub(crate) fn counts(&self) -> [u64; 5]
        ensures { result ≡ text.counts_of self.now }
    {
        [
            self.receive,
            self.transmit,
            self.mode,
            self.errors,
            self.responses,
        ]
    }

    /// The mean response time in hundredths of a µs, rounded down; None where there was no response.
    pub fn mean(&self) -> Option<u64>
        ensures { result ≡ text.mean_of self.now }
    {
        if self.responses == 0 {
            return None;
        }
        let mean = u128::from(self.total) * 10 / u128::from(self.responses);
        if mean > u128::from(u64::MAX) {
            return Some(u64::MAX);
        }
        Some(mean as u64)
    }

    /// Whether it was called at all.
    pub(crate) fn is_called(&self) -> bool
        ensures { result ≡ text.is_called self.now }
    {
        self.commands() > 0
    }

    fn note_kind(&mut self, call: &Call)
        ensures { self.new ≡ with_kind call.now self.old }
    {
        self.receive = counted(self.receive, is_receive(call));
        self.transmit = counted(self.transmit, is_transmit(call));
        self.mode = counted(self.mode, is_mode(call));
        self.errors = counted(self.errors, call.failed);
    }

    fn note_response(&mut self, response: u8)
        ensures { self.new ≡ with_response response self.old }
    {
        self.responses = more(self.responses, 1);
        self.total = more(self.total, u64::from(response));
        self.least = response.min(self.least);
        self.greatest = response.max(self.greatest);
    }

    /// One more call.
    fn note(&mut self, call: &Call)
        ensures { self.new ≡ with_call call.now self.old }
    {
        self.note_kind(call);
        if call.response != 0 {
            self.note_response(call.response);
        }
    }
}

fn is_receive(call: &Call) -> bool
    ensures { result ≡ is_receive_call call.now }
{
    matches!(call.kind, CallKind::Receive)
}

fn is_transmit(call: &Call) -> bool
    ensures { result ≡ is_transmit_call call.now }
{
    matches!(call.kind, CallKind::Transmit)
}

fn is_mode(call: &Call) -> bool
    ensures { result ≡ is_mode_call call.now }
{
    matches!(call.kind, CallKind::Mode)
}

/// The figures of all addresses before any call.
pub(crate) fn no_calls() -> [TerminalFigures; FIELD_VALUES]
    ensures { result ≡ terminals_of [] }
{
    [TerminalFigures::none(); FIELD_VALUES]
}

/// One more call, for the address that it calls.
pub(crate) fn note_call(terminals: &mut [TerminalFigures], call: &Call)
    requires many { length terminals.old ≡ field_values }
    requires range { call.now.address < field_values }
    ensures noted { (calls : List CallValue) → terminals.old ≡ terminals_of calls
        → terminals.new ≡ terminals_of (call.now ∷ calls) }
    ensures many { length terminals.new ≡ field_values }
{
    let place = usize::from(call.address);
    let mut figures = terminals[place];
    figures.note(call);
    terminals[place] = figures;
}
