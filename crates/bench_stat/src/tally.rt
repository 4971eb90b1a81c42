//! A channel's figures on the way.
ghost use Rattle.bench_stat.specs.Figures.{terminals_of};
ghost use Rattle.bench_stat.specs.Sendings.{calls_sent, is_retry_behind};
ghost use Rattle.bench_stat.specs.Steps.{tally_of};
ghost use Rattle.bench_stat.specs.declared.calls.Call.{Call as CallValue};
ghost use Rattle.ch11_layout.specs.Stamps.{Recorded};
ghost use Rattle.mil_word.specs.Fields.{field_values};
ghost use Rattle.std.specs.Prelude.{◌≡◌, ℕ, ◌∷◌, ◌++◌, [], List, length};

use crate::calls::Call;
use crate::channels::ChannelFigures;
use crate::counts::counted;
use crate::errors::Errors;
use crate::sendings::Sending;
use crate::terminals::{TerminalFigures, no_calls, note_call};
use crate::traffic::Traffic;
use ch11_layout::View;

/// The figures of a channel so far, and how its latest message was sent.
#[derive(Clone, Copy, Debug, PartialEq, Eq)]
pub struct Tally {
    /// The figures so far.
    pub figures: ChannelFigures,
    /// How the latest message was sent.
    pub latest: Option<Sending>,
}

impl Tally {
    /// A channel before its first message.
    pub fn begin(channel: u16) -> Tally
        ensures { result ≡ tally_of channel [] }
    {
        let figures = ChannelFigures {
            channel,
            traffic: Traffic::none(),
            errors: Errors::none(),
            retries: 0,
            terminals: no_calls(),
        };
        Tally {
            figures,
            latest: None,
        }
    }

    /// One more message.
    pub fn note(&mut self, view: &View<'_>)
        ensures { (channel : ℕ) (history : List Recorded) → self.old ≡ tally_of channel history
            → self.new ≡ tally_of channel (view.now ∷ history) }
    {
        let sending = Sending::of(view);
        self.figures.traffic.note(view);
        self.figures.errors.note(view);
        self.figures.retries = counted(self.figures.retries, is_retry(&self.latest, &sending));
        note_calls(
            &mut self.figures.terminals,
            &sending,
            view.first_gap(),
            view.second_gap(),
        );
        self.latest = Some(sending);
    }
}

/// Whether the message repeats the latest one on the other line.
fn is_retry(latest: &Option<Sending>, now: &Sending) -> bool
    ensures { result ≡ is_retry_behind latest.now now.now }
{
    match latest {
        None => false,
        Some(before) => now.is_retry_of(before),
    }
}

/// The calls of one more message.
fn note_calls(terminals: &mut [TerminalFigures], sending: &Sending, first_gap: u8, second_gap: u8)
    requires { length terminals.old ≡ field_values }
    ensures { (calls : List CallValue) → terminals.old ≡ terminals_of calls
        → terminals.new ≡ terminals_of (calls_sent sending.now first_gap second_gap ++ calls) }
{
    let Some(first) = sending.first else {
        return;
    };
    match sending.second {
        None => note_call(terminals, &Call::by(first, sending.failed, first_gap)),
        Some(second) => {
            let receiver_failed = sending.failed && !sending.sender_failed;
            note_call(terminals, &Call::by(first, receiver_failed, second_gap));
            note_call(
                terminals,
                &Call::by(second, sending.sender_failed, first_gap),
            );
        }
    }
}
