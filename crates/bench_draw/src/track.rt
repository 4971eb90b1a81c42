//! What has a lane of its own in a channel, and what of a message stands there.
ghost use Rattle.bench_draw.specs.Lanes as spec;
ghost use Rattle.std.specs.Prelude.{◌≡◌};

use ch11_layout::View;
use mil_word::{Command, Line};

/// By what the messages of a channel have lanes.
#[derive(Clone, Copy, Debug, PartialEq, Eq)]
pub enum By {
    /// A lane for line A, and one for line B.
    Line,
    /// A lane for each terminal that is called, and one for broadcast.
    Terminal,
}

/// What has a lane of its own in a channel.
#[derive(Clone, Copy, Debug, PartialEq, Eq)]
pub enum Track {
    /// A line.
    Line(Line),
    /// The terminal of an address, 0 to 31, where 31 is that of all terminals (MIL-STD-1553B 4.3.3.5.1.2).
    Terminal(u8),
}

impl Track {
    /// Whether a message has a place in the lane: it went over this line, or one of its commands calls this terminal.
    pub fn has(self, view: &View<'_>) -> bool
        ensures { result ≡ spec.stands_in view.now self }
    {
        match self {
            Track::Line(Line::A) => !view.is_on_line_b(),
            Track::Line(Line::B) => view.is_on_line_b(),
            Track::Terminal(address) => calls(view, address),
        }
    }

    /// Whether the word of a message at a place, counted from 0, stands in a lane that has the message: in that of a
    /// terminal it does where that terminal sends it or is sent it.
    pub fn has_word(self, view: &View<'_>, place: usize) -> bool
        ensures { result ≡ spec.has_word view.now place self }
    {
        match self {
            Track::Line(_) => true,
            Track::Terminal(address) => concerns(view, place, address),
        }
    }
}

/// The address that the command at a place of a message calls, 0 to 31, if there is a command.
pub(crate) fn called_at(view: &View<'_>, place: usize) -> Option<u8>
    ensures { result ≡ spec.called_at view.now place }
{
    if place < view.layout().commands {
        Some(Command::of(view.word(place)).address())
    } else {
        None
    }
}

/// Whether the command at a place of a message calls an address.
fn calls_at(view: &View<'_>, place: usize, address: u8) -> bool
    ensures { result ≡ spec.calls_at view.now place address }
{
    match called_at(view, place) {
        Some(called) => called == address,
        None => false,
    }
}

/// Whether one of the commands of a message calls an address.
fn calls(view: &View<'_>, address: u8) -> bool
    ensures { result ≡ spec.calls view.now address }
{
    calls_at(view, 0, address) || calls_at(view, 1, address)
}

/// Whether the terminal of an address sends the word of a message at a place, or is sent it.
fn concerns(view: &View<'_>, place: usize, address: u8) -> bool
    ensures { result ≡ spec.concerns view.now place address }
{
    let layout = view.layout();
    if place < layout.commands {
        calls_at(view, place, address)
    } else if place < layout.data_start {
        calls_at(view, layout.commands.saturating_sub(1), address)
    } else if place < layout.data_end {
        calls(view, address)
    } else {
        calls_at(view, 0, address)
    }
}
