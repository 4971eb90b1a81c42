//! What is asked of a message.
ghost use Rattle.bench_places.specs.Places.{is_sought};
ghost use Rattle.std.specs.Prelude.{◌≡◌};

use bench_select::selects_commands;
use ch11_layout::View;
use judge_rules::Selector;

/// What is asked of a message.
#[derive(Clone, Copy, Debug, PartialEq, Eq)]
pub enum Sought {
    /// To be of this channel.
    Channel(u16),
    /// To be later than so many ticks of 0.1 µs.
    Later(u64),
    /// To have the commands that a selector asks for.
    Commands(Selector),
}

impl Sought {
    /// Whether a message of a channel meets it.
    pub(crate) fn is_met(&self, channel: u16, view: &View<'_>) -> bool
        ensures { result ≡ is_sought self.now (channel, view.now) }
    {
        match self {
            Sought::Channel(one) => channel == *one,
            Sought::Later(ticks) => view.has_time() && *ticks < view.stamp(),
            Sought::Commands(selector) => selects_commands(*selector, view),
        }
    }
}
