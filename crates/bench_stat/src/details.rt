//! How the messages of a channel follow one another, and its status words.
ghost use Rattle.bench_stat.specs.Details.{details_of};
ghost use Rattle.ch11_layout.specs.Stamps.{Recorded};
ghost use Rattle.std.specs.Prelude.{◌≡◌, ◌∷◌, [], List};

use crate::flows::Flow;
use crate::replies::Replies;
use ch11_layout::View;

/// How the messages of a channel follow one another, and its status words.
#[derive(Clone, Copy, Debug, PartialEq, Eq)]
pub struct Details {
    /// Its messages.
    pub flow: Flow,
    /// Its status words.
    pub replies: Replies,
}

impl Details {
    /// Those of no messages.
    pub(crate) fn none() -> Details
        ensures { result ≡ details_of [] }
    {
        Details {
            flow: Flow::none(),
            replies: Replies::none(),
        }
    }

    /// One more message.
    pub(crate) fn note(&mut self, view: &View<'_>)
        ensures { (history : List Recorded) → self.old ≡ details_of history
            → self.new ≡ details_of (view.now ∷ history) }
    {
        self.flow.note(view);
        self.replies.note(view);
    }
}
