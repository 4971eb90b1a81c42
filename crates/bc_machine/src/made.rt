//! The messages that a controller made, as its host looks back at them.
ghost use Rattle.bc_machine.specs.MadeMessages.{own, inserted};
ghost use Rattle.std.specs.Prelude.{◌≡◌, ◌++◌, ◌∷◌, []};

use history::History;
use mil_message::Message;
use std::marker::Model;
use std::snapshot::Snapshot;

/// A message that was made: one of the script, as it stands there, or one that the host of the controller had inserted.
/// Contracts see which; no byte of the message is kept.
#[derive(Drop)]
pub struct Made {
    kind: Kind,
}

/// Which of the two.
#[derive(Drop)]
enum Kind {
    Own(Snapshot<Message>),
    Inserted,
}

impl Model for Made {
    ghost use Rattle.bc_machine.specs.MadeMessages.{MadeMessage, made_in};

    ghost Value = { MadeMessage };

    ghost view = { λ m. made_in m.kind };
}

impl Made {
    /// A message of the script.
    #[inline]
    pub fn own(message: &Message) -> Made
        ensures { result ≡ own message.now }
    {
        Made {
            kind: Kind::Own(Snapshot::of(message)),
        }
    }

    /// An inserted message.
    #[inline]
    pub fn inserted() -> Made
        ensures { result ≡ inserted }
    {
        Made {
            kind: Kind::Inserted,
        }
    }
}

/// These messages, and an inserted one behind them.
pub fn and_inserted(made: &History<Made>) -> History<Made>
    ensures { result ≡ made.now ++ inserted ∷ [] }
{
    made.put_behind(&Made::inserted())
}

/// These messages, and one of the script behind them.
pub fn and_own(made: &History<Made>, message: &Message) -> History<Made>
    ensures { result ≡ made.now ++ own message.now ∷ [] }
{
    made.put_behind(&Made::own(message))
}
