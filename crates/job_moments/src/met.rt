//! What is looked at of a message.
ghost use Rattle.job_moments.specs.Moments.{is_about};
ghost use Rattle.mil_message.specs.Forms.{first_command, second_command};
ghost use Rattle.std.specs.Prelude.{◌≡◌};

use judge_rules::Selector;
use mil_message::Message;
use mil_word::Command;

/// A message that was made, or the one that comes next: when it starts, and by which commands the controller sends it,
/// whatever a planned fault makes of them.
#[derive(Clone, Copy, Debug, PartialEq, Eq)]
pub struct Met {
    /// When its first word starts, in ticks of 0.1 µs from the job's start tick on.
    pub start: u64,
    /// Its first command.
    pub first: Command,
    /// The second command of the two forms between terminals.
    pub second: Option<Command>,
}

impl Met {
    /// A message that starts at a tick, counted from the job's start tick on.
    pub fn of(start: u64, message: &Message) -> Met
        ensures start { result.start ≡ start }
        ensures first { result.first ≡ first_command message.now }
        ensures second { result.second ≡ second_command message.now }
    {
        let commands = message.commands();
        Met {
            start,
            first: commands.first,
            second: commands.second,
        }
    }

    /// Whether a selector is about it.
    pub(crate) fn is_of(&self, selector: Selector) -> bool
        ensures { result ≡ is_about selector self.now }
    {
        selector.selects(self.first, self.second)
    }
}
