//! The messages of a script as a job has them: which message of which turn comes next, and the words that it carries.

use crate::explanations::Explanation;
use crate::frames::Schedule;
use crate::script::{ScriptText, Sending};
use crate::wanted::Wanted;
use controller_host::{Destination, Sources};
use controller_text::{DestinationText, read_control};
use mil_host::DataWords;
use mil_message::Message;
use std::alloc::{AllocError, Global};
use std::fmt::Write;

/// Goes through the messages that a script sends.
#[derive(Drop)]
pub(crate) struct Framing<'s> {
    schedule: &'s Schedule,
    script: ScriptText,
    /// The messages of the turn, as the script has them.
    turn: Vec<Sending>,
    /// Which group it is, and how many of its messages were sent.
    group: usize,
    sent: u64,
    /// The words that the host of the controller has set.
    sources: Sources,
    /// What the host does in front of the message.
    control: String,
}

impl<'s> Framing<'s> {
    /// In front of the first message.
    pub(crate) fn begin(alloc: Global, schedule: &'s Schedule) -> Framing<'s> {
        Framing {
            schedule,
            script: ScriptText::begin(alloc),
            turn: Vec::new(alloc),
            group: 0,
            sent: 0,
            sources: Sources::none(alloc),
            control: String::new(alloc),
        }
    }

    /// The place of the next message in its turn.
    fn place(&self) -> usize {
        let steps = match self.schedule.groups.get(self.group) {
            Some(group) => group.steps.len() as u64,
            None => 0,
        };
        if steps == 0 {
            0
        } else {
            (self.sent % steps) as usize
        }
    }

    /// Goes on to a message that the script sends.
    pub(crate) fn send(
        &mut self,
        wanted: &Wanted,
        explanation: &Explanation,
    ) -> Result<(), AllocError> {
        let place = self.place();
        if place == self.turn.len() {
            self.turn.push(Sending {
                line: wanted.line,
                message: explanation.message.copy(),
            })?;
        }
        self.carry(place, &explanation.message)?;
        self.sent = self.sent.saturating_add(1);
        self.go_on()
    }

    /// Writes the group once its first turn is known, and goes on to the next behind its last.
    fn go_on(&mut self) -> Result<(), AllocError> {
        let schedule = self.schedule;
        let Some(group) = schedule.groups.get(self.group) else {
            return Ok(());
        };
        let steps = group.steps.len() as u64;
        if self.sent == steps {
            self.script.put_group(group, self.turn.as_slice())?;
        }
        if self.sent >= steps.saturating_mul(u64::from(group.turns)) {
            self.group = self.group.saturating_add(1);
            self.sent = 0;
            self.turn.clear();
        }
        Ok(())
    }

    /// Has the host set the words of a message, where the script's message at a place of the turn would carry others.
    fn carry(&mut self, place: usize, message: &Message) -> Result<(), AllocError> {
        self.control.clear();
        let Some(own) = self.turn.get(place) else {
            return Ok(());
        };
        if self.sources.filled(&own.message) == *message {
            return Ok(());
        }
        let Some(destination) = Destination::of(message) else {
            return Ok(());
        };
        let (destination, words) = (
            DestinationText(destination),
            DataWords(message.data_words()),
        );
        write!(&mut self.control, "data {destination}{words}")?;
        if let Ok(control) = read_control(self.control.as_bytes()) {
            self.sources.room()?;
            self.sources.set(&control);
        }
        Ok(())
    }

    /// What the host does in front of the message; no text where it does nothing.
    pub(crate) fn control(&self) -> &str {
        self.control.as_str()
    }

    /// The text of the script.
    pub(crate) fn script(&self) -> &str {
        self.script.as_str()
    }
}
