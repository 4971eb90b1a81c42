//! The text of the script: groups of messages that recur, in frames.

use crate::frames::{Group, MOST_TURNS};
use crate::turns::LONGEST_PERIOD;
use frame_text::SendText;
use mil_message::Message;
use mil_word::Line;
use mil_word::timing::LEAST_GAP;
use std::alloc::{AllocError, Global};
use std::fmt::Write;

/// How many µs a unit of a frame's period has.
const UNIT: u64 = 100;

/// What stands in front of a line for each block that is open, and for how many at most.
const INDENT: &str = "  ";

const DEEPEST: usize = 4;

/// A message that the script sends.
#[derive(Debug, Drop)]
pub(crate) struct Sending {
    pub(crate) line: Line,
    pub(crate) message: Message,
}

/// A script on the way.
#[derive(Drop)]
pub(crate) struct ScriptText {
    text: String,
    /// How many blocks are open.
    depth: usize,
    /// The gap that the script has asked for last; 0 where that depends on the turn.
    gap: u16,
}

impl ScriptText {
    /// No frame.
    pub(crate) fn begin(alloc: Global) -> ScriptText {
        ScriptText {
            text: String::new(alloc),
            depth: 0,
            gap: LEAST_GAP,
        }
    }

    /// The spaces in front of a line.
    fn indent(&mut self) -> Result<(), AllocError> {
        for _block in 0..self.depth.min(DEEPEST) {
            self.text.push_str(INDENT)?;
        }
        Ok(())
    }

    /// Opens a block.
    fn open(&mut self, word: &str, number: u64) -> Result<(), AllocError> {
        self.indent()?;
        write!(&mut self.text, "{word} {number} {{\n")?;
        self.depth = self.depth.saturating_add(1);
        Ok(())
    }

    /// Closes the innermost block.
    fn close(&mut self) -> Result<(), AllocError> {
        self.depth = self.depth.saturating_sub(1);
        self.indent()?;
        self.text.push_str("}\n")
    }

    /// A frame without messages of so many units of 100 µs.
    fn put_empty(&mut self, units: u64) -> Result<(), AllocError> {
        self.open("frame", units.saturating_mul(UNIT))?;
        self.close()
    }

    /// Frames without messages, for as many units of 100 µs as pass in front of a group.
    fn put_pause(&mut self, units: u64) -> Result<(), AllocError> {
        let (longest, rest) = (units / LONGEST_PERIOD, units % LONGEST_PERIOD);
        if longest > 0 {
            self.open("repeat", longest)?;
            self.put_empty(LONGEST_PERIOD)?;
            self.close()?;
        }
        if rest > 0 {
            self.put_empty(rest)?;
        }
        Ok(())
    }

    /// Asks for a gap, where another is in force.
    fn put_gap(&mut self, gap: u16) -> Result<(), AllocError> {
        if self.gap == gap {
            return Ok(());
        }
        self.gap = gap;
        self.indent()?;
        write!(&mut self.text, "gap {gap}\n")
    }

    /// A message.
    fn put_send(&mut self, sending: &Sending) -> Result<(), AllocError> {
        self.indent()?;
        let send = SendText {
            line: sending.line,
            message: &sending.message,
        };
        write!(&mut self.text, "send {send}\n")
    }

    /// The messages of a turn, in its frames.
    fn put_steps(&mut self, group: &Group, turn: &[Sending]) -> Result<(), AllocError> {
        let mut is_open = false;
        for place in 0..group.steps.len().min(turn.len()) {
            let step = group.steps[place];
            if step.frame > 0 {
                if is_open {
                    self.close()?;
                }
                self.open("frame", u64::from(step.frame) * UNIT)?;
                is_open = true;
            }
            self.put_gap(step.gap)?;
            self.put_send(&turn[place])?;
        }
        if is_open {
            self.close()?;
        }
        Ok(())
    }

    /// Turns of a group.
    fn put_turns(&mut self, group: &Group, turn: &[Sending], turns: u32) -> Result<(), AllocError> {
        self.open("repeat", u64::from(turns))?;
        if group
            .steps
            .as_slice()
            .iter()
            .any(|step| step.gap != LEAST_GAP)
        {
            // The gap at the end of a turn is another than that in front of the first.
            self.gap = 0;
        }
        self.put_steps(group, turn)?;
        self.close()
    }

    /// A group, of whose turn these are the messages.
    pub(crate) fn put_group(&mut self, group: &Group, turn: &[Sending]) -> Result<(), AllocError> {
        self.put_pause(group.pause)?;
        let (whole, rest) = (group.turns / MOST_TURNS, group.turns % MOST_TURNS);
        if whole > 1 {
            self.open("repeat", u64::from(whole))?;
        }
        if whole > 0 {
            self.put_turns(group, turn, MOST_TURNS)?;
        }
        if whole > 1 {
            self.close()?;
        }
        if rest > 0 {
            self.put_turns(group, turn, rest)?;
        }
        // What is inserted behind the group comes at its time.
        self.put_gap(LEAST_GAP)
    }

    /// The whole text.
    pub(crate) fn as_str(&self) -> &str {
        self.text.as_str()
    }
}
