//! The text of the job.

use crate::explanations::Explanation;
use crate::wanted::{LATEST_TICK, Wanted};
use controller_host::{Control, Insertion};
use controller_text::ControlText;
use mil_host::DataWord;
use mil_line::Fault;
use mil_word::Sync;
use std::alloc::{AllocError, Global};
use std::fmt::Write;

/// How many ticks of 0.1 µs a tenth of a second has.
const TENTH: u64 = 1_000_000;

/// A job on the way.
#[derive(Drop)]
pub(crate) struct JobText {
    text: String,
    tenth: Option<u64>,
}

/// The letter of a sync.
fn letter(sync: Sync) -> &'static str {
    match sync {
        Sync::CommandSync => "c",
        Sync::DataSync => "d",
    }
}

/// Puts a planned fault as its line.
fn put_fault(text: &mut String, number: u32, fault: &Fault) -> Result<(), AllocError> {
    write!(text, "fault {number} ")?;
    match fault {
        Fault::Mask {
            run,
            index,
            half_bits,
        } => {
            let halves = half_bits.half_bits();
            write!(text, "mask {run} {index} {halves:010X}")?;
        }
        Fault::Drop { run, index } => write!(text, "drop {run} {index}")?,
        Fault::Add { run, index, word } => {
            let (sync, value) = (letter(word.sync), DataWord(word.value));
            write!(text, "add {run} {index} {sync} {value}")?;
        }
        Fault::Late { run, ticks } => write!(text, "late {run} {ticks}")?,
        Fault::Mute { run } => write!(text, "mute {run}")?,
        Fault::Early { run, ticks } => write!(text, "early {run} {ticks}")?,
        Fault::Pause { run, index, ticks } => write!(text, "pause {run} {index} {ticks}")?,
        Fault::Babble { run, count, word } => {
            let value = DataWord(*word);
            write!(text, "babble {run} {count} {value}")?;
        }
    }
    text.push_str("\n")
}

/// A message as the host of the controller asks for it, in a job in which the first begins at a tick.
fn insertion_of(wanted: &Wanted, explanation: &Explanation, shift: u64) -> Insertion {
    let tick = wanted.at.saturating_add(shift).min(LATEST_TICK);
    Insertion::make(tick, wanted.line, explanation.message.copy())
}

impl JobText {
    /// The lines in front of the first message. `sent`: how many messages the script sends, where that is not empty.
    pub(crate) fn begin(
        alloc: Global,
        channel: u16,
        count: usize,
        sent: Option<u64>,
        addresses: &[u8],
    ) -> Result<JobText, AllocError> {
        let mut text = String::new(alloc);
        write!(
            &mut text,
            "# What was recorded of channel {channel}: {count} messages\n"
        )?;
        if let Some(sent) = sent {
            write!(&mut text, "# {sent} of them are sent by the script\n")?;
        }
        write!(&mut text, "channel {channel}\n")?;
        for address in addresses {
            write!(&mut text, "terminal {address}\n")?;
        }
        Ok(JobText { text, tenth: None })
    }

    /// Puts the time as a comment, where another tenth of a second has begun.
    fn put_time(&mut self, at: u64) -> Result<(), AllocError> {
        let tenth = at / TENTH;
        if self.tenth == Some(tenth) {
            return Ok(());
        }
        self.tenth = Some(tenth);
        let (seconds, part) = (tenth / 10, tenth % 10);
        write!(&mut self.text, "\n# {seconds}.{part} s\n")
    }

    /// Puts what hosts of terminals do in front of a message.
    fn put_deeds(&mut self, number: u32, explanation: &Explanation) -> Result<(), AllocError> {
        let text = &mut self.text;
        for deed in explanation.deeds.as_slice() {
            let (address, action) = (deed.address, &deed.action);
            write!(text, "at {number} {address} {action}\n")?;
        }
        Ok(())
    }

    /// Puts the faults that are planned for a message.
    fn put_faults(&mut self, number: u32, explanation: &Explanation) -> Result<(), AllocError> {
        for fault in explanation.faults.as_slice() {
            put_fault(&mut self.text, number, fault)?;
        }
        Ok(())
    }

    /// Puts the lines of a message that is inserted, in a job in which the first begins at a tick.
    pub(crate) fn put_inserted(
        &mut self,
        number: u32,
        wanted: &Wanted,
        explanation: &Explanation,
        shift: u64,
    ) -> Result<(), AllocError> {
        self.put_time(wanted.at)?;
        self.put_deeds(number, explanation)?;
        let control = Control::Insert(insertion_of(wanted, explanation, shift));
        let control = ControlText(&control);
        write!(&mut self.text, "at {number} bc {control}\n")?;
        self.put_faults(number, explanation)
    }

    /// Puts the lines of a message that the script sends, if there are any. `control`: what the host of the controller
    /// does in front of it.
    pub(crate) fn put_sent(
        &mut self,
        number: u32,
        wanted: &Wanted,
        explanation: &Explanation,
        control: &str,
    ) -> Result<(), AllocError> {
        let is_plain = explanation.deeds.as_slice().is_empty()
            && explanation.faults.as_slice().is_empty();
        if is_plain && control.is_empty() {
            return Ok(());
        }
        self.put_time(wanted.at)?;
        self.put_deeds(number, explanation)?;
        if !control.is_empty() {
            write!(&mut self.text, "at {number} bc {control}\n")?;
        }
        self.put_faults(number, explanation)
    }

    /// The whole text, with a script.
    pub(crate) fn end(self, script: &str) -> Result<String, AllocError> {
        let JobText { text, tenth: _ } = self;
        let mut text = text;
        text.push_str("\nscript\n")?;
        text.push_str(script)?;
        Ok(text)
    }
}
