//! Labels over the bars: numbers, and who is called.
ghost use Rattle.bench_draw.specs.Labels.{HaveRoom};
ghost use Rattle.std.specs.Prelude.{◌≤◌};

use crate::picture::Picture;
use crate::rows::Lane;
use crate::scale::{LEFT, WIDTH};
use ch11_layout::RecordedForm;
use std::alloc::{AllocError, Global};

/// How many pixels a label takes at most: 24 of them stand side by side.
const WIDE: u64 = 50;

/// How many it takes with nothing but an address, T or R, a subaddress, and a number of six digits.
const NARROW: u64 = 36;

/// The least number that takes more than a narrow label has.
const LONG_NUMBER: u64 = 1_000_000;

/// The least one behind which the letter of line B takes more than that.
const LONG_ON_B: u64 = 10_000;

/// The most labels that a lane has.
const MOST: usize = 400;

/// What stands over a message: where it begins, in pixels from the left of the time, its number, whether the letter of
/// line B stands behind that, and its form.
#[derive(Clone, Copy)]
pub(crate) struct Label {
    pub(crate) at: u64,
    pub(crate) number: u64,
    pub(crate) on_b: bool,
    pub(crate) form: RecordedForm,
}

/// The labels of a lane, in the order of its messages.
#[derive(Drop)]
pub(crate) struct Labels {
    labels: Vec<Label>,
}

impl Labels {
    /// No label yet.
    pub(crate) fn new(alloc: Global) -> Labels {
        Labels {
            labels: Vec::new(alloc),
        }
    }

    /// One more label, as far as there can be room for it.
    pub(crate) fn add(&mut self, label: Label) -> Result<(), AllocError> {
        if self.labels.len() < MOST {
            self.labels.push(label)?;
        }
        Ok(())
    }

    /// Draws the labels: all of them, moved aside where they have to be, or those that find room over their messages.
    pub(crate) fn draw(
        &self,
        alloc: Global,
        picture: &mut Picture,
        lane: &Lane,
        all: bool,
    ) -> Result<(), AllocError> {
        let mut free = 0u64;
        let mut left = self.labels.len() as u64;
        for label in self.labels.iter() {
            let at = if all {
                place_of(label.at, free, left)
            } else {
                label.at
            };
            if at >= free {
                draw_label(alloc, picture, lane, label, at)?;
                free = at.saturating_add(if all { WIDE } else { width_of(label) });
            }
            left = left.saturating_sub(1);
        }
        Ok(())
    }
}

/// Where the first of some labels stands that is wanted at a place, behind those that end at a free one: where it is
/// wanted, or aside of that, so that the others find room too.
pub(crate) fn place_of(wanted: u64, free: u64, labels: u64) -> u64
    ensures behind { HaveRoom free labels → free ≤ result }
    ensures room { HaveRoom free labels → HaveRoom result labels }
{
    let latest = WIDTH.saturating_sub(WIDE.saturating_mul(labels));
    wanted.max(free).min(latest)
}

fn width_of(label: &Label) -> u64 {
    let is_short = matches!(
        label.form,
        RecordedForm::Receive { .. } | RecordedForm::Transmit { .. } | RecordedForm::Between { .. }
    );
    let long = if label.on_b { LONG_ON_B } else { LONG_NUMBER };
    if is_short && label.number < long {
        NARROW
    } else {
        WIDE
    }
}

/// Draws a label in three rows, with a line down to its message.
fn draw_label(
    alloc: Global,
    picture: &mut Picture,
    lane: &Lane,
    label: &Label,
    at: u64,
) -> Result<(), AllocError> {
    let (bar, x) = (LEFT.saturating_add(label.at), LEFT.saturating_add(at));
    let top = lane.bars;
    let (bend, head) = (top.saturating_sub(12), top.saturating_sub(42));
    let text_x = x.saturating_add(3);
    let rows = (
        top.saturating_sub(34),
        top.saturating_sub(24),
        top.saturating_sub(14),
    );
    let (number, line) = (label.number, if label.on_b { " B" } else { "" });
    let mut text = String::new(alloc);
    write!(
        text,
        "<path class=\"p\" d=\"M{bar} {top}L{x} {bend}V{head}\"/>"
    )?;
    write!(
        text,
        "<text x=\"{text_x}\" y=\"{}\" class=\"n\">{number}{line}</text><text x=\"{text_x}\" y=\"{}\" class=\"l\">",
        rows.0, rows.1
    )?;
    put_who(&mut text, label.form)?;
    write!(
        text,
        "</text><text x=\"{text_x}\" y=\"{}\" class=\"l\">",
        rows.2
    )?;
    put_what(&mut text, label.form)?;
    text.push_str("</text>\n")?;
    picture.put(text.as_str())
}

/// Puts who is called: the address, T or R and the subaddress of a command, or that it is to all terminals.
fn put_who(text: &mut String, form: RecordedForm) -> Result<(), AllocError> {
    match form {
        RecordedForm::Receive {
            address,
            subaddress,
            ..
        } => write!(text, "{address} R {subaddress}")?,
        RecordedForm::Transmit {
            address,
            subaddress,
            ..
        } => write!(text, "{address} T {subaddress}")?,
        RecordedForm::Between {
            receiver,
            receiver_subaddress,
            ..
        } => write!(text, "{receiver} R {receiver_subaddress}")?,
        RecordedForm::Mode {
            address,
            transmit,
            ..
        } => write!(text, "{address} {}", direction(transmit))?,
        RecordedForm::ReceiveAll { .. }
        | RecordedForm::BetweenAll { .. }
        | RecordedForm::ModeAll { .. } => { text.push_str("broadcast")? }
        RecordedForm::Unknown => text.push_str("no form")?,
    }
    Ok(())
}

/// Puts what else there is of a message: the sender of a transfer, a mode code, what all terminals are to receive.
fn put_what(text: &mut String, form: RecordedForm) -> Result<(), AllocError> {
    match form {
        RecordedForm::Between {
            sender,
            sender_subaddress,
            ..
        } => write!(text, "{sender} T {sender_subaddress}")?,
        RecordedForm::Mode { code, .. } => write!(text, "mode {code}")?,
        RecordedForm::ReceiveAll { subaddress, .. } => write!(text, "R {subaddress}")?,
        RecordedForm::BetweenAll {
            sender,
            sender_subaddress,
            receiver_subaddress,
            ..
        } => write!(
            text,
            "R {receiver_subaddress}, {sender} T {sender_subaddress}"
        )?,
        RecordedForm::ModeAll { transmit, code, .. } => {
            write!(text, "{} mode {code}", direction(transmit))?
        }
        RecordedForm::Receive { .. } | RecordedForm::Transmit { .. } | RecordedForm::Unknown => {}
    }
    Ok(())
}

/// T or R, as the bit of a command says.
pub(crate) fn direction(transmit: bool) -> &'static str {
    if transmit { "T" } else { "R" }
}
