//! The lines of a message.
ghost use Rattle.bc_machine.specs.Rising.{IsRising};
ghost use Rattle.bench_check.specs.MistakeLines.{placed_text};
ghost use Rattle.std.specs.Prelude.{◌≡◌, ◌++◌, OnOk, string_bytes};

use crate::origins::{Origins, put_line};
use bc_machine::{Actions, HostAction, Placed, Upcoming};
use bitflags::Flags;
use controller_text::ControlText;
use frame_text::print;
use frame_tree::Frame;
use mil_bus::Talk;
use mil_status::{BlockBits, StatusBit};
use mil_word::raw_bits;
use std::alloc::{AllocError, Global};
use std::fmt::Write;

/// How status words are shown: as four hexadecimal digits alone, or with the names of their bits behind them.
#[derive(Clone, Copy, Debug, PartialEq, Eq)]
pub enum Bits {
    Digits,
    Names,
}

/// The bits of a status word that have no terminal address (MIL-STD-1553B 4.3.3.5.3).
const PLACES: u16 = 11;

/// The line and form of a message in a script's words.
fn words_of(alloc: Global, talk: &Talk) -> Result<String, AllocError> {
    let frame = Frame::Send {
        line: talk.line,
        message: talk.message.copy(),
    };
    print::<Global>(alloc, &frame)
}

/// Puts the line of a message: its number, its time, whether it was inserted, and its line and form in a script's
/// words.
pub(crate) fn put_message(
    alloc: Global,
    text: &mut String,
    number: u32,
    coming: &Upcoming,
) -> Result<(), AllocError> {
    let talk = &coming.talk;
    let (whole, part) = (talk.start / 10, talk.start % 10);
    let mark = if coming.inserted { ", inserted" } else { "" };
    write!(text, "message {number} at {whole}.{part} us{mark}: ")?;
    let words = words_of(alloc, talk)?;
    text.push_str(words.as_str())
}

/// Puts a line for each action that is placed at a message, as it stands in a job, where numbers never fall; behind it
/// by which line of the text it came, where that is told.
pub(crate) fn put_actions(
    text: &mut String,
    number: u32,
    actions: &Actions,
    origins: &Origins,
) -> Result<(), AllocError>
    requires { IsRising actions.now }
{
    for place in actions.behind(number.saturating_sub(1))..actions.behind(number) {
        text.push_str("  ")?;
        put_action(text, &actions.get(place))?;
        put_line(text, origins.line_of_action(place))?;
        text.push_str("\n")?;
    }
    Ok(())
}

/// Puts a placed action as its line in a job.
pub(crate) fn put_action(text: &mut String, one: &Placed) -> Result<(), AllocError>
    ensures { OnOk result (string_bytes text.new ≡ string_bytes text.old ++ placed_text one.now) }
{
    let number = one.number;
    match &one.action {
        HostAction::Terminal { address, action } => write!(text, "at {number} {address} {action}"),
        HostAction::Controller(control) => {
            let control = ControlText(control);
            write!(text, "at {number} bc {control}")
        }
    }
}

/// Puts the names of the bits of a status word that are set, each behind a space.
fn put_names(text: &mut String, word: u16) -> Result<(), AllocError> {
    for count in 0..PLACES {
        let place = PLACES - 1 - count;
        if word >> place & 1 == 1 {
            text.push_str(" ")?;
            text.push_str(name_at(place))?;
        }
    }
    Ok(())
}

/// The name of the bit at a place of a status word.
fn name_at(place: u16) -> &'static str {
    match StatusBit::at(place) {
        Some(bit) => bit.name(),
        None => "reserved",
    }
}

/// Puts the first word of each reply, behind a space each.
fn put_replies(text: &mut String, talk: &Talk, bits: Bits) -> Result<(), AllocError> {
    let mut run = 0u8;
    let words = talk.sent.list();
    for sent in words.as_slice() {
        if sent.run != run {
            let word = raw_bits(sent.wave);
            write!(text, " {word:04X}")?;
            if bits == Bits::Names {
                put_names(text, word)?;
            }
        }
        run = sent.run;
    }
    if run == 0 {
        text.push_str(" none")?;
    }
    Ok(())
}

/// Puts what a message came to: the first word of each reply, and the bits of the block status word by name.
pub(crate) fn put_outcome(text: &mut String, talk: &Talk, bits: Bits) -> Result<(), AllocError> {
    text.push_str("  status")?;
    put_replies(text, talk, bits)?;
    text.push_str(", block")?;
    let block = talk.block(&talk.seen());
    for flag in BlockBits::flags() {
        if block & flag.value().bits() != 0 {
            text.push_str(" ")?;
            text.push_str(flag.name())?;
        }
    }
    if block == 0 {
        text.push_str(" clear")?;
    }
    text.push_str("\n")
}
