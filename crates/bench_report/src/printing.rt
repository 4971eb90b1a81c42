//! The text of a report.
ghost use Rattle.bench_report.specs.Printing.{report_text, refused_text, placed_text, part_text, host_action_text};
ghost use Rattle.bench_report.specs.Spelling.{Spells};
ghost use Rattle.std.specs.Io.KnownBytes.{Appends};
ghost use Rattle.std.specs.List.{flat_map};
ghost use Rattle.std.specs.Prelude.{◌≡◌, IfOk, OnOk, string_bytes, Some};

use crate::channels::ChannelReport;
use crate::reports::Report;
use bc_machine::{Actions, HostAction, Placed};
use controller_text::ControlText;
use std::alloc::{AllocError, Global};
use std::io::Write;
use std::{fmt, io};

/// The text of a report, which spells it: `read_report` reads it back. Single spaces part words, and LF ends each line.
pub fn print_report(alloc: Global, report: &Report) -> Result<String, AllocError>
    ensures text { IfOk result (λ s. string_bytes s ≡ report_text report.now) }
    ensures spelled { IfOk result (λ s. Spells (string_bytes s) report.now) }
{
    // A report keeps its ranges.
    let _packets = report.packets();
    let text = report.to_string(alloc)?;
    Ok(text)
}

/// Writes the text of a report, as `print_report` makes it, and flushes the writer. It takes no memory. A fault is the
/// writer's.
pub fn write_report<W: Write>(out: &mut W, report: &Report) -> io::Result<()>
    ensures text { OnOk result (Appends (W.contents out.old) (W.contents out.new) (report_text report.now)) }
    ensures spelled { Spells (report_text report.now) report.now }
{
    // A report keeps its ranges.
    let _packets = report.packets();
    write!(out, "{report}")?;
    out.flush()
}

/// The refused numbers, each on a line.
#[derive(Clone, Copy)]
struct RefusedLines<'a>(&'a [u32]);

impl fmt::Display for RefusedLines<'_> {
    ghost output = { λ r. Some (flat_map refused_text r.0.now) };

    fn fmt<W: fmt::Write>(&self, f: &mut fmt::Formatter<W>) -> fmt::Result {
        for number in self.0 {
            write!(f, "refused {number}\n")?;
        }
        Ok(())
    }
}

/// What a host asked for as its text: the address of the terminal, or `bc`, and the action.
#[derive(Clone, Copy)]
pub struct HostActionText<'a>(pub &'a HostAction);

impl fmt::Display for HostActionText<'_> {
    ghost output = { λ a. Some (host_action_text a.0.now) };

    fn fmt<W: fmt::Write>(&self, f: &mut fmt::Formatter<W>) -> fmt::Result {
        match self.0 {
            HostAction::Terminal { address, action } => write!(f, "{address} {action}"),
            HostAction::Controller(control) => write!(f, "bc {}", ControlText(control)),
        }
    }
}

/// A placed action, on a line.
#[derive(Clone, Copy)]
struct PlacedLine<'a>(&'a Placed);

impl fmt::Display for PlacedLine<'_> {
    ghost output = { λ p. Some (placed_text p.0.now) };

    fn fmt<W: fmt::Write>(&self, f: &mut fmt::Formatter<W>) -> fmt::Result {
        let number = self.0.number;
        let action = HostActionText(&self.0.action);
        write!(f, "placed {number} {action}\n")
    }
}

/// The placed actions, each on a line.
#[derive(Clone, Copy)]
struct PlacedLines<'a>(&'a Actions);

impl fmt::Display for PlacedLines<'_> {
    ghost output = { λ p. Some (flat_map placed_text p.0.now) };

    fn fmt<W: fmt::Write>(&self, f: &mut fmt::Formatter<W>) -> fmt::Result {
        for place in 0..self.0.len() {
            let one = self.0.get(place);
            write!(f, "{}", PlacedLine(&one))?;
        }
        Ok(())
    }
}

/// The lines of a channel.
impl fmt::Display for ChannelReport {
    ghost output = { λ c. Some (part_text c) };

    fn fmt<W: fmt::Write>(&self, f: &mut fmt::Formatter<W>) -> fmt::Result {
        let channel = self.channel();
        let made = self.made();
        let refused = RefusedLines(self.refused());
        let placed = PlacedLines(self.placed());
        write!(f, "channel {channel}\nmade {made}\n{refused}{placed}")
    }
}

/// The lines of channels, one after the other.
#[derive(Clone, Copy)]
struct Channels<'a>(&'a [ChannelReport]);

impl fmt::Display for Channels<'_> {
    ghost output = { λ c. Some (flat_map part_text c.0.now) };

    fn fmt<W: fmt::Write>(&self, f: &mut fmt::Formatter<W>) -> fmt::Result {
        for channel in self.0 {
            write!(f, "{channel}")?;
        }
        Ok(())
    }
}

/// The report as its text.
impl fmt::Display for Report {
    ghost output = { λ r. Some (report_text r) };

    fn fmt<W: fmt::Write>(&self, f: &mut fmt::Formatter<W>) -> fmt::Result {
        let channels = Channels(self.channels());
        let packets = self.packets();
        write!(f, "{channels}packets {packets}\n")
    }
}
