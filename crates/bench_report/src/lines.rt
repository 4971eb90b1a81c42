//! The lines of a report.
ghost use Rattle.bench_report.specs.Drafts.{IsBad};
ghost use Rattle.bench_report.specs.Faults.{are_line_words, are_placed_words, is_action};
ghost use Rattle.bench_report.specs.Lines.{placed_in, asked_line_of, bounded_number, said, IsLine};
ghost use Rattle.bench_report.specs.Reports.{IsPlaced};
ghost use Rattle.controller_text.specs.Reading.{control_in};
ghost use Rattle.std.specs.Prelude.{IfOk, IfErr};
ghost use Rattle.text_lines.specs.Readings.{IsOkOption};
ghost use Rattle.text_lines.specs.Words.{words};

use crate::fault::ReportFault;
use crate::numbers::{number, only_number_in};
use bc_machine::{HostAction, Placed};
use controller_text::read_control;
use mil_host::read_action;
use mil_word::fields::HIGHEST_ADDRESS;
use text_lines::next_word;

/// What a line says.
#[derive(Drop)]
pub enum ReportLine {
    /// The channel that the lines behind it are about, 1 to 65,535.
    Channel(u16),
    /// How many messages it made, 0 to 1,000,000.
    Made(u32),
    /// The number of a refused message, 1 to 1,000,000.
    Refused(u32),
    /// An action of a host.
    Placed(Placed),
    /// How many packets were written, of at most ten digits.
    Packets(u64),
}

/// The words behind `placed`.
#[tactic(auto, unfolding(mil_host::specs::Reading::action_in))]
fn read_placed(rest: &[u8]) -> Result<Placed, ReportFault>
    ensures value { IsOkOption ReportLine.Placed result (placed_in (words rest.now)) }
    ensures range { IfOk result IsPlaced }
    ensures fault { IfErr result (λ f. IsBad (are_placed_words (words rest.now)) f) }
{
    let Some((number_word, behind)) = next_word(rest) else {
        return Err(ReportFault::Word);
    };
    let Some((address_word, text)) = next_word(behind) else {
        return Err(ReportFault::Word);
    };
    if address_word == b"bc".as_slice() {
        return read_control_at(number_word, text);
    }
    let Ok(action) = read_action(text) else {
        return Err(ReportFault::Word);
    };
    action.reads_back();
    let placed = number(number_word, 7, 1, 1_000_000)?;
    let address = number(address_word, 7, 0, u64::from(HIGHEST_ADDRESS))?;
    Ok(Placed {
        number: placed as u32,
        action: HostAction::Terminal {
            address: address as u8,
            action,
        },
    })
}

/// What the host of the controller asked for before the message of a number.
fn read_control_at(number_word: &[u8], text: &[u8]) -> Result<Placed, ReportFault>
    ensures value { IsOkOption ReportLine.Placed result
        (asked_line_of (bounded_number 7 1 1000000 number_word.now) (control_in (words text.now))) }
    ensures range { IfOk result IsPlaced }
    ensures fault { IfErr result (λ f. IsBad (is_action (control_in (words text.now))) f) }
{
    let Ok(control) = read_control(text) else {
        return Err(ReportFault::Word);
    };
    control.keeps_ranges();
    let placed = number(number_word, 7, 1, 1_000_000)?;
    Ok(Placed {
        number: placed as u32,
        action: HostAction::Controller(control),
    })
}

/// What a line says.
#[tactic(auto, unfolding(crate::specs::Lines::said))]
pub fn read_line(text: &[u8]) -> Result<ReportLine, ReportFault>
    ensures value { IsOkOption (λ l. l) result (said text.now) }
    ensures range { IfOk result IsLine }
    ensures fault { IfErr result (λ f. IsBad (are_line_words (words text.now)) f) }
{
    let Some((word, rest)) = next_word(text) else {
        return Err(ReportFault::Word);
    };
    if word == b"channel".as_slice() {
        Ok(ReportLine::Channel(only_number_in(rest, 7, 1, 65_535)? as u16))
    } else if word == b"made".as_slice() {
        Ok(ReportLine::Made(only_number_in(rest, 7, 0, 1_000_000)? as u32))
    } else if word == b"refused".as_slice() {
        Ok(ReportLine::Refused(only_number_in(rest, 7, 1, 1_000_000)? as u32))
    } else if word == b"placed".as_slice() {
        Ok(ReportLine::Placed(read_placed(rest)?))
    } else if word == b"packets".as_slice() {
        Ok(ReportLine::Packets(only_number_in(rest, 10, 0, 9_999_999_999)?))
    } else {
        Err(ReportFault::Word)
    }
}
