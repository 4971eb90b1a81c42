//! A report as far as its lines have come.
ghost use Rattle.bench_report.specs.Drafts.{TakesIntoDraft, TakesText, no_lines, closed, with_line};
ghost use Rattle.bench_report.specs.Drafts.{finished};
ghost use Rattle.bench_report.specs.Lines.{IsLine};
ghost use Rattle.bench_report.specs.declared.fault.ReportFault.TheVariants.{Order};
ghost use Rattle.std.specs.Prelude.{◌≡◌, IfErr};
ghost use Rattle.text_lines.specs.Readings.{IsOkOption};

use crate::channels::ChannelReport;
use crate::fault::ReportFault;
use crate::lines::{ReportLine, read_line};
use crate::reports::Report;
use crate::stages::Stage;
use std::alloc::Global;
use std::marker::Model;
use std::mem;

/// The channels that are done, and the one whose lines are read.
#[derive(Drop)]
pub struct Draft {
    alloc: Global,
    done: Vec<ChannelReport>,
    stage: Stage,
}

impl Model for Draft {
    ghost use Rattle.bench_report.specs.Drafts.{Draft as Drafted, IsStage};

    ghost Value = { Drafted };

    ghost view = { λ d. record { done = d.done.items; stage = d.stage } };

    ghost invariant = { λ d. IsStage d.stage };
}

impl Draft {
    /// A report of which no line has come.
    pub fn empty(alloc: Global) -> Draft
        ensures { result ≡ no_lines }
    {
        Draft {
            alloc,
            done: Vec::new(alloc),
            stage: Stage::Begin,
        }
    }

    /// The line of a text.
    pub fn take_text(&mut self, text: &[u8]) -> Result<(), ReportFault>
        ensures { TakesText result text.now self.old self.new }
    {
        let line = read_line(text)?;
        self.take(line)
    }

    /// One more line.
    fn take(&mut self, line: ReportLine) -> Result<(), ReportFault>
        requires { IsLine line }
        ensures { TakesIntoDraft result (with_line self.old line) self.new }
    {
        match line {
            ReportLine::Channel(channel) => {
                self.close()?;
                self.stage = Stage::Named(channel);
                Ok(())
            }
            ReportLine::Packets(packets) => {
                self.close()?;
                self.stage = Stage::End(packets);
                Ok(())
            }
            ReportLine::Made(made) => match self.stage {
                Stage::Named(channel) => {
                    self.stage = Stage::Body(ChannelReport::begin(self.alloc, channel, made));
                    Ok(())
                }
                _ => Err(ReportFault::Order),
            },
            ReportLine::Refused(number) => match &mut self.stage {
                Stage::Body(channel) => channel.add_refused(number),
                _ => Err(ReportFault::Order),
            },
            ReportLine::Placed(placed) => match &mut self.stage {
                Stage::Body(channel) => channel.add_placed(placed),
                _ => Err(ReportFault::Order),
            },
        }
    }

    /// The channel whose lines were read is done.
    fn close(&mut self) -> Result<(), ReportFault>
        ensures { TakesIntoDraft result (closed self.old.done self.old.stage) self.new.done }
    {
        match mem::replace(&mut self.stage, Stage::Begin) {
            Stage::Begin => Ok(()),
            Stage::Body(channel) => {
                self.done.push(channel)?;
                Ok(())
            }
            Stage::Named(_) | Stage::End(_) => Err(ReportFault::Order),
        }
    }

    /// The report, once its last line has come.
    pub fn finish(self) -> Result<Report, ReportFault>
        ensures value { IsOkOption (λ r. r) result (finished self) }
        ensures order { IfErr result (λ f. f ≡ Order) }
    {
        match self.stage {
            Stage::End(packets) => Ok(Report::make(self.done, packets)),
            _ => Err(ReportFault::Order),
        }
    }
}
