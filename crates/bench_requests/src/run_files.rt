//! The files that a run writes: its recording and its report, which take their places together.
use crate::ending::Ending;
use crate::fault::CommandFault;
use crate::files::{begin, replaceable, writer_of};
use crate::settings::RunRequest;
use bench_files::{Hold, Kind, OutFile, leads_to_output};
use bench_report::{Report, write_report};
use std::fs::OpenFile;
use std::io::{BufWriter, Write};
use std::rt::Files;

/// The files that a run writes. What was there stays until both are whole, and no other process can begin to write
/// them.
#[derive(Drop)]
pub struct RunFiles<'a, F: Drop> {
    out_name: &'a str,
    report_name: &'a str,
    out: OutFile<'a, F>,
    report: OutFile<'a, F>,
    /// Whether one of them is where the standard output goes to.
    are_output: bool,
}

impl<'a, F: OpenFile + Write + Hold + Drop> RunFiles<'a, F> {
    /// Refuses, as a usage fault, an out file or a report that is there and is of another kind.
    pub fn judge<R: Files<File = F>>(
        rt: &R,
        request: &RunRequest<'a>,
    ) -> Result<(), CommandFault<'a>> {
        replaceable(rt, request.out, Kind::Recording, request.force)?;
        replaceable(rt, request.report, Kind::Report, request.force)
    }

    /// Begins to write both: whether they can be written is seen before anything that is there is changed.
    pub fn begin<R: Files<File = F> + AllocGlobal>(
        rt: &R,
        request: &RunRequest<'a>,
    ) -> Result<RunFiles<'a, F>, CommandFault<'a>> {
        let out = begin(rt, request.out, Kind::Recording, request.force)?;
        match begin(rt, request.report, Kind::Report, request.force) {
            Ok(report) => Ok(RunFiles {
                out_name: request.out,
                report_name: request.report,
                out,
                report,
                are_output: leads_to_output(rt, request.out) || leads_to_output(rt, request.report),
            }),
            Err(fault) => {
                out.give_up(rt);
                Err(fault)
            }
        }
    }

    /// Whether one of them is where the standard output goes to, so that nothing else may be printed there.
    pub fn are_output(&self) -> bool {
        self.are_output
    }

    /// Where the recording goes.
    pub fn recording<R: Files<File = F>>(&mut self, rt: &R) -> Result<F, CommandFault<'a>> {
        writer_of(rt, self.out_name, &mut self.out)
    }

    /// Ends a run that gave no recording: the recording and the report that were there stay.
    pub fn end<R: Files<File = F>>(self, rt: &R, ending: Ending) -> Result<(), CommandFault<'a>> {
        let RunFiles {
            out_name,
            report_name: _,
            out,
            report,
            are_output: _,
        } = self;
        report.give_up(rt);
        match ending {
            Ending::Refused => match out.leave_empty(rt) {
                Ok(()) => Ok(()),
                Err(error) => Err(CommandFault::of_stream(out_name, &error)),
            },
            Ending::Broken => {
                out.leave(rt);
                Ok(())
            }
        }
    }

    /// Writes the report of a recording that is whole, and gives both their places.
    pub fn finish<R: Files<File = F> + AllocGlobal>(
        self,
        rt: &R,
        told: &Report,
    ) -> Result<(), CommandFault<'a>> {
        let RunFiles {
            out_name,
            report_name,
            out,
            mut report,
            are_output: _,
        } = self;
        if let Err(fault) = write_both(rt, (out_name, &out), (report_name, &mut report), told) {
            report.give_up(rt);
            out.leave(rt);
            return Err(fault);
        }
        if let Err(error) = out.take_place(rt) {
            report.give_up(rt);
            return Err(CommandFault::of_stream(out_name, &error));
        }
        match report.take_place(rt) {
            Ok(()) => Ok(()),
            Err(error) => Err(CommandFault::of_stream(report_name, &error)),
        }
    }
}

/// Writes the report's text piece by piece.
fn write_told<'a, R: Files + AllocGlobal>(
    rt: &R,
    name: &'a str,
    file: &mut OutFile<'a, R::File>,
    told: &Report,
) -> Result<(), CommandFault<'a>>
where
    R::File: Hold,
{
    let writer = writer_of(rt, name, file)?;
    let Ok(mut out) = BufWriter::new(rt.alloc(), writer) else {
        return Err(CommandFault::Memory);
    };
    match write_report(&mut out, told) {
        Ok(()) => Ok(()),
        Err(error) => Err(CommandFault::of_stream(name, &error)),
    }
}

/// Writes the report, and has the system keep all bytes of both.
fn write_both<'a, R: Files + AllocGlobal>(
    rt: &R,
    out: (&'a str, &OutFile<'a, R::File>),
    report: (&'a str, &mut OutFile<'a, R::File>),
    told: &Report,
) -> Result<(), CommandFault<'a>>
where
    R::File: Hold,
{
    write_told(rt, report.0, &mut *report.1, told)?;
    if let Err(error) = out.1.sync() {
        return Err(CommandFault::of_stream(out.0, &error));
    }
    match report.1.sync() {
        Ok(()) => Ok(()),
        Err(error) => Err(CommandFault::of_stream(report.0, &error)),
    }
}
