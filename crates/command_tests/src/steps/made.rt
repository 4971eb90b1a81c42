//! A job, its recording and its report, to step through.
use crate::looks::made::{job_of, recorded};
use bench_report::{Report, read_report};
use bench_step::{Manner, StepFault, step};
use job_file::Job;
use std::alloc::Global;
use std::io::{BufRead, Write};
use std::process::Abort;

/// The texts of jobs, those of jobs that make the messages of their run by number alone, and that of its report.
#[derive(Clone, Copy)]
pub(crate) struct RunTexts {
    pub(crate) jobs: &'static [&'static str],
    pub(crate) recorded: &'static [&'static str],
    pub(crate) report: &'static str,
}

const DROPPED_JOB: &str =
    "channel 1\nterminal 5\nfault 1 drop 0 3\nscript\nsend A rx 5 1 [0001 0002 0003]\nsend A mode 5 2\n\
     send A mode 5 2\n";

/// A message that loses a word on its way, and two questions for the status.
pub(crate) const DROPPED: RunTexts = RunTexts {
    jobs: &[DROPPED_JOB],
    recorded: &[DROPPED_JOB],
    report: "channel 1\nmade 3\npackets 1\n",
};

/// The jobs of these texts.
fn jobs_of(rt: &impl Abort, alloc: Global, texts: &[&str]) -> Vec<Job> {
    let mut jobs = Vec::new(alloc);
    for text in texts {
        jobs.push(job_of(rt, alloc, text)).expect(rt, "memory");
    }
    jobs
}

/// What a session steps through.
#[derive(Drop)]
pub(crate) struct Subject {
    jobs: Vec<Job>,
    report: Report,
    file: Vec<u8>,
}

/// The jobs and the report of a run, and its recording.
pub(crate) fn subject_of(rt: &impl Abort, alloc: Global, texts: &RunTexts) -> Subject {
    let jobs = jobs_of(rt, alloc, texts.jobs);
    let report = read_report(alloc, texts.report.as_bytes());
    let report = report.ok().expect(rt, "a report");
    let file = recorded(rt, alloc, texts.recorded);
    Subject { jobs, report, file }
}

impl Subject {
    /// How a session of these lines ends, and what is left of them.
    pub(crate) fn session<'a, W: Write>(
        self,
        alloc: Global,
        lines: &'a str,
        out: &mut W,
    ) -> (Result<(), StepFault>, &'a [u8]) {
        let mut input = lines.as_bytes();
        let ended = self.session_of(alloc, &mut input, out);
        (ended, input)
    }

    /// How a session of the lines of a reader ends, which come from a file.
    pub(crate) fn session_of<R: BufRead, W: Write>(
        self,
        alloc: Global,
        input: &mut R,
        out: &mut W,
    ) -> Result<(), StepFault> {
        let Subject { jobs, report, file } = self;
        step(alloc, Manner::Given, jobs, &report, &file, input, out)
    }
}
