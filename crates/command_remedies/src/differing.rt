//! Where jobs, report and recording do not agree: what was expected, and what the recording has.

use crate::named::Named;
use bench_difference::difference;
use bench_report::read_report;
use bench_step::jobs_under;
use ch11_reader::Index;
use command_parts::requests::{jobs_of, read_again, texts_again};
use std::alloc::AllocError;
use std::rt::Files;

/// The lines that say so. The files are read once more, and there are none where that fails.
pub(crate) fn difference_of<R: Files + AllocGlobal>(
    rt: &R,
    named: &Named<'_, '_>,
    channel: u16,
    number: u32,
) -> Result<Option<String>, AllocError> {
    let (Some(recording), Some(report)) = (named.recording, named.report) else {
        return Ok(None);
    };
    let (Ok(recording), Ok(report), Ok(texts)) = (
        read_again(rt, recording),
        read_again(rt, report),
        texts_again(rt, named.jobs),
    ) else {
        return Ok(None);
    };
    let (Ok(index), Ok(report), Ok(jobs)) = (
        Index::build(rt.alloc(), &recording),
        read_report(rt.alloc(), &report),
        jobs_of(rt.alloc(), &texts),
    ) else {
        return Ok(None);
    };
    let jobs = jobs_under(rt.alloc(), jobs, &report)?;
    let text = difference(rt.alloc(), &jobs, &report, &index, channel, number)?;
    Ok(Some(text))
}
