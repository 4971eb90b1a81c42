//! What a run whose out file failed left beside its place.

use crate::named::Named;
use bench_files::{followed, part_of};
use command_parts::requests::{CommandFault, RunRequest};
use std::fs;
use std::rt::Files;

/// Says behind the fault of a run's out file where the bytes stand that it took, where they stand beside its place.
pub(crate) fn tell_of_part<R: Files + AllocGlobal, E: Eprint>(
    rt: &R,
    errors: &E,
    named: &Named<'_, '_>,
    fault: &CommandFault<'_>,
) {
    let Some(run) = named.run else {
        return;
    };
    if let Some(part) = part_left(rt, run, named.completes, fault) {
        // Nothing else is lost where standard error takes no more.
        let _ = eprintln!(errors; "  what was taken stands in {part}; bench dump --skip shows it");
    }
}

/// The file beside the out file of a run, where that failed and it has the bytes that were taken. A run that writes a
/// complete file does not count these.
fn part_left<R: Files + AllocGlobal>(
    rt: &R,
    run: &RunRequest<'_>,
    completes: bool,
    fault: &CommandFault<'_>,
) -> Option<String> {
    let taken = match fault {
        CommandFault::Sink { taken } => Some(*taken),
        CommandFault::Device(name) | CommandFault::System { name, .. }
            if completes && *name == run.out => None,
        _ => return None,
    };
    let Ok(path) = followed(rt, run.out) else {
        return None;
    };
    let Ok(part) = part_of(rt.alloc(), path.as_str()) else {
        return None;
    };
    match fs::metadata(rt, part.as_str()) {
        Ok(about) if about.is_file() && is_what_was_taken(about.len(), taken) => Some(part),
        _ => None,
    }
}

/// Whether a file of so many bytes has what was taken, as far as it was counted, and that is not nothing.
fn is_what_was_taken(len: u64, taken: Option<u64>) -> bool {
    len > 0 && len == taken.unwrap_or(len)
}
