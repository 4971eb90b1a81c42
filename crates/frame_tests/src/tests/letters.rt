//! Refusals and faults, and the letters that they are printed by.
use crate::tests::equal::{each_prints, same};
use frame_asm::AsmError;
use frame_code::ImageError;
use frame_load::LoadError;
use job_file::{JobError, LineFault};

/// Why a frame has no image.
const ASSEMBLING: &[(AsmError, &str)] = &[
    (AsmError::Operations, "A1"),
    (AsmError::Messages, "A2"),
    (AsmError::Memory, "A3"),
];

/// Why bytes are no image.
const IMAGES: &[(ImageError, &str)] = &[
    (ImageError::Mark, "C1"),
    (ImageError::Length, "C2"),
    (ImageError::Operations, "C3"),
    (ImageError::Messages, "C4"),
    (ImageError::Memory, "C5"),
    (ImageError::Version, "C6"),
];

/// Why an image is not loaded.
const LOADING: &[(LoadError, &str)] = &[
    (LoadError::Jumps, "P1"),
    (LoadError::Nesting, "P2"),
    (LoadError::Messages, "P3"),
    (LoadError::End, "P4"),
    (LoadError::Budget, "P5"),
    (LoadError::Memory, "P6"),
    (LoadError::Routines, "P7"),
    (LoadError::Periods, "P8"),
];

/// Why there is no job, where memory was refused.
const JOBS: &[(JobError, &str)] = &[(JobError::Memory, "J8")];

#[test]
fn refusals_are_printed_by_their_letters(rt: HostRuntime) {
    each_prints(&rt, rt.alloc(), ASSEMBLING);
    each_prints(&rt, rt.alloc(), IMAGES);
    each_prints(&rt, rt.alloc(), LOADING);
    each_prints(&rt, rt.alloc(), JOBS);
    let first = JobError::Line {
        line: 1,
        fault: LineFault::Word,
    };
    same(&rt, &(first == JobError::Memory), &false);
}
