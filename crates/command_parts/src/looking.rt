//! What is said of a recording beside what was asked: that messages are missing from it, that its time packets tell no
//! time of day, and that times of its stamps are not known.

use crate::recordings::Recording;
use bench_requests::tells_of_loss;
use bench_select::Stamps;
use ch11_stream::{Stretch, Stretches};
use std::alloc::Global;
use std::io::{IsTerminal, Read};
use std::rt::{Clock, Files};

/// Says on a terminal that messages are missing from a recording, where its packets say so, of a damaged one those that
/// are sound: one more pass.
pub fn tell_of_loss<R: Files + AllocGlobal + Clock, E: Eprint + IsTerminal>(
    errors: &E,
    recording: &Recording<'_, '_, R, E>,
) {
    if !errors.is_terminal() {
        return;
    }
    let Ok(bytes) = recording.begin_unseen() else {
        return;
    };
    if is_lossy(recording.alloc(), bytes) {
        // Nothing else is lost where standard error takes no more.
        let _ = eprintln!(errors;
            "messages are missing from this recording: packets with the overflow flag"
        );
    }
}

/// Whether sound packets of a recording say that messages are missing from it.
pub fn is_lossy<F: Read + Drop>(alloc: Global, bytes: F) -> bool {
    let Ok(mut stretches) = Stretches::over(alloc, bytes) else {
        return false;
    };
    for _made in 0..u64::MAX {
        match stretches.next() {
            Ok(Some(Stretch::Sound(packet))) if tells_of_loss(&[packet]) => return true,
            Ok(Some(_)) => {}
            _ => return false,
        }
    }
    false
}

/// Says that no times of day are known, where a recording has time packets and none of them can be read.
pub fn tell_of_unread<E: Eprint>(errors: &E, name: &str, unread: bool) {
    if unread {
        // Nothing else is lost where standard error takes no more.
        let _ = eprintln!(errors;
            "bench: {name}: no time packet can be read, so no times of day are known"
        );
    }
}

/// Says of each channel whose time stamps are in a format that is not read that its times are not known.
pub fn tell_of_unknown<E: Eprint>(errors: &E, name: &str, stamps: &Stamps) {
    for (channel, unknown) in stamps.unknown.iter().enumerate() {
        if *unknown {
            // Nothing else is lost where standard error takes no more.
            let _ = eprintln!(errors;
                "bench: {name}: channel {channel} has time stamps in a format that is not read, so its times are not \
                 known"
            );
        }
    }
}
