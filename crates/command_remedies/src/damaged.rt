//! The way out where a recording is damaged.

use crate::named::Named;
use command_parts::requests::CommandFault;

/// Says behind the fault of a damaged recording, of which a job was to be made, how what is sound of it is taken.
pub(crate) fn tell_of_cut<E: Eprint>(errors: &E, named: &Named<'_, '_>, fault: &CommandFault<'_>) {
    let Some(recording) = named.reproduced else {
        return;
    };
    let CommandFault::Recording(refusal) = fault else {
        return;
    };
    // A file that begins with no packet may be no recording at all.
    if refusal.offset > 0 {
        // Nothing else is lost where standard error takes no more.
        let _ = eprintln!(errors;
            "  bench cut --skip {recording} --out sound.ch11 takes what is sound of it"
        );
    }
}
