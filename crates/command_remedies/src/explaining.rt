//! All that stands behind a fault's line.

use crate::damaged::tell_of_cut;
use crate::left::tell_of_part;
use crate::named::Named;
use crate::pointing::point;
use command_parts::requests::CommandFault;
use std::io::IsTerminal;
use std::rt::Files;

/// Says on the error stream, behind a fault's line, what there is to say of it: the place in the text that was refused
/// with the reason, the system's own words or what the fault's code means; where the bytes stand that a run left; and
/// how what is sound of a damaged recording is taken.
pub fn explain_fault<R: Files + AllocGlobal, E: Eprint + IsTerminal>(
    rt: &R,
    errors: &E,
    named: &Named<'_, '_>,
    fault: &CommandFault<'_>,
) {
    point(rt, errors, named, fault);
    tell_of_part(rt, errors, named, fault);
    tell_of_cut(errors, named, fault);
}
