//! Whether what is printed goes to a terminal.

use std::env;
use std::fs::{self, Metadata};
use std::os::unix::fs::{FileTypeExt, MetadataExt};
use std::rt::{Env, Files};

/// Whether the standard output is a terminal, or another device that somebody may look at: the null device is none.
pub fn prints_to_terminal<R: Files>(rt: &R) -> bool {
    match fs::metadata(rt, "/dev/stdout") {
        Ok(output) => output.file_type().is_char_device() && !is_null_device(rt, &output),
        Err(_) => false,
    }
}

/// Whether this is the null device.
fn is_null_device<R: Files>(rt: &R, output: &Metadata) -> bool {
    match fs::metadata(rt, "/dev/null") {
        Ok(null) => null.dev() == output.dev() && null.ino() == output.ino(),
        Err(_) => false,
    }
}

/// Whether the standard output is a terminal whose user wants colors.
pub fn is_for_people<R: Env + Files + AllocGlobal>(rt: &R) -> bool {
    env::var(rt, "NO_COLOR").is_err() && prints_to_terminal(rt)
}
