//! Names of files: where links lead, and the name that a file has until it is whole.
ghost use Rattle.bench_files.specs.Names.{part_of};
ghost use Rattle.std.specs.Prelude.{◌≡◌, string_bytes, IfOk};

use std::alloc::{AllocError, Global};
use std::io;
use std::rt::Files;

/// What the name of a file has behind it until it is whole.
const PART: &str = ".part";

/// How many links in a row are followed at most, as the system does.
const LINKS: usize = 40;

/// The system's number for too many links in a row (ELOOP).
const TOO_MANY_LINKS: i32 = 40;

/// The name under which a file is written until it is whole.
pub fn part_of(alloc: Global, path: &str) -> Result<String, AllocError>
    ensures { IfOk result (λ part. string_bytes part ≡ part_of path.now) }
{
    let mut part = String::from_str(alloc, path)?;
    part.push_str(PART)?;
    Ok(part)
}

/// What a link with this name leads to by this text: a name from the root, or one from the folder of the link.
fn target_of(alloc: Global, link: &str, text: &str) -> Result<String, AllocError> {
    match link.rsplit_once('/') {
        Some((folder, _)) if !text.starts_with('/') => {
            let mut path = String::from_str(alloc, folder)?;
            path.push_str("/")?;
            path.push_str(text)?;
            Ok(path)
        }
        _ => String::from_str(alloc, text),
    }
}

/// The name of the file that a name leads to, be it there or not: links at its end are followed.
pub fn followed<R: Files + AllocGlobal>(rt: &R, name: &str) -> io::Result<String> {
    let mut path = String::from_str(rt.alloc(), name)?;
    for _ in 0..LINKS {
        match rt.read_link(rt.alloc(), path.as_str()) {
            Ok(text) => path = target_of(rt.alloc(), path.as_str(), text.into_string().as_str())?,
            Err(error) => {
                return match error.kind() {
                    io::ErrorKind::InvalidInput | io::ErrorKind::NotFound => Ok(path),
                    _ => Err(error),
                };
            }
        }
    }
    Err(io::Error::from_raw_os_error(TOO_MANY_LINKS))
}
