//! The words of the command line, and which of them is not text.

use std::alloc::AllocError;
use std::rt::Env;
use std::{env, io, str};

/// How many bytes of a word are looked at, where it is not text.
const ROOM: usize = 4096;

/// All words, the program's name first.
pub(crate) fn words_of<R: Env + AllocGlobal>(rt: &R) -> io::Result<Vec<String>> {
    Ok(env::args(rt)?.collect(rt.alloc())?)
}

/// The first word that is not UTF-8, with each byte other than printable ASCII as `\xE9`; none where there is no such
/// word, or it is too long to be shown.
pub(crate) fn word_at_fault<R: Env + AllocGlobal>(rt: &R) -> Result<Option<String>, AllocError> {
    let mut bytes = [0u8; ROOM];
    for index in 0..usize::MAX {
        let Ok(len) = rt.arg(index, &mut bytes) else {
            return Ok(None);
        };
        let (word, _) = bytes.split_at(len);
        if str::from_utf8(word).is_err() {
            return Ok(Some(shown(rt, word)?));
        }
    }
    Ok(None)
}

/// A word with each byte other than printable ASCII by its number.
fn shown<R: AllocGlobal>(rt: &R, word: &[u8]) -> Result<String, AllocError> {
    let mut out = String::new(rt.alloc());
    for byte in word {
        if (b' '..=b'~').contains(byte) {
            out.push(char::from(*byte))?;
        } else {
            let escaped = format!(in rt.alloc(); "\\x{byte:02X}")?;
            out.push_str(escaped.as_str())?;
        }
    }
    Ok(out)
}
