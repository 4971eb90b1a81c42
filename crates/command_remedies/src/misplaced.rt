//! What is said of a file that is of another kind than the one that is read in its place.

use crate::named::Named;
use bench_files::{Kind, is_of_kind};
use command_parts::looking::is_lossy;
use std::alloc::AllocError;
use std::fmt::Write;
use std::fs;
use std::io::Read;
use std::rt::Files;
use text_lines::{is_comment, next_line, next_word};

/// How many bytes of a file are looked at, where it is not read whole (own choice).
const BEGINNING: usize = 4096;

/// What files of a bench have in them.
#[derive(Clone, Copy, Debug, PartialEq, Eq)]
pub(crate) enum Content {
    /// What a command writes; of a job, also one that somebody wrote.
    Written(Kind),
    /// A text of rules.
    Rules,
    /// A dictionary of signals.
    Dictionary,
    /// A script.
    Script,
}

impl Content {
    /// What a file is that has it, and which commands take one.
    fn told(self) -> &'static str {
        match self {
            Content::Written(kind) => told_of(kind),
            Content::Rules => "a text of rules; bench judge reads it beside a recording",
            Content::Dictionary => {
                "a dictionary of signals; bench signals reads it beside a recording"
            }
            Content::Script => {
                "a script; bench assemble reads it, and a job has one behind its line script"
            }
        }
    }
}

/// What a file of this kind is, and which commands take one or wrote it.
fn told_of(kind: Kind) -> &'static str {
    match kind {
        Kind::Recording => "a recording; bench dump and bench stat show what is in it",
        Kind::Report => "a report of bench run; bench step reads it beside its recording",
        Kind::Image => "an image, which bench assemble wrote",
        Kind::Rows => "a table of messages, which bench export wrote",
        Kind::Picture => "a picture, which bench draw wrote",
        Kind::Verdicts => "a JUnit report, which bench judge wrote",
        Kind::Waves => "a value change dump, which bench export wrote",
        Kind::Page => "a page, which bench view wrote; a browser shows it",
        Kind::Job => "a job; bench check tries it, and bench run records it",
    }
}

/// What a file has in it that begins so: by its first bytes, or in a text by the first word behind comments, as in a
/// job whoever wrote it. None where neither tells.
fn content_of(text: &[u8]) -> Option<Content> {
    if text.is_empty() {
        return None;
    }
    let kinds = [
        Kind::Recording,
        Kind::Report,
        Kind::Image,
        Kind::Rows,
        Kind::Picture,
        Kind::Verdicts,
        Kind::Waves,
        Kind::Page,
    ];
    for kind in kinds {
        if is_of_kind(kind, text) {
            return Some(Content::Written(kind));
        }
    }
    content_behind(first_word(text))
}

/// The first word of a text that is in no comment; empty where there is none.
fn first_word(text: &[u8]) -> &[u8] {
    let mut rest = text;
    for _ in 0..text.len() {
        let Some((line, behind)) = next_line(rest) else {
            return b"";
        };
        match next_word(line) {
            Some((word, _)) if !is_comment(word) => return word,
            _ => rest = behind,
        }
    }
    b""
}

/// The words with which lines of a job begin.
const JOB_WORDS: &[&str] = &[
    "channel", "start", "terminal", "at", "fault", "faults", "series",
];

/// The words with which frames of a script begin.
const SCRIPT_WORDS: &[&str] = &[
    "define", "send", "retry", "gap", "repeat", "if", "until", "call", "frame",
];

/// What a text has in it that begins with this word.
fn content_behind(word: &[u8]) -> Option<Content> {
    if is_one_of(word, JOB_WORDS) {
        return Some(Content::Written(Kind::Job));
    }
    if word == b"expect".as_slice() {
        return Some(Content::Rules);
    }
    if word == b"signal".as_slice() {
        return Some(Content::Dictionary);
    }
    if is_one_of(word, SCRIPT_WORDS) {
        return Some(Content::Script);
    }
    None
}

/// Whether a word is one of these.
fn is_one_of(word: &[u8], words: &[&str]) -> bool {
    for known in words {
        if known.as_bytes() == word {
            return true;
        }
    }
    false
}

/// The lines for a file that begins so where another content is wanted: what it is, and where the command takes one;
/// of a recording, that messages are missing from it where its packets say so. None where the file is what is wanted,
/// or does not tell.
pub(crate) fn other_in_place<R: AllocGlobal>(
    rt: &R,
    named: &Named<'_, '_>,
    wanted: Content,
    name: &str,
    text: &[u8],
) -> Result<Option<String>, AllocError> {
    let Some(found) = content_of(text) else {
        return Ok(None);
    };
    if found == wanted {
        return Ok(None);
    }
    let told = found.told();
    let mut out = String::new(rt.alloc());
    write!(out, "  {name} is {told}\n")?;
    out.push_str(named.order)?;
    if found == Content::Written(Kind::Recording) && is_lossy(rt.alloc(), text) {
        out.push_str(
            "  messages are missing from this recording: packets with the overflow flag\n",
        )?;
    }
    Ok(Some(out))
}

/// The same of a file that is read as a recording: its beginning is read once more, where it is a plain file.
pub(crate) fn no_recording<R: Files + AllocGlobal>(
    rt: &R,
    named: &Named<'_, '_>,
) -> Result<Option<String>, AllocError> {
    match named.recording {
        Some(name) => named_no_recording(rt, named, name),
        None => Ok(None),
    }
}

/// The same of the file with this name.
pub(crate) fn named_no_recording<R: Files + AllocGlobal>(
    rt: &R,
    named: &Named<'_, '_>,
    name: &str,
) -> Result<Option<String>, AllocError> {
    let mut beginning = vec![in rt.alloc(); 0u8; BEGINNING]?;
    match read_beginning(rt, name, &mut beginning) {
        Some(count) => {
            let (text, _) = beginning.split_at(count.min(beginning.len()));
            other_in_place(rt, named, Content::Written(Kind::Recording), name, text)
        }
        None => Ok(None),
    }
}

/// Reads the beginning of a plain file, and answers how many bytes it has.
fn read_beginning<R: Files>(rt: &R, name: &str, beginning: &mut [u8]) -> Option<usize> {
    match fs::metadata(rt, name) {
        Ok(about) if about.is_file() => {}
        _ => return None,
    }
    let mut file = fs::open(rt, name).ok()?;
    file.read(beginning).ok()
}
