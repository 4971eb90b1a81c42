//! Lines of texts and words of lines, worked out by hand: LF ends a line, and spaces alone part words.
use crate::tests::equal::same_in;
use std::process::Abort;
use text_lines::{Words, is_comment, next_line, next_word, split_line, split_word, without_end};

/// What is found at the front of a text, and what stands behind that.
type Parted = (&'static [u8], &'static [u8]);

/// A text, its first line and what stands behind that; none at the end of a text.
const LINES: &[(&str, Option<Parted>)] = &[
    ("", None),
    ("\n", Some((b"", b""))),
    ("one", Some((b"one", b""))),
    ("one\n", Some((b"one", b""))),
    ("\none", Some((b"", b"one"))),
    ("one two\r\n\nthree", Some((b"one two\r", b"\nthree"))),
];

/// A line, its first word and what stands behind that.
const WORDS: &[(&str, Option<Parted>)] = &[
    ("", None),
    ("   ", None),
    ("one", Some((b"one", b""))),
    ("  one  two ", Some((b"one", b"  two "))),
    ("one\ttwo three", Some((b"one\ttwo", b" three"))),
];

/// What is left of a line, then its next word, and what is left behind that; nothing at the end of the line.
const SPLITS: &[(&str, Parted)] = &[
    ("  one  two", (b"one", b" two")),
    (" two", (b"two", b"")),
    ("", (b"", b"")),
];

/// A word, and whether it begins a comment.
const COMMENTS: &[(&str, bool)] = &[("#", true), ("#one", true), ("one#", false), ("", false)];

#[test]
fn lines_end_with_line_feeds(rt: HostRuntime) {
    for (text, wanted) in LINES {
        same_in(&rt, text, &next_line(text.as_bytes()), wanted);
        is_split_off(&rt, text, &wanted.unwrap_or((b"", b"")));
    }
}

/// A line is split off a text.
fn is_split_off(rt: &impl Abort, text: &str, wanted: &Parted) {
    same_in(rt, text, &split_line(text.as_bytes()), wanted);
    same_in(rt, text, &without_end(text.as_bytes()), &wanted.0);
}

#[test]
fn spaces_part_words(rt: HostRuntime) {
    for (text, wanted) in WORDS {
        same_in(&rt, text, &next_word(text.as_bytes()), wanted);
    }
    for (line, wanted) in SPLITS {
        same_in(&rt, line, &split_word(line.as_bytes()), wanted);
    }
    are_taken_one_by_one(&rt);
}

#[test]
fn comments_begin_with_a_hash(rt: HostRuntime) {
    for (word, wanted) in COMMENTS {
        same_in(&rt, word, &is_comment(word.as_bytes()), wanted);
    }
}

/// Words of a line are taken one by one.
fn are_taken_one_by_one(rt: &impl Abort) {
    let mut words = Words::of(b"rx 5 5");
    same_in(rt, "another word", &words.takes(b"tx"), &false);
    same_in(rt, "this word", &words.takes(b"rx"), &true);
    let five = words.next() == Some(b"5");
    same_in(rt, "the next word", &five, &true);
    same_in(rt, "the same word again", &words.takes(b"5"), &true);
    same_in(rt, "no word is left", &words.takes(b"5"), &false);
    same_in(rt, "none at all", &words.next().is_none(), &true);
}
