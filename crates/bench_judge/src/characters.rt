//! Characters of UTF-8 that an XML text may have.
ghost use Rattle.bench_judge.specs.Characters as spec;
ghost use Rattle.std.specs.List.{list_all};
ghost use Rattle.std.specs.Prelude.{◌≡◌};

/// Whether a byte lies in a range.
fn is_within(low: u8, high: u8, byte: u8) -> bool
    ensures { result ≡ spec.is_within low high byte }
{
    low <= byte && byte <= high
}

/// How many bytes a character has that begins with this one, 0 where none does that an XML text may have.
fn length_by(first: u8) -> usize
    ensures { result ≡ spec.length_by first }
{
    if first == b'\t' || is_within(0x20, 0x7F, first) {
        1
    } else if is_within(0xC2, 0xDF, first) {
        2
    } else if is_within(0xE0, 0xEE, first) {
        3
    } else if is_within(0xF0, 0xF3, first) {
        4
    } else {
        0
    }
}

/// Whether this second byte may stand behind a first.
fn is_second(first: u8, second: u8) -> bool
    ensures { result ≡ spec.is_second first second }
{
    if first == 0xE0 {
        is_within(0xA0, 0xBF, second)
    } else if first == 0xED {
        is_within(0x80, 0x9F, second)
    } else if first == 0xF0 {
        is_within(0x90, 0xBF, second)
    } else {
        is_within(0x80, 0xBF, second)
    }
}

/// Whether each of these bytes may stand behind a second.
fn are_behind(bytes: &[u8]) -> bool
    ensures { result ≡ list_all (spec.is_within 0x80 0xBF) bytes.now }
{
    bytes.iter().all(|byte| is_within(0x80, 0xBF, *byte))
}

/// Whether the bytes behind a first begin with those that its character has there.
fn is_continued(first: u8, behind: &[u8]) -> bool
    ensures { result ≡ spec.is_continued first behind.now }
{
    let Some((&second, others)) = behind.split_first() else {
        return false;
    };
    let more = length_by(first).saturating_sub(2);
    if !is_second(first, second) || others.len() < more {
        return false;
    }
    are_behind(&others[..more])
}

/// The length of the UTF-8 character with which bytes begin, 0 where it is none that an XML text may have.
pub(crate) fn character_len(bytes: &[u8]) -> usize
    ensures { result ≡ spec.character_len bytes.now }
{
    let Some((&first, others)) = bytes.split_first() else {
        return 0;
    };
    let len = length_by(first);
    if len < 2 || is_continued(first, others) {
        len
    } else {
        0
    }
}
