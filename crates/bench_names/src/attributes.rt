//! The attributes of a setup record.
ghost use Rattle.bench_names.specs.Attributes as spec;
ghost use Rattle.std.specs.List.{position_or_len};
ghost use Rattle.std.specs.Prelude.{◌≡◌, ◌≤◌, ◌<◌, ◌∷◌, [], length, take, drop, IfSome, MatchOption};

/// An attribute, and what stands behind it.
#[derive(Clone, Copy, Debug)]
pub(crate) struct Attribute<'a> {
    /// Its name.
    pub(crate) name: &'a [u8],
    /// Its value.
    pub(crate) value: &'a [u8],
    /// The text behind its semicolon.
    pub(crate) rest: &'a [u8],
}

/// Where the first byte of this value stands, or the length where there is none.
fn place_of(text: &[u8], wanted: u8) -> usize
    ensures value { result ≡ position_or_len (spec.is_byte wanted) text.now }
    ensures within { result ≤ length text.now }
{
    for (i, byte) in text.iter().enumerate() {
        if *byte == wanted {
            return i;
        }
    }
    text.len()
}

/// Whether a byte is blank: a space, a tab, or the end of a line.
fn is_blank(byte: u8) -> bool
    ensures { result ≡ spec.is_blank byte }
{
    byte == b' ' || byte == b'\t' || byte == b'\r' || byte == b'\n'
}

/// A text without the blank bytes in front of it.
fn unblanked(text: &[u8]) -> &[u8]
    ensures { result.now ≡ spec.unblanked text.now }
{
    let mut rest = text;
    'blank: while let Some((byte, others)) = rest.split_first() {
        if !is_blank(*byte) {
            return rest;
        }
        rest = others;
    }
    rest
}

/// What stands in front of a place, and what behind the byte there.
fn parted(text: &[u8], place: usize) -> (&[u8], &[u8])
    requires { place ≤ length text.now }
    ensures front { result.0.now ≡ take place text.now }
    ensures behind { result.1.now ≡ drop 1 (drop place text.now) }
{
    let (front, behind) = text.split_at(place);
    match behind.split_first() {
        Some((_, rest)) => (front, rest),
        None => (front, behind),
    }
}

/// The first attribute of a text, as `NAME:VALUE;`; None for an empty text.
pub(crate) fn first_attribute(text: &[u8]) -> Option<Attribute<'_>>
    ensures attributes { MatchOption result (spec.attributes text.now ≡ [])
        (λ a. spec.attributes text.now ≡ (a.name.now, a.value.now) ∷ spec.attributes a.rest.now) }
    ensures shorter { IfSome result (λ a. length a.rest.now < length text.now) }
{
    if text.is_empty() {
        return None;
    }
    let (attribute, rest) = parted(text, place_of(text, b';'));
    let (name, value) = parted(attribute, place_of(attribute, b':'));
    Some(Attribute {
        name: unblanked(name),
        value,
        rest,
    })
}
