//! Texts as values of attributes.
ghost use Rattle.bench_judge.specs.Junit as spec;
ghost use Rattle.std.specs.Prelude.{◌≡◌, ◌∷◌, ◌++◌, ℕ, List, IfOk, OnOk};

use crate::characters::character_len;
use std::alloc::AllocError;

/// Appends a byte, or what stands for it where it is a mark of XML.
fn put_byte(text: &mut Vec<u8>, byte: u8) -> Result<(), AllocError>
    ensures { OnOk result (text.new.items ≡ text.old.items ++ spec.shown_byte byte) }
{
    if byte == b'&' {
        text.extend_from_slice(b"&amp;")
    } else if byte == b'<' {
        text.extend_from_slice(b"&lt;")
    } else if byte == b'>' {
        text.extend_from_slice(b"&gt;")
    } else if byte == b'"' {
        text.extend_from_slice(b"&quot;")
    } else {
        text.push(byte)?;
        Ok(())
    }
}

/// Appends the first byte of a character of so many bytes, or a question mark for one that is part of none.
fn put_first(text: &mut Vec<u8>, len: usize, byte: u8) -> Result<(), AllocError>
    ensures { OnOk result (text.new.items ≡ text.old.items ++ spec.first_shown len byte) }
{
    if len == 0 {
        return text.extend_from_slice(b"?");
    }
    put_byte(text, byte)
}

/// Appends the first of these bytes, of which so many belong to the character before them. Answers how many of the
/// others belong to its character.
fn put_next(text: &mut Vec<u8>, inside: usize, first: u8, bytes: &[u8]) -> Result<usize, AllocError>
    ensures { (others : List ℕ) → bytes.now ≡ first ∷ others → IfOk result (λ behind.
        text.new.items ++ spec.escaped_behind behind others
        ≡ text.old.items ++ spec.escaped_behind inside bytes.now) }
{
    if inside > 0 {
        text.push(first)?;
        return Ok(inside - 1);
    }
    let len = character_len(bytes);
    put_first(text, len, first)?;
    Ok(len.saturating_sub(1))
}

/// Appends a text as the value of an attribute; a byte that is no part of a character is a question mark.
pub(crate) fn put_escaped(text: &mut Vec<u8>, value: &[u8]) -> Result<(), AllocError>
    ensures { OnOk result (text.new.items ≡ text.old.items ++ spec.escaped value.now) }
{
    let mut rest = value;
    let mut inside = 0usize;
    'bytes: while let Some((first, others)) = rest.split_first() {
        inside = put_next(text, inside, *first, rest)?;
        rest = others;
    }
    Ok(())
}
