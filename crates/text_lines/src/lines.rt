//! The lines of a text, one by one.
ghost use Rattle.std.specs.List.{before_first, after_first};
ghost use Rattle.std.specs.Prelude.{◌≡◌, ◌<◌, ◌∷◌, [], length, drop, MatchOption, IfSome};
ghost use Rattle.text_lines.specs.Lines.{text_lines, is_line_end};

use crate::parting::{len_before, split_before};

/// What stands behind the LF that ends a line.
fn behind_end(rest: &[u8]) -> &[u8]
    ensures { result.now ≡ drop 1 rest.now }
{
    match rest.split_first() {
        Some((_, behind)) => behind,
        None => rest,
    }
}

/// The first line of a text, without the LF that ends it, and what stands behind it; nothing at the end of the text.
pub fn next_line(text: &[u8]) -> Option<(&[u8], &[u8])>
    ensures lines { MatchOption result (text_lines text.now ≡ [])
        (λ x. text_lines text.now ≡ x.0.now ∷ text_lines x.1.now) }
    ensures shorter { IfSome result (λ x. length x.1.now < length text.now) }
{
    if text.is_empty() {
        return None;
    }
    let (line, rest) = text.split_at(len_before(text, b'\n'));
    Some((line, behind_end(rest)))
}

/// The first line of a text, without the LF that ends it, and what stands behind it; both are empty at the end of the
/// text.
pub fn split_line(text: &[u8]) -> (&[u8], &[u8])
    ensures line { result.0.now ≡ before_first is_line_end text.now }
    ensures rest { result.1.now ≡ after_first is_line_end text.now }
{
    split_before(text, b'\n')
}

/// A line without the LF that ends it, if one does.
pub fn without_end(line: &[u8]) -> &[u8]
    ensures { result.now ≡ before_first is_line_end line.now }
{
    let (front, _) = split_before(line, b'\n');
    front
}
