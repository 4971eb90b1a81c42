//! The part of a line that is shown, with the marked bytes in it.
ghost use Rattle.std.specs.Prelude.{◌≤◌, ◌+◌, length};

/// How many bytes of a line are shown at most.
const SHOWN: usize = 160;

/// How many bytes are shown in front of the marked ones at least, where the line is longer than is shown.
const BEFORE: usize = 80;

/// The part of a line that is shown.
#[derive(Clone, Copy, Debug, PartialEq, Eq)]
pub struct View<'a> {
    /// The bytes that are shown.
    pub bytes: &'a [u8],
    /// How many of them stand in front of the mark.
    pub before: usize,
    /// How many the mark has under it, one at least: behind the last byte the mark stands alone.
    pub width: usize,
}

/// The part of a line that is shown, with a mark under so many bytes from a column on, counted from 1.
pub fn part_shown(line: &[u8], column: u64, width: usize) -> View<'_>
    ensures short { length result.bytes.now ≤ 160 }
    ensures marked { 1 ≤ result.width }
    ensures within { result.before + result.width ≤ length result.bytes.now + 1 }
{
    let column = column.saturating_sub(1);
    let at = if column < line.len() as u64 {
        column as usize
    } else {
        line.len()
    };
    let from = if at > SHOWN - BEFORE / 2 {
        at - BEFORE
    } else {
        0
    };
    let (_, rest) = line.split_at(from);
    let shown = if rest.len() < SHOWN {
        rest.len()
    } else {
        SHOWN
    };
    let (bytes, _) = rest.split_at(shown);
    let before = at - from;
    let room = bytes.len() - before;
    let width = if width < room { width } else { room };
    View {
        bytes,
        before,
        width: if width == 0 { 1 } else { width },
    }
}
