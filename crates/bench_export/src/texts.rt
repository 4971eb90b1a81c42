//! The texts of single fields.
ghost use Rattle.bench_export.specs.Rows.{micros, gap_text, words_text, block_text, name_if};
ghost use Rattle.std.specs.Prelude.{◌≡◌, ◌≤◌, ◌++◌, ◌∷◌, [], drop, OnOk, decimal};

use crate::row::Row;
use bench_dump::put_words;
use ch11_layout::block::{
    FORMAT_ERROR, INVALID_WORD_ERROR, LINE_B, MESSAGE_ERROR, RESPONSE_TIMEOUT, SYNC_TYPE_ERROR,
    TERMINAL_TO_TERMINAL, WORD_COUNT_ERROR,
};
use ch11_layout::is_set;
use itoa::Buffer;
use std::alloc::AllocError;

/// A number as a field.
pub(crate) fn push_number(row: &mut Row, number: u64) -> Result<(), AllocError>
    ensures { OnOk result (row.new ≡ row.old ++ decimal number ∷ []) }
{
    let mut buffer = Buffer::new();
    row.push(buffer.format(number).as_bytes())
}

/// Ticks of 0.1 µs as a field in microseconds. The text is room for it.
pub(crate) fn push_micros(row: &mut Row, text: &mut Vec<u8>, ticks: u64) -> Result<(), AllocError>
    ensures { OnOk result (row.new ≡ row.old ++ micros ticks ∷ []) }
{
    let mut buffer = Buffer::new();
    text.clear();
    text.extend_from_slice(buffer.format(ticks / 10).as_bytes())?;
    text.extend_from_slice(b".")?;
    let mut buffer = Buffer::new();
    text.extend_from_slice(buffer.format(ticks % 10).as_bytes())?;
    row.push(text.as_slice())
}

/// A gap as a field in microseconds, empty where there was no reply. The text is room for it.
pub(crate) fn push_gap(row: &mut Row, text: &mut Vec<u8>, gap: u8) -> Result<(), AllocError>
    ensures { OnOk result (row.new ≡ row.old ++ gap_text gap ∷ []) }
{
    if gap == 0 {
        row.push(b"")
    } else {
        push_micros(row, text, u64::from(gap))
    }
}

/// What stands behind the first byte, if there is one.
fn behind_first(text: &[u8]) -> &[u8]
    ensures { result.now ≡ drop 1 text.now }
{
    if text.is_empty() {
        return text;
    }
    let (_, rest) = text.split_at(1);
    rest
}

/// The words of two runs of bytes as a field, with a space between. The text is room for it.
pub(crate) fn push_words(
    row: &mut Row,
    text: &mut Vec<u8>,
    front: &[u8],
    back: &[u8],
) -> Result<(), AllocError>
    ensures { OnOk result (row.new ≡ row.old ++ words_text front.now back.now ∷ []) }
{
    text.clear();
    put_words(text, front)?;
    put_words(text, back)?;
    row.push(behind_first(text.as_slice()))
}

/// The name of a bit behind a space, where the bit is set.
fn put_name(text: &mut Vec<u8>, block: u16, place: u32, name: &[u8]) -> Result<(), AllocError>
    requires { place ≤ 15 }
    ensures { OnOk result (text.new.items ≡ text.old.items ++ name_if block place name.now) }
{
    if is_set(block, place) {
        text.extend_from_slice(b" ")?;
        text.extend_from_slice(name)?;
    }
    Ok(())
}

/// The bits of a block status word by name as a field, with a space between. The text is room for it.
pub(crate) fn push_block(row: &mut Row, text: &mut Vec<u8>, block: u16) -> Result<(), AllocError>
    ensures { OnOk result (row.new ≡ row.old ++ block_text block ∷ []) }
{
    text.clear();
    put_name(text, block, LINE_B, b"line_b")?;
    put_name(text, block, MESSAGE_ERROR, b"message_error")?;
    put_name(text, block, TERMINAL_TO_TERMINAL, b"terminal_to_terminal")?;
    put_name(text, block, FORMAT_ERROR, b"format_error")?;
    put_name(text, block, RESPONSE_TIMEOUT, b"response_timeout")?;
    put_name(text, block, WORD_COUNT_ERROR, b"word_count_error")?;
    put_name(text, block, SYNC_TYPE_ERROR, b"sync_type_error")?;
    put_name(text, block, INVALID_WORD_ERROR, b"invalid_word_error")?;
    row.push(behind_first(text.as_slice()))?;
    Ok(())
}
