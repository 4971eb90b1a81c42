//! Bits as columns of their own.
ghost use Rattle.bench_export.specs.Frames as spec;
ghost use Rattle.mil_word.specs.Fields.{has_bit};
ghost use Rattle.std.specs.Prelude.{◌≡◌, ◌≤◌, ◌++◌, ◌∷◌, [], OnOk};

use crate::row::Row;
use ch11_layout::block::{
    FORMAT_ERROR, INVALID_WORD_ERROR, MESSAGE_ERROR, RESPONSE_TIMEOUT, SYNC_TYPE_ERROR,
    WORD_COUNT_ERROR,
};
use ch11_layout::is_set;
use std::alloc::AllocError;

/// A bit as a field.
fn flag(set: bool) -> &'static [u8]
    ensures { result.now ≡ spec.flag set }
{
    if set { b"1" } else { b"0" }
}

/// Whether a bit is set in a status word that came.
fn has_if(status: Option<u16>, place: u32) -> bool
    requires { place ≤ 15 }
    ensures { result ≡ spec.has_if status place }
{
    match status {
        None => false,
        Some(word) => is_set(word, place),
    }
}

/// Whether a bit is set in one of the status words, as a field; empty where none came.
fn status_flag(first: Option<u16>, second: Option<u16>, place: u32) -> &'static [u8]
    requires { place ≤ 15 }
    ensures { result.now ≡ spec.status_flag first second place }
{
    match (first, second) {
        (None, None) => b"",
        (Some(word), _) => flag(is_set(word, place) || has_if(second, place)),
        (None, Some(word)) => flag(is_set(word, place)),
    }
}

/// Adds a bit of the status words as a field.
fn push_status_flag(
    row: &mut Row,
    first: Option<u16>,
    second: Option<u16>,
    place: u32,
) -> Result<(), AllocError>
    requires { place ≤ 15 }
    ensures { OnOk result (row.new ≡ row.old ++ spec.status_flag first second place ∷ []) }
{
    row.push(status_flag(first, second, place))
}

/// The bits of the status words, a field each.
pub(crate) fn push_status_flags(
    row: &mut Row,
    first: Option<u16>,
    second: Option<u16>,
) -> Result<(), AllocError>
    ensures { OnOk result (row.new ≡ row.old ++ spec.status_flags first second) }
{
    push_status_flag(row, first, second, 10)?;
    push_status_flag(row, first, second, 9)?;
    push_status_flag(row, first, second, 8)?;
    push_status_flag(row, first, second, 4)?;
    push_status_flag(row, first, second, 3)?;
    push_status_flag(row, first, second, 2)?;
    push_status_flag(row, first, second, 1)?;
    push_status_flag(row, first, second, 0)?;
    Ok(())
}

/// Adds an error that a block status word names, or does not, as a field.
fn push_error(row: &mut Row, block: u16, place: u32) -> Result<(), AllocError>
    requires { place ≤ 15 }
    ensures { OnOk result (row.new ≡ row.old ++ spec.flag (has_bit place block) ∷ []) }
{
    row.push(flag(is_set(block, place)))
}

/// The errors that a block status word names, a field each.
pub(crate) fn push_error_flags(row: &mut Row, block: u16) -> Result<(), AllocError>
    ensures { OnOk result (row.new ≡ row.old ++ spec.error_flags block) }
{
    push_error(row, block, MESSAGE_ERROR)?;
    push_error(row, block, FORMAT_ERROR)?;
    push_error(row, block, RESPONSE_TIMEOUT)?;
    push_error(row, block, WORD_COUNT_ERROR)?;
    push_error(row, block, SYNC_TYPE_ERROR)?;
    push_error(row, block, INVALID_WORD_ERROR)?;
    Ok(())
}
