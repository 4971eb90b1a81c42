//! Texts of a recording or a dictionary as they may stand on a page.
ghost use Rattle.bench_view.specs.Safe as spec;
ghost use Rattle.std.specs.Prelude.{◌≡◌, ◌++◌, OnOk};

use numerals::digit_of;
use std::alloc::AllocError;

/// Whether a byte stands as it is.
fn is_plain(byte: u8) -> bool
    ensures { result ≡ spec.is_plain byte }
{
    33 <= byte && byte <= 126 && byte != b'%' && byte != b'<' && byte != b'&'
}

/// Puts a byte.
fn put_byte(text: &mut Vec<u8>, byte: u8) -> Result<(), AllocError>
    ensures { OnOk result (text.new.items ≡ text.old.items ++ spec.safe_byte byte) }
{
    if is_plain(byte) {
        text.push(byte)?;
        return Ok(());
    }
    text.push(b'%')?;
    text.push(digit_of(byte / 16))?;
    text.push(digit_of(byte % 16))?;
    Ok(())
}

/// Puts a text.
pub(crate) fn put_safe(text: &mut Vec<u8>, bytes: &[u8]) -> Result<(), AllocError>
    ensures { OnOk result (text.new.items ≡ text.old.items ++ spec.safe_text bytes.now) }
{
    'bytes: for byte in bytes {
        put_byte(text, *byte)?;
    }
    Ok(())
}
