//! Bytes of a reader, as many as are asked for.
ghost use Rattle.ch11_stream.specs.Feeding.{IsAdvanced, IsFilled, IsOther, IsPassed};
ghost use Rattle.std.specs.Prelude.{◌≡◌, ◌<◌, ◌≤◌, length, IfOk, OnOk, IfErr};

use crate::advance::Advance;
use crate::buffer::Buffer;
use crate::fault::StreamFault;
use std::io::Read;

/// From so many bytes on a reader is asked to pass them unread: fewer are read in less time.
const MANY: usize = 32_768;

/// Makes so many bytes ready, or all where there are fewer; answers whether there are so many. A reader that is
/// interrupted 2^64 times is at fault.
pub(crate) fn fill<R: Read>(
    buffer: &mut Buffer,
    input: &mut R,
    size: usize,
) -> Result<bool, StreamFault>
    ensures filled { IfOk result (IsFilled size (R.remaining input.old) (R.remaining input.new)
        buffer.old.ready buffer.new.ready) }
    ensures more { OnOk result (length buffer.old.ready ≤ length buffer.new.ready) }
    ensures failed { IfErr result IsOther }
{
    'reads: for _made in 0..u64::MAX {
        if size <= buffer.len() {
            return Ok(true);
        }
        buffer.make_room(size)?;
        if !buffer.read(input)? {
            return Ok(false);
        }
    }
    Err(StreamFault::Device)
}

/// Has the reader pass bytes unread where so many are to be passed, but for the last of them, which is read: so a
/// reader that has fewer is seen to be at its end. Answers how many it passed.
fn skim<R: Advance>(buffer: &mut Buffer, input: &mut R, count: usize) -> Result<usize, StreamFault>
    requires { 0 < count }
    ensures ready { buffer.new.ready ≡ buffer.old.ready }
    ensures fewer { IfOk result (λ passed. passed < count) }
    ensures passed { IfOk result
        (λ passed. IsAdvanced count passed (R.remaining input.old) (R.remaining input.new)) }
    ensures failed { IfErr result IsOther }
{
    if count < MANY {
        return Ok(0);
    }
    match input.advance((count - 1) as u64) {
        Ok(passed) => {
            if passed > 0 {
                buffer.read_few();
            }
            Ok(passed as usize)
        }
        Err(_) => Err(StreamFault::Device),
    }
}

/// Passes so many bytes, none of which stays in memory; answers whether there are so many, and passes all where there
/// are fewer.
pub(crate) fn pass<R: Advance>(
    buffer: &mut Buffer,
    input: &mut R,
    count: usize,
) -> Result<bool, StreamFault>
    ensures passed { IfOk result (IsPassed count (R.remaining input.old) (R.remaining input.new)
        buffer.old.ready buffer.new.ready) }
    ensures failed { IfErr result IsOther }
{
    let mut left = count;
    'reads: for _made in 0..u64::MAX {
        let ready = buffer.len();
        if left <= ready {
            buffer.pass(left);
            return Ok(true);
        }
        buffer.pass(ready);
        left -= ready;
        left -= skim(buffer, input, left)?;
        buffer.make_room(1)?;
        if !buffer.read(input)? {
            return Ok(false);
        }
    }
    Err(StreamFault::Device)
}
