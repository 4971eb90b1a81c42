//! Frames with a period: what time was left of each, and which took longer.
ghost use Rattle.bench_check.specs.FrameLines.{frame_line_at, head_text, late_text, left_text, period};
ghost use Rattle.bench_check.specs.Overruns.{overruns_at};
ghost use Rattle.std.specs.Prelude.{◌≡◌, ◌++◌, ◌/◌, ◌%◌, OnOk, string_bytes};

use bc_machine::{Closing, Machine};
use std::alloc::AllocError;
use std::fmt::Write;

/// A frame that took longer than its period.
#[derive(Clone, Copy, Debug, PartialEq, Eq)]
pub struct Overrun {
    /// The number of the last message before its end; 0 before any.
    pub number: u32,
    /// Its period, 1 to 65,535 times 100 µs.
    pub hundreds: u16,
    /// By how many ticks of 0.1 µs its last word ended late.
    pub ticks: u64,
}

/// How many ticks of 0.1 µs 100 µs have.
const TICKS: u64 = 1000;

/// Puts the line of a frame that the next step closes, if it closes one, and keeps it where it took longer than its
/// period.
pub(crate) fn note_frame(
    text: &mut String,
    overruns: &mut Vec<Overrun>,
    machine: &Machine,
) -> Result<(), AllocError>
    ensures kept { OnOk result (overruns.new.items ≡ overruns.old.items ++ overruns_at machine.now) }
    ensures told { OnOk result (string_bytes text.new ≡ string_bytes text.old ++ frame_line_at machine.now) }
{
    let Some(closing) = machine.closing() else {
        return Ok(());
    };
    let due = closing.began + TICKS * u64::from(closing.hundreds);
    let clock = machine.bus().clock();
    put_frame(text, &closing)?;
    if clock <= due {
        return put_left(text, due - clock);
    }
    let ticks = clock - due;
    put_late(text, ticks)?;
    overruns.push(Overrun {
        number: machine.number(),
        hundreds: closing.hundreds,
        ticks,
    })?;
    Ok(())
}

/// Puts the period of a frame, and when it began.
fn put_frame(text: &mut String, closing: &Closing) -> Result<(), AllocError>
    ensures { OnOk result (string_bytes text.new ≡ string_bytes text.old ++ head_text closing.now) }
{
    let period = period_of(closing.hundreds);
    let (whole, part) = parts_of(closing.began);
    write!(text, "frame {period} us, begun at {whole}.{part} us: ")
}

/// Puts what time was left, in ms from 1 ms on.
fn put_left(text: &mut String, ticks: u64) -> Result<(), AllocError>
    ensures { OnOk result (string_bytes text.new ≡ string_bytes text.old ++ left_text ticks) }
{
    if ticks >= 10 * TICKS {
        let (whole, part) = parts_of(ticks / TICKS);
        write!(text, "{whole}.{part} ms left\n")
    } else {
        let (whole, part) = parts_of(ticks);
        write!(text, "{whole}.{part} us left\n")
    }
}

/// Puts by how much a frame ended late.
fn put_late(text: &mut String, ticks: u64) -> Result<(), AllocError>
    ensures { OnOk result (string_bytes text.new ≡ string_bytes text.old ++ late_text ticks) }
{
    let (whole, part) = parts_of(ticks);
    write!(text, "{whole}.{part} us too long\n")
}

/// A period in µs, where it is counted in hundreds of them.
pub(crate) fn period_of(hundreds: u16) -> u32
    ensures { result ≡ period hundreds }
{
    100 * u32::from(hundreds)
}

/// A number of tenths as a whole number and its tenth.
pub(crate) fn parts_of(tenths: u64) -> (u64, u64)
    ensures whole { result.0 ≡ tenths / 10 }
    ensures part { result.1 ≡ tenths % 10 }
{
    (tenths / 10, tenths % 10)
}
