//! Planned faults as text, as they stand in a job.
ghost use Rattle.bench_check.specs.MistakeLines.{fault_text, mask_text, planned_text, sync_text};
ghost use Rattle.std.specs.Prelude.{◌≡◌, ◌++◌, OnOk, string_bytes};

use mil_host::DataWord;
use mil_line::Fault;
use mil_word::{Sync, Wave};
use std::alloc::AllocError;
use std::fmt::Write;

/// Puts a planned fault as its line in a job.
pub(crate) fn put_fault(text: &mut String, number: u32, fault: &Fault) -> Result<(), AllocError>
    ensures { OnOk result (string_bytes text.new ≡ string_bytes text.old ++ planned_text number fault.now) }
{
    write!(text, "fault {number} ")?;
    put_kind(text, fault)
}

/// Puts a planned fault without its number.
fn put_kind(text: &mut String, fault: &Fault) -> Result<(), AllocError>
    ensures { OnOk result (string_bytes text.new ≡ string_bytes text.old ++ fault_text fault.now) }
{
    match fault {
        Fault::Mask {
            run,
            index,
            half_bits,
        } => {
            write!(text, "mask {run} {index} ")?;
            put_mask(text, *half_bits)
        }
        Fault::Drop { run, index } => write!(text, "drop {run} {index}"),
        Fault::Add { run, index, word } => {
            let (sync, value) = (letter(word.sync), DataWord(word.value));
            write!(text, "add {run} {index} {sync} {value}")
        }
        Fault::Late { run, ticks } => write!(text, "late {run} {ticks}"),
        Fault::Mute { run } => write!(text, "mute {run}"),
        Fault::Early { run, ticks } => write!(text, "early {run} {ticks}"),
        Fault::Pause { run, index, ticks } => write!(text, "pause {run} {index} {ticks}"),
        Fault::Babble { run, count, word } => {
            let value = DataWord(*word);
            write!(text, "babble {run} {count} {value}")
        }
    }
}

/// Puts half bits as ten hexadecimal digits, in upper case.
fn put_mask(text: &mut String, half_bits: Wave) -> Result<(), AllocError>
    ensures { OnOk result (string_bytes text.new ≡ string_bytes text.old ++ mask_text half_bits) }
{
    write!(text, "{:010X}", half_bits.half_bits())
}

/// The letter of a sync.
fn letter(sync: Sync) -> &'static str
    ensures { result.now ≡ sync_text sync }
{
    match sync {
        Sync::CommandSync => "c",
        Sync::DataSync => "d",
    }
}
