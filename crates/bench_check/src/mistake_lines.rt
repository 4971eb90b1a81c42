//! What is probably a mistake, as lines.
ghost use Rattle.bench_check.specs.FrameLines.{period};
ghost use Rattle.bench_check.specs.MistakeLines as spec;
ghost use Rattle.std.specs.Prelude.{◌≡◌, ◌++◌, OnOk, string_bytes};

use crate::fitting::Tight;
use crate::frames::{Overrun, parts_of, period_of};
use crate::messages::put_action;
use crate::mistakes::Mistake;
use crate::planned::put_fault;
use bc_machine::Placed;
use mil_line::Fault;
use std::alloc::AllocError;
use std::fmt::Write as _;

/// Puts the line of a mistake.
pub(crate) fn put_mistake(text: &mut String, mistake: &Mistake) -> Result<(), AllocError>
    ensures { OnOk result (string_bytes text.new ≡ string_bytes text.old ++ spec.mistake_line mistake.now) }
{
    match mistake {
        Mistake::Unsent { number, fault } => put_unsent(text, *number, fault),
        Mistake::Unmet { number, fault } => put_unmet(text, *number, fault),
        Mistake::Tight(tight) => put_tight(text, tight),
        Mistake::MoreTight(more) => put_more(text, *more),
        Mistake::Late(overrun) => put_overrun(text, overrun),
        Mistake::Undone(one) => put_undone(text, one),
        Mistake::Uncarried(one) => put_uncarried(text, one),
        Mistake::Stranger {
            address,
            first,
            count,
        } => put_stranger(text, *address, *first, *count),
        Mistake::Uncalled(address) => put_uncalled(text, *address),
        Mistake::Unfilled {
            address,
            sub,
            first,
        } => put_unfilled(text, *address, *sub, *first),
        Mistake::Left { first, count } => put_left(text, *first, *count),
        Mistake::NeverDue { line, words } => put_never_due(text, *line, words.as_str()),
        Mistake::LeftOut {
            line,
            first,
            more,
            words,
        } => put_left_out(text, *line, *first, *more, words.as_str()),
    }
}

/// Puts the line of a planned fault whose message is never sent.
fn put_unsent(text: &mut String, number: u32, fault: &Fault) -> Result<(), AllocError>
    ensures { OnOk result (string_bytes text.new ≡ string_bytes text.old ++ spec.unsent_line number fault.now) }
{
    text.push_str("  ")?;
    put_fault(text, number, fault)?;
    write!(text, " meets nothing: message {number} is never sent\n")
}

/// Puts the line of a planned fault whose message has no such run or word.
fn put_unmet(text: &mut String, number: u32, fault: &Fault) -> Result<(), AllocError>
    ensures { OnOk result (string_bytes text.new ≡ string_bytes text.old ++ spec.unmet_line number fault.now) }
{
    text.push_str("  ")?;
    put_fault(text, number, fault)?;
    write!(
        text,
        " meets nothing: message {number} has no such run or word\n"
    )
}

/// Puts the line of a frame that may take longer than its period.
fn put_tight(text: &mut String, tight: &Tight) -> Result<(), AllocError>
    ensures { OnOk result (string_bytes text.new ≡ string_bytes text.old ++ spec.tight_line tight.now) }
{
    let (place, period) = (tight.place, period_of(tight.hundreds));
    write!(
        text,
        "  frame {place} of the script, of {period} us, may take "
    )?;
    put_worst(text, tight.ticks)
}

/// Puts how long a frame may take at worst.
fn put_worst(text: &mut String, ticks: u64) -> Result<(), AllocError>
    ensures { OnOk result (string_bytes text.new ≡ string_bytes text.old ++ spec.worst_text ticks) }
{
    let (whole, part) = parts_of(ticks);
    write!(
        text,
        "{whole}.{part} us: late replies, each retry and each poll counted\n"
    )
}

/// Puts how many more frames may take longer than their period.
fn put_more(text: &mut String, more: usize) -> Result<(), AllocError>
    ensures { OnOk result (string_bytes text.new ≡ string_bytes text.old ++ spec.more_line more) }
{
    write!(
        text,
        "  more frames that may take longer than their period: {more}\n"
    )
}

/// Puts the line of a frame that took longer than its period: the period, the number of the last message before its
/// end, and by how much it ended late.
fn put_overrun(text: &mut String, overrun: &Overrun) -> Result<(), AllocError>
    ensures { OnOk result (string_bytes text.new ≡ string_bytes text.old ++ spec.overrun_line overrun.now) }
{
    let (number, period) = (overrun.number, period_of(overrun.hundreds));
    write!(
        text,
        "  the frame of {period} us that ends behind message {number} is "
    )?;
    put_excess(text, overrun.ticks)
}

/// Puts by how much a frame ended late, in µs and in ticks.
fn put_excess(text: &mut String, ticks: u64) -> Result<(), AllocError>
    ensures { OnOk result (string_bytes text.new ≡ string_bytes text.old ++ spec.excess_text ticks) }
{
    let (whole, part) = parts_of(ticks);
    write!(text, "{whole}.{part} us ({ticks} ticks) too long\n")
}

/// Puts the line of an action that no message reaches.
fn put_undone(text: &mut String, one: &Placed) -> Result<(), AllocError>
    ensures { OnOk result (string_bytes text.new ≡ string_bytes text.old ++ spec.undone_line one.now) }
{
    let number = one.number;
    text.push_str("  ")?;
    put_action(text, one)?;
    write!(text, " is never done: message {number} is never sent\n")
}

/// Puts the line of what no message of the script carries.
fn put_uncarried(text: &mut String, one: &Placed) -> Result<(), AllocError>
    ensures { OnOk result (string_bytes text.new ≡ string_bytes text.old ++ spec.uncarried_line one.now) }
{
    text.push_str("  ")?;
    put_action(text, one)?;
    text.push_str(" changes nothing: no message of the script carries such a word\n")?;
    Ok(())
}

/// Puts the line of a terminal that is called and is not there.
fn put_stranger(text: &mut String, address: u8, first: u32, count: u32) -> Result<(), AllocError>
    ensures { OnOk result (string_bytes text.new ≡ string_bytes text.old ++ spec.stranger_line address first count) }
{
    write!(
        text,
        "  terminal {address} is not there, and message {first} is the first of {count} that call it\n"
    )
}

/// Puts the line of a terminal that is never called.
fn put_uncalled(text: &mut String, address: u8) -> Result<(), AllocError>
    ensures { OnOk result (string_bytes text.new ≡ string_bytes text.old ++ spec.uncalled_line address) }
{
    write!(text, "  terminal {address} is never called\n")
}

/// Puts the line of a subaddress from which a terminal transmits, and where no words were put up.
fn put_unfilled(text: &mut String, address: u8, sub: u8, first: u32) -> Result<(), AllocError>
    ensures { OnOk result (string_bytes text.new ≡ string_bytes text.old ++ spec.unfilled_line address sub first) }
{
    write!(
        text,
        "  terminal {address} transmits from subaddress {sub} in message {first}, and no words were put up there\n"
    )
}

/// Puts the line of the messages that were answered with the message error bit and not sent again.
fn put_left(text: &mut String, first: u32, count: u32) -> Result<(), AllocError>
    ensures { OnOk result (string_bytes text.new ≡ string_bytes text.old ++ spec.left_line first count) }
{
    write!(
        text,
        "  message {first} is the first of {count} that are answered with message_error and not sent again\n"
    )
}

/// Puts the line of a job's line that was never due.
fn put_never_due(text: &mut String, line: u64, words: &str) -> Result<(), AllocError>
    ensures { OnOk result (string_bytes text.new ≡ string_bytes text.old ++ spec.never_due_line line words.now) }
{
    write!(text, "  line {line} is never due: {words}\n")
}

/// Puts the line of a job's line whose fault comes behind four others.
fn put_left_out(
    text: &mut String,
    line: u64,
    first: u32,
    more: u32,
    words: &str,
) -> Result<(), AllocError>
    ensures { OnOk result (string_bytes text.new
        ≡ string_bytes text.old ++ spec.left_out_line line first more words.now) }
{
    write!(text, "  line {line} is not planned for message {first}")?;
    put_messages_more(text, more)?;
    write!(text, ", where four others come first: {words}\n")
}

/// Puts at how many messages more it is so, where there are any.
fn put_messages_more(text: &mut String, more: u32) -> Result<(), AllocError>
    ensures { OnOk result (string_bytes text.new ≡ string_bytes text.old ++ spec.more_text more) }
{
    if more > 0 {
        write!(text, " and {more} more")?;
    }
    Ok(())
}
