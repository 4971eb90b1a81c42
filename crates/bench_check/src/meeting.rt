//! Whether a planned fault meets something.
ghost use Rattle.bench_check.specs.Meeting as spec;
ghost use Rattle.mil_bus.specs.Exchange.{now_of, talk_start};
ghost use Rattle.mil_line.specs.Ranges.{is_in_range};
ghost use Rattle.std.specs.List.{filter, list_all};
ghost use Rattle.std.specs.Prelude.{◌≡◌, ◌<◌, ◌^◌, true, length, IfOk};

use bc_machine::Upcoming;
use mil_bus::Sent;
use mil_line::Fault;
use std::alloc::{AllocError, Global};

/// The run that a fault is planned for: 0 is the controller's, 1 and 2 are the replies.
fn run_of(fault: &Fault) -> u32
    ensures { result ≡ spec.planned_run fault.now }
{
    match fault {
        Fault::Mask { run, .. } => *run,
        Fault::Drop { run, .. } => *run,
        Fault::Add { run, .. } => *run,
        Fault::Late { run, .. } => *run,
        Fault::Mute { run } => *run,
        Fault::Early { run, .. } => *run,
        Fault::Pause { run, .. } => *run,
        Fault::Babble { run, .. } => *run,
    }
}

/// Whether a run of so many words has the place of a fault.
fn is_there(words: usize, fault: &Fault) -> bool
    ensures { result ≡ spec.is_there words fault.now }
{
    match fault {
        Fault::Mask { index, .. } => (*index as usize) < words,
        Fault::Drop { index, .. } => (*index as usize) < words,
        Fault::Add { index, .. } => (*index as usize) < words,
        Fault::Late { .. } => 0 < words,
        Fault::Mute { .. } => 0 < words,
        Fault::Early { .. } => 0 < words,
        Fault::Pause { index, .. } => (*index as usize) < words,
        Fault::Babble { .. } => 0 < words,
    }
}

/// How many words a run has.
fn count_of(sent: &[Sent], run: u32) -> usize
    ensures { result ≡ length (spec.words_in_run run sent.now) }
{
    sent.iter()
        .filter(|word| u32::from(word.run) == run)
        .count()
}

/// The faults that are planned for runs before this one.
fn earlier(alloc: Global, faults: &[Fault], run: u32) -> Result<Vec<Fault>, AllocError>
    requires { list_all is_in_range faults.now ≡ true }
    ensures value { IfOk result (λ v. v.items ≡ filter (spec.is_before run) faults.now) }
    ensures in_range { IfOk result (λ v. list_all is_in_range v.items ≡ true) }
{
    let mut kept = Vec::new(alloc);
    for fault in faults {
        if run_of(fault) < run {
            kept.push(*fault)?;
        }
    }
    Ok(kept)
}

/// How many words a run of a message that is coming has under these faults. It fails for want of memory alone.
fn words_under(coming: &Upcoming, faults: &[Fault], run: u32) -> Result<usize, AllocError>
    requires clock { now_of coming.now.bus < 2 ^ 60 }
    requires start { coming.now.talk.start ≡ talk_start coming.now.bus coming.now.gap }
    requires in_range { list_all is_in_range faults.now ≡ true }
    ensures { IfOk result
        (λ n. n ≡ length (spec.words_in_run run (spec.sent_under coming.now.bus coming.now.talk faults.now))) }
{
    let mut bus = coming.bus.copy()?;
    let talk = &coming.talk;
    let played = bus.exchange(talk.line, &talk.message, coming.gap, faults);
    let sent = played.sent.list();
    Ok(count_of(sent.as_slice(), run))
}

/// Whether a fault that is planned for a message meets something: its run comes about, and has its word. The faults
/// are all that are planned for the message. It fails for want of memory alone.
pub fn meets(
    alloc: Global,
    coming: &Upcoming,
    faults: &[Fault],
    fault: &Fault,
) -> Result<bool, AllocError>
    requires clock { now_of coming.now.bus < 2 ^ 60 }
    requires start { coming.now.talk.start ≡ talk_start coming.now.bus coming.now.gap }
    requires in_range { list_all is_in_range faults.now ≡ true }
    ensures { IfOk result (λ b. b ≡ spec.meets_something coming.now.bus coming.now.talk faults.now fault.now) }
{
    let run = run_of(fault);
    let before = earlier(alloc, faults, run)?;
    let words = words_under(coming, before.as_slice(), run)?;
    Ok(is_there(words, fault))
}
