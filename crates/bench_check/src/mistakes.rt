//! What is probably a mistake in a job that was tried.
ghost use Rattle.bench_check.specs.Mistakes as spec;
ghost use Rattle.bench_check.specs.Mistakes.{unfilled_of};
ghost use Rattle.std.specs.List.{flat_map};
ghost use Rattle.std.specs.Prelude.{◌≡◌, ◌++◌, IfOk, OnOk};

use crate::calls::Calls;
use crate::findings::Findings;
use crate::fitting::Tight;
use crate::frames::Overrun;
use crate::oddities::Oddities;
use bc_machine::{Actions, Placed};
use job_file::Job;
use mil_line::Fault;
use mil_word::fields::ALL_TERMINALS;
use std::alloc::AllocError;

/// How many frames are named that may take longer than their period.
const SHOWN: usize = 3;

/// How many subaddresses a terminal may transmit data words from.
const SUBADDRESSES: u8 = 30;

/// What is probably a mistake. Messages are numbered from 1, in their channel.
#[derive(Debug, Drop)]
pub enum Mistake {
    /// A fault is planned for a message that is never sent.
    Unsent {
        number: u32,
        fault: Fault,
    },
    /// A fault is planned for a message that has no such run or word.
    Unmet {
        number: u32,
        fault: Fault,
    },
    /// A frame may take longer than its period.
    Tight(Tight),
    /// So many more frames may take longer than their period.
    MoreTight(usize),
    /// A frame took longer than its period.
    Late(Overrun),
    /// An action is placed at a message that is never sent.
    Undone(Placed),
    /// What the host of the controller sets is carried by no message of the script.
    Uncarried(Placed),
    /// A terminal is called and is not there: the number of the first message that calls it, and how many commands do.
    Stranger {
        address: u8,
        first: u32,
        count: u32,
    },
    /// A terminal is there and never called, also not by a message to all.
    Uncalled(u8),
    /// A terminal transmits from a subaddress where no words were put up: the number of the first such message.
    Unfilled {
        address: u8,
        sub: u8,
        first: u32,
    },
    /// Messages were answered with the message error bit and not sent again: the number of the first, and how many.
    Left {
        first: u32,
        count: u32,
    },
    /// A line by time or by command was never due: its number in the job's text, counted from 1, and what it says.
    NeverDue {
        line: u64,
        words: String,
    },
    /// The fault of a line comes behind four others that are due at a message, so that it is not planned for it: the
    /// number of the first such message, and how many more there are.
    LeftOut {
        line: u64,
        first: u32,
        more: u32,
        words: String,
    },
}

/// All that is probably a mistake in a job that was tried, in the order in which it is told: first what was found in
/// its lines by time or by command; the frames that may not fit into their period are those of its script. With
/// `is_all` also subaddresses that transmit and were never filled, and messages that were answered with the message
/// error bit and not sent again. It fails for want of memory alone.
pub fn mistakes_of(
    job: &Job,
    findings: &Findings,
    tight: &[Tight],
    lines: Vec<Mistake>,
    is_all: bool,
) -> Result<Vec<Mistake>, AllocError>
    ensures { IfOk result (λ l. l.items ≡ lines.items ++ spec.mistakes is_all job.now findings.now tight.now) }
{
    let mut found = lines;
    let (made, addresses) = (findings.made, job.addresses());
    add_unmet(&mut found, made, findings.unmet.as_slice())?;
    add_tight(&mut found, tight)?;
    add_late(&mut found, findings.overruns.as_slice())?;
    add_undone(&mut found, made, job.actions())?;
    add_uncarried(&mut found, findings.uncarried.as_slice())?;
    add_strangers(&mut found, addresses, &findings.calls)?;
    add_uncalled(&mut found, addresses, &findings.calls)?;
    add_further(&mut found, addresses, &findings.oddities, is_all)?;
    Ok(found)
}

/// Adds what is looked for where all is asked for.
fn add_further(
    found: &mut Vec<Mistake>,
    addresses: &[u8],
    oddities: &Oddities,
    is_all: bool,
) -> Result<(), AllocError>
    ensures { OnOk result (found.new.items ≡ found.old.items ++ spec.further is_all addresses.now oddities.now) }
{
    if !is_all {
        return Ok(());
    }
    add_unfilled(found, addresses, oddities)?;
    add_left(found, oddities)
}

/// A planned fault that meets nothing, where so many messages were sent.
fn unmet_of(made: u32, planned: &(u32, Fault)) -> Mistake
    ensures { result ≡ spec.unmet_of made planned.now }
{
    let (number, fault) = *planned;
    if number > made {
        Mistake::Unsent { number, fault }
    } else {
        Mistake::Unmet { number, fault }
    }
}

/// Adds the planned faults that meet nothing, where so many messages were sent.
fn add_unmet(found: &mut Vec<Mistake>, made: u32, unmet: &[(u32, Fault)]) -> Result<(), AllocError>
    ensures { OnOk result (found.new.items ≡ found.old.items ++ spec.unmet_of_all made unmet.now) }
{
    for planned in unmet {
        found.push(unmet_of(made, planned))?;
    }
    Ok(())
}

/// Those of these frames that are named.
fn named(tight: &[Tight]) -> &[Tight]
    ensures { result.now ≡ spec.shown_of tight.now }
{
    if tight.len() > SHOWN {
        &tight[..SHOWN]
    } else {
        tight
    }
}

/// Adds the frames that may take longer than their period: the first three of them, and how many more there are.
fn add_tight(found: &mut Vec<Mistake>, tight: &[Tight]) -> Result<(), AllocError>
    ensures { OnOk result (found.new.items ≡ found.old.items ++ spec.tight_of tight.now) }
{
    add_named(found, named(tight))?;
    if tight.len() > SHOWN {
        found.push(Mistake::MoreTight(tight.len() - SHOWN))?;
    }
    Ok(())
}

fn add_named(found: &mut Vec<Mistake>, tight: &[Tight]) -> Result<(), AllocError>
    ensures { OnOk result (found.new.items ≡ found.old.items ++ spec.named tight.now) }
{
    for one in tight {
        found.push(Mistake::Tight(*one))?;
    }
    Ok(())
}

/// Adds the frames that took longer than their period, each of them.
fn add_late(found: &mut Vec<Mistake>, overruns: &[Overrun]) -> Result<(), AllocError>
    ensures { OnOk result (found.new.items ≡ found.old.items ++ spec.late_of overruns.now) }
{
    for one in overruns {
        found.push(Mistake::Late(*one))?;
    }
    Ok(())
}

/// Adds an action where no message reaches it.
fn note_undone(found: &mut Vec<Mistake>, made: u32, one: Placed) -> Result<(), AllocError>
    ensures { OnOk result (found.new.items ≡ found.old.items ++ spec.undone_at made one) }
{
    if one.number > made {
        found.push(Mistake::Undone(one))?;
    }
    Ok(())
}

/// Adds the placed actions that no message reaches, where so many were sent.
fn add_undone(found: &mut Vec<Mistake>, made: u32, actions: &Actions) -> Result<(), AllocError>
    ensures { OnOk result (found.new.items ≡ found.old.items ++ flat_map (spec.undone_at made) actions.now) }
{
    for place in 0..actions.len() {
        note_undone(found, made, actions.get(place))?;
    }
    Ok(())
}

/// Adds what no message of the script carries.
fn add_uncarried(found: &mut Vec<Mistake>, uncarried: &[Placed]) -> Result<(), AllocError>
    ensures { OnOk result (found.new.items ≡ found.old.items ++ spec.uncarried_of uncarried.now) }
{
    for one in uncarried {
        found.push(Mistake::Uncarried(Placed {
            number: one.number,
            action: one.action.copy(),
        }))?;
    }
    Ok(())
}

/// Adds the terminal of an address where it is called and is not there.
fn note_stranger(
    found: &mut Vec<Mistake>,
    addresses: &[u8],
    calls: &Calls,
    address: u8,
) -> Result<(), AllocError>
    ensures { OnOk result (found.new.items ≡ found.old.items ++ spec.stranger_at addresses.now calls.now address) }
{
    let (first, count) = (calls.first(address), calls.count(address));
    if count > 0 && !addresses.contains(&address) {
        found.push(Mistake::Stranger {
            address,
            first,
            count,
        })?;
    }
    Ok(())
}

/// Adds the terminals that are called and are not there.
fn add_strangers(
    found: &mut Vec<Mistake>,
    addresses: &[u8],
    calls: &Calls,
) -> Result<(), AllocError>
    ensures { OnOk result (found.new.items ≡ found.old.items ++ spec.strangers_below addresses.now calls.now 31) }
{
    for address in 0..ALL_TERMINALS {
        note_stranger(found, addresses, calls, address)?;
    }
    Ok(())
}

/// Adds the terminal of an address, which is there, where it is never called.
fn note_uncalled(found: &mut Vec<Mistake>, calls: &Calls, address: u8) -> Result<(), AllocError>
    ensures { OnOk result (found.new.items ≡ found.old.items ++ spec.uncalled_at calls.now address) }
{
    if calls.count(address) == 0 && calls.count(ALL_TERMINALS) == 0 {
        found.push(Mistake::Uncalled(address))?;
    }
    Ok(())
}

/// Adds the terminals that are there and are never called.
fn add_uncalled(found: &mut Vec<Mistake>, addresses: &[u8], calls: &Calls) -> Result<(), AllocError>
    ensures { OnOk result (found.new.items ≡ found.old.items ++ flat_map (spec.uncalled_at calls.now) addresses.now) }
{
    for address in addresses {
        note_uncalled(found, calls, *address)?;
    }
    Ok(())
}

/// Adds a subaddress of a terminal where it transmits and was never filled.
fn note_unfilled(
    found: &mut Vec<Mistake>,
    oddities: &Oddities,
    address: u8,
    sub: u8,
) -> Result<(), AllocError>
    ensures { OnOk result (found.new.items ≡ found.old.items ++ spec.unfilled_at oddities.now address sub) }
{
    let first = oddities.unfilled(address, sub);
    if first > 0 {
        found.push(Mistake::Unfilled {
            address,
            sub,
            first,
        })?;
    }
    Ok(())
}

/// Adds the subaddresses of a terminal that transmit and were never filled.
fn add_unfilled_of(
    found: &mut Vec<Mistake>,
    oddities: &Oddities,
    address: u8,
) -> Result<(), AllocError>
    ensures { OnOk result (found.new.items ≡ found.old.items ++ spec.unfilled_up_to oddities.now address 30) }
{
    for count in 0..SUBADDRESSES {
        note_unfilled(found, oddities, address, count + 1)?;
    }
    Ok(())
}

/// Adds the subaddresses that transmit and were never filled, of the terminals that are there.
fn add_unfilled(
    found: &mut Vec<Mistake>,
    addresses: &[u8],
    oddities: &Oddities,
) -> Result<(), AllocError>
    ensures { OnOk result (found.new.items ≡ found.old.items ++ flat_map (unfilled_of oddities.now) addresses.now) }
{
    for address in addresses {
        add_unfilled_of(found, oddities, *address)?;
    }
    Ok(())
}

/// Adds the messages that were answered with the message error bit and not sent again.
fn add_left(found: &mut Vec<Mistake>, oddities: &Oddities) -> Result<(), AllocError>
    ensures { OnOk result (found.new.items ≡ found.old.items ++ spec.left_of oddities.now) }
{
    let (first, count) = (oddities.first_left(), oddities.left());
    if count > 0 {
        found.push(Mistake::Left { first, count })?;
    }
    Ok(())
}
