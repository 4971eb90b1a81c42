//! Messages by terminal, direction and subaddress.
ghost use Rattle.bench_stat.specs.Entries as spec;
ghost use Rattle.bench_stat.specs.Entries.{AreEntries, is_same as are_same, with_choice};
ghost use Rattle.bench_stat.specs.PageText.{address_in, direction_in, subaddress_in};
ghost use Rattle.ch11_layout.specs.Stamps.{Recorded};
ghost use Rattle.std.specs.Prelude.{◌≡◌, ◌∷◌, [], List, length, IfOk};

use crate::flows::Flow;
use crate::sendings::Sending;
use ch11_layout::View;
use mil_word::fields::FIELD_VALUES;
use std::alloc::{AllocError, Global};

/// How many entries there are: command words without their last field have 11 bits.
pub(crate) const ENTRIES: usize = 2048;

/// A flow for each entry, of no messages.
pub(crate) fn no_entries(alloc: Global) -> Result<Vec<Flow>, AllocError>
    ensures { IfOk result (λ v. AreEntries [] v.items) }
{
    let entries = vec![in alloc; Flow::none(); ENTRIES]?;
    Ok(entries)
}

/// The entry of a command: those of one entry differ in the last field alone.
fn entry_of(command: u16) -> usize
    ensures { result ≡ spec.entry_of command }
{
    usize::from(command) / FIELD_VALUES
}

/// The terminal address, the direction as the letter of a command (T or R), and the subaddress of an entry.
pub(crate) fn parts_of(entry: usize) -> (usize, &'static str, usize)
    ensures address { result.0 ≡ address_in entry }
    ensures direction { result.1.now ≡ direction_in entry }
    ensures subaddress { result.2 ≡ subaddress_in entry }
{
    let transmits = entry / FIELD_VALUES % 2 == 1;
    let direction = if transmits { "T" } else { "R" };
    (entry / (2 * FIELD_VALUES), direction, entry % FIELD_VALUES)
}

/// One more message for the entry of a command, where there is one, which had this error.
fn note_choice(entries: &mut [Flow], command: Option<u16>, failed: bool, view: &View<'_>)
    requires { length entries.old ≡ ENTRIES }
    ensures { entries.new ≡ with_choice command failed view.now entries.old }
{
    if let Some(command) = command {
        let place = entry_of(command);
        let mut flow = entries[place];
        flow.note_by(view, failed);
        entries[place] = flow;
    }
}

/// Whether both commands are there and of one entry.
fn is_same(first: Option<u16>, second: Option<u16>) -> bool
    ensures { result ≡ are_same first second }
{
    match (first, second) {
        (Some(first), Some(second)) => entry_of(first) == entry_of(second),
        _ => false,
    }
}

/// Whether the error of a message is for the entry of its first command.
fn is_first_failed(sending: &Sending) -> bool
    ensures { result ≡ spec.is_first_failed sending.now }
{
    sending.failed && (is_same(sending.first, sending.second) || !sending.sender_failed)
}

/// One more message, for the entries of its commands; its error is for that of one of them.
pub(crate) fn note_entries(entries: &mut [Flow], view: &View<'_>)
    requires { length entries.old ≡ ENTRIES }
    ensures { (history : List Recorded) → AreEntries history entries.old
        → AreEntries (view.now ∷ history) entries.new }
{
    let sending = Sending::of(view);
    let failed = is_first_failed(&sending);
    note_choice(entries, sending.first, failed, view);
    if is_same(sending.first, sending.second) {
        return;
    }
    note_choice(entries, sending.second, sending.sender_failed, view);
}
