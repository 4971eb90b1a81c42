//! What is told of a channel's messages beside their figures, as they come.
ghost use Rattle.bench_stat.specs.Chosen.{picked};
ghost use Rattle.bench_stat.specs.Details.{details_of};
ghost use Rattle.bench_stat.specs.Entries.{AreEntries};
ghost use Rattle.bench_stat.specs.Slices.{AreBusy};
ghost use Rattle.bench_stat.specs.Told.{IsFollowed};
ghost use Rattle.bench_stat.specs.declared.shown.Shown.{Shown as ShownValue};
ghost use Rattle.ch11_layout.specs.Stamps.{Recorded};
ghost use Rattle.std.specs.Prelude.{◌≡◌, ◌+◌, ◌<◌, ◌^◌, ◌++◌, ◌∷◌, [], List, Some, IfOk, length, reverse, true};

use crate::chosen::next_selected;
use crate::details::Details;
use crate::entries::{ENTRIES, no_entries, note_entries};
use crate::flows::Flow;
use crate::shown::Shown;
use crate::slices::{Slice, idle_slices, note_slices};
use crate::traffic::Traffic;
use bench_select::Selection;
use ch11_f1::Messages;
use ch11_layout::{StampKind, View};
use std::alloc::{AllocError, Global};

/// What is told of messages, as far as it is shown.
#[derive(Debug, Drop)]
pub struct Followed {
    /// How they follow one another, and their status words; None where that is not shown.
    pub details: Option<Details>,
    /// A flow for each command word without its last field, 0 to 2047; none where they are not shown.
    pub flows: Vec<Flow>,
    /// How busy the channel is in each of 20 slices of its span; none where that is not shown.
    pub slices: Vec<Slice>,
}

impl Followed {
    /// What is told of no messages, for a channel that will carry this.
    pub(crate) fn none(
        alloc: Global,
        shown: &Shown,
        traffic: &Traffic,
    ) -> Result<Followed, AllocError>
        ensures { IfOk result (IsFollowed shown.now []) }
    {
        let details = first_details(shown.long);
        let flows = first_flows(alloc, shown.by_subaddress)?;
        let slices = first_slices(alloc, shown.load, traffic)?;
        Ok(Followed {
            details,
            flows,
            slices,
        })
    }

    /// One more message.
    fn count(&mut self, view: &View<'_>)
        ensures { (shown : ShownValue) (history : List Recorded) → IsFollowed shown history self.old
            → IsFollowed shown (view.now ∷ history) self.new }
    {
        count_details(&mut self.details, view);
        count_flows(&mut self.flows, view);
        count_load(&mut self.slices, view);
    }

    /// The selected ones of a packet's messages, whose stamps are of this kind, and which stand behind so many of the
    /// file.
    pub(crate) fn count_selected(
        &mut self,
        selection: &Selection,
        kind: StampKind,
        channel: u16,
        before: u64,
        messages: Messages<'_>,
    )
        requires { before + length messages < 2 ^ 64 }
        ensures { (shown : ShownValue) (history : List Recorded) → IsFollowed shown history self.old
            → IsFollowed shown (reverse (picked selection.now kind channel before messages.entry) ++ history) self.new }
    {
        let mut number = before;
        let mut rest = messages;
        'messages: while let Some(view) = next_selected(
            &mut rest,
            &mut number,
            selection,
            kind,
            channel,
        ) {
            self.count(&view);
        }
    }
}

/// Details of no messages, where they are shown.
fn first_details(shown: bool) -> Option<Details>
    ensures { shown ≡ true → result ≡ Some (details_of []) }
{
    if shown { Some(Details::none()) } else { None }
}

/// Flows of no messages, where they are shown.
fn first_flows(alloc: Global, shown: bool) -> Result<Vec<Flow>, AllocError>
    ensures { shown ≡ true → IfOk result (λ flows. AreEntries [] flows.items) }
{
    if shown {
        no_entries(alloc)
    } else {
        Ok(Vec::new(alloc))
    }
}

/// Slices of a channel's span without messages, where they are shown.
fn first_slices(alloc: Global, shown: bool, traffic: &Traffic) -> Result<Vec<Slice>, AllocError>
    ensures { shown ≡ true → IfOk result (λ slices. AreBusy [] slices.items) }
{
    if shown {
        idle_slices(alloc, traffic.begin, traffic.end)
    } else {
        Ok(Vec::new(alloc))
    }
}

/// One more message in details, where there are any.
fn count_details(details: &mut Option<Details>, view: &View<'_>)
    ensures { (history : List Recorded) → details.old ≡ Some (details_of history)
        → details.new ≡ Some (details_of (view.now ∷ history)) }
{
    if let Some(details) = details {
        details.note(view);
    }
}

/// One more message in flows, where there are any.
fn count_flows(flows: &mut Vec<Flow>, view: &View<'_>)
    ensures { (history : List Recorded) → AreEntries history flows.old.items
        → AreEntries (view.now ∷ history) flows.new.items }
{
    if flows.len() == ENTRIES {
        note_entries(flows.as_mut_slice(), view);
    }
}

/// One more message in slices.
fn count_load(slices: &mut Vec<Slice>, view: &View<'_>)
    ensures { (history : List Recorded) → AreBusy history slices.old.items
        → AreBusy (view.now ∷ history) slices.new.items }
{
    note_slices(slices.as_mut_slice(), view);
}
