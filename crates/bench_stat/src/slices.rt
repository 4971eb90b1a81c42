//! The load of a channel over time.
ghost use Rattle.bench_stat.specs.PageText.{slice_load};
ghost use Rattle.bench_stat.specs.Slices as spec;
ghost use Rattle.ch11_layout.specs.Stamps.{Recorded};
ghost use Rattle.std.specs.Prelude.{◌≡◌, ◌∷◌, [], List, length, IfOk};

use crate::counts::more;
use crate::flows::end_of;
use crate::traffic::share_of;
use ch11_layout::View;
use std::alloc::{AllocError, Global};

/// How many slices a span is shown in.
pub(crate) const SLICES: usize = 20;

/// A part of a span, and how long messages take of it, as far as 64 bits count. Times are ticks of 0.1 µs.
#[derive(Clone, Copy, Debug, PartialEq, Eq)]
pub struct Slice {
    /// Where it begins.
    pub begin: u64,
    /// Where it ends.
    pub end: u64,
    /// How long the bus was busy in it.
    pub busy: u64,
}

impl Slice {
    /// The share of the slice in which the bus was busy, in hundredths of a per cent.
    pub fn load(&self) -> u64
        ensures { result ≡ slice_load self.now }
    {
        share_of(self.busy, self.end.saturating_sub(self.begin)).unwrap_or(0)
    }

    /// One more message.
    fn note(&mut self, view: &View<'_>)
        ensures { self.new ≡ spec.with_part view.now self.old }
    {
        let begin = view.stamp().max(self.begin);
        let end = end_of(view).min(self.end);
        self.busy = more(self.busy, end.saturating_sub(begin));
    }
}

/// Slices of equal length that a span lies in, in which the bus was not busy. The last one ends up to 20 ticks behind
/// the span.
pub(crate) fn idle_slices(alloc: Global, begin: u64, end: u64) -> Result<Vec<Slice>, AllocError>
    ensures { IfOk result (λ v. spec.AreBusy [] v.items) }
{
    let length = end.saturating_sub(begin) / SLICES as u64 + 1;
    let mut slices = Vec::new(alloc);
    let mut at = begin;
    'slices: for made in 0..SLICES {
        let next = at.saturating_add(length);
        slices.push(Slice {
            begin: at,
            end: next,
            busy: 0,
        })?;
        at = next;
    }
    Ok(slices)
}

/// One more message.
pub(crate) fn note_slices(slices: &mut [Slice], view: &View<'_>)
    ensures { (history : List Recorded) → spec.AreBusy history slices.old
        → spec.AreBusy (view.now ∷ history) slices.new }
{
    'slices: for slice in slices.iter_mut() {
        slice.note(view);
    }
}
