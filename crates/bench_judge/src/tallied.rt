//! Rules of which is tallied what messages do while a recording is passed: rules about messages, and those of other
//! crates that are judged beside them.
ghost use Rattle.bench_judge.specs.Clean.{IsKnown};
ghost use Rattle.bench_judge.specs.Selection.{Origins};
ghost use Rattle.bench_judge.specs.Tallies as spec;
ghost use Rattle.bench_select.specs.Viewed.{Viewed};
ghost use Rattle.std.specs.Prelude.{◌≡◌, ◌+◌, ◌<◌, ◌^◌, ◌∷◌, [], ℕ, Bool, List, length, IfOk, OnOk};

use crate::tallies::Tally;
use crate::verdicts::Miss;
use ch11_layout::View;
use judge_rules::Rule;
use std::alloc::{AllocError, Global};

/// A rule of which is tallied what messages do, one after the other.
pub trait Tallied {
    /// What is kept of the messages so far.
    type Tally: Drop;

    // It is what is kept of these messages, newest first.
    ghost is_tally: { Self → Origins → List Viewed → Self.Tally → Type 0 };

    // Whether the next message is selected and misses the rule.
    ghost misses_next: { Self → Origins → List Viewed → Viewed → Bool };

    // The line that the rule stands in.
    ghost line_of: { Self → ℕ };

    /// The line of the text that the rule stands in, counted from 1.
    fn line(&self) -> u64
        ensures { result ≡ line_of self.now };

    /// What is kept of no messages.
    fn no_tally(alloc: Global) -> Self::Tally
        ensures { (rule : Self) → (origins : Origins) → is_tally rule origins [] result };

    /// One more message of a channel, and whether it is clean where that is known. Answers whether it misses the rule.
    fn note(
        &self,
        tally: &mut Self::Tally,
        origins: &[Option<u64>],
        channel: u16,
        view: &View<'_>,
        known: &mut Option<bool>,
    ) -> Result<bool, AllocError>
        requires { IsKnown known.old view.now }
        ensures known { IsKnown known.new view.now }
        ensures told { (history : List Viewed) → is_tally self.now origins.now history tally.old
            → IfOk result (λ told. told ≡ misses_next self.now origins.now history (channel, view.now)) }
        ensures noted { (history : List Viewed) → is_tally self.now origins.now history tally.old
            → length history + 1 < 2 ^ 64
            → OnOk result (is_tally self.now origins.now ((channel, view.now) ∷ history) tally.new) };
}

impl Tallied for Rule {
    type Tally = Tally;

    ghost is_tally = { spec.IsTally };

    ghost misses_next = { spec.misses_next };

    ghost line_of = { λ rule. rule.line };

    fn line(&self) -> u64 {
        self.line
    }

    fn no_tally(alloc: Global) -> Tally {
        Tally::new(alloc)
    }

    #[inline(always)]
    fn note(
        &self,
        tally: &mut Tally,
        origins: &[Option<u64>],
        channel: u16,
        view: &View<'_>,
        known: &mut Option<bool>,
    ) -> Result<bool, AllocError> {
        tally.note(self, origins, channel, view, known)
    }
}

/// One more message of a channel, of this number in the file. Answers it if it misses the rule.
pub fn note_miss<T: Tallied>(
    rule: &T,
    tally: &mut T::Tally,
    origins: &[Option<u64>],
    number: u64,
    channel: u16,
    view: &View<'_>,
) -> Result<Option<Miss>, AllocError>
    ensures told { (history : List Viewed) → T.is_tally rule.now origins.now history tally.old
        → IfOk result (spec.IsMissIf (T.misses_next rule.now origins.now history (channel, view.now))
        (spec.miss_at number (channel, view.now))) }
    ensures noted { (history : List Viewed) → T.is_tally rule.now origins.now history tally.old
        → length history + 1 < 2 ^ 64
        → OnOk result (T.is_tally rule.now origins.now ((channel, view.now) ∷ history) tally.new) }
{
    let mut known = None;
    let stamp = view.time();
    if rule.note(tally, origins, channel, view, &mut known)? {
        return Ok(Some(Miss {
            number,
            channel,
            stamp,
        }));
    }
    Ok(None)
}
