//! Rules about signals are tallied as other rules are.
ghost use Rattle.bench_judge.specs.Selection.{Origins};
ghost use Rattle.signal_judge.specs.Tallies as spec;
ghost use Rattle.signal_judge.specs.declared.rules.SignalRule.{SignalRule};
ghost use Rattle.std.specs.Prelude.{[]};

use crate::rules::SignalRule;
use crate::tallies::{SignalTally, value_selected};
use bench_judge::Tallied;
use ch11_layout::View;
use std::alloc::{AllocError, Global};

impl<'d> Tallied for SignalRule<'d> {
    type Tally = SignalTally;

    ghost is_tally = { spec.IsTally };

    ghost misses_next = { spec.misses_next };

    ghost line_of = { λ r. r.rule.line };

    fn line(&self) -> u64 {
        self.rule.line
    }

    fn no_tally(alloc: Global) -> SignalTally
        ensures { (rule : SignalRule) → (origins : Origins) → spec.IsTally rule origins [] result }
    {
        SignalTally::new(alloc)
    }

    fn note(
        &self,
        tally: &mut SignalTally,
        origins: &[Option<u64>],
        channel: u16,
        view: &View<'_>,
        known: &mut Option<bool>,
    ) -> Result<bool, AllocError> {
        match value_selected(self, origins, channel, view) {
            Some(value) => tally.note_value(self, origins, channel, value, view, known),
            None => Ok(false),
        }
    }
}
