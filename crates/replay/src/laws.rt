//! Laws of the definitions of this crate, each the contract of a function that does nothing.
ghost use Rattle.replay.specs.Differences.{DifferenceExcludesAccord};
ghost use Rattle.replay.specs.PlacedActions.{PlacedActionsSuffice};

/// Law: where jobs, report and recording have a first difference, they do not agree.
pub fn difference_excludes_accord()
    ensures { DifferenceExcludesAccord }
{}

/// Law: a job makes the same messages under its own actions and under those of them that are placed at numbers up to as
/// many messages as it makes, which is how a report gives them.
pub fn placed_actions_suffice()
    ensures { PlacedActionsSuffice }
{}
