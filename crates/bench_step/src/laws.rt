//! Laws of the definitions of this crate, each the contract of a function that does nothing.
ghost use Rattle.bench_step.specs.Session.{MessagesHaveText, RepliesAreDetermined};
ghost use Rattle.bench_step.specs.Shown.{OwnFaultsAreShown};

/// Law: in one state, the same lines are replied to alike, and so print the same, where memory is refused for none of
/// them.
pub fn replies_are_determined()
    ensures { RepliesAreDetermined }
{}

/// Law: no message that is shown has an empty text.
pub fn messages_have_text()
    ensures { MessagesHaveText }
{}

/// Law: where no line of a job plans a fault by time or by command, a session shows the states of the jobs as they are
/// given, whatever the report says that hosts did.
pub fn own_faults_are_shown()
    ensures { OwnFaultsAreShown }
{}
