//! Rules about signals, among others.
ghost use Rattle.std.specs.Prelude.{◌≡◌};

use judge_rules::Rule;
use signal_dictionary::{Label, Signal};
use signal_values::Amount;

/// What a rule asks of a signal.
#[derive(Debug, Drop)]
pub enum Asked {
    /// What the check of the rule asks of the messages that have it.
    OfMessages,
    /// Its value lies in these bounds.
    Between { low: Amount, high: Amount },
    /// Its value is told by this text.
    Told(Label),
    /// Its value differs from the one before it in the channel by this at most.
    Step(Amount),
}

/// A rule about the messages that have a signal.
#[derive(Debug, Drop)]
pub struct SignalRule<'d> {
    /// Its line, its channel and its line of the bus, and the check where that is asked; the selector is that of the
    /// signal.
    pub rule: Rule,
    pub signal: &'d Signal,
    pub asked: Asked,
    /// The selector of the rule is that of the signal.
    pub ghost of: { rule.selector ≡ signal.now.selector },
}

/// The rules of a text, each kind in its order.
#[derive(Debug, Drop)]
pub struct AllRules<'d> {
    /// Those about messages.
    pub plain: Vec<Rule>,
    /// Those about signals.
    pub signals: Vec<SignalRule<'d>>,
}
