//! Laws of definitions of the crates below, each the contract of a function that does nothing.
ghost use Rattle.judge_laws.specs.Clean.{CleanToAll, CleanToOne, CleanBetween, CleanBetweenAll};
ghost use Rattle.judge_laws.specs.Messages.{NobodyAnswersAll, OneReplies};

/// A message to all terminals that no reply is due to is not answered: the controller's words alone come on the line,
/// whatever the terminals have met, busy, deaf, mute or off.
pub fn nobody_answers_all()
    ensures { NobodyAnswersAll }
{}

/// A message with one command, to one terminal that is on, not busy and neither deaf nor mute on the line, is answered
/// as is due where the command is legal: the controller's words come on the line, then the terminal's reply in time,
/// and nothing else.
pub fn one_replies()
    ensures { OneReplies }
{}

/// A message to all terminals that no reply is due to, and that the bench records without a planned fault, is clean
/// where it is legal, whatever the terminals have met.
pub fn message_to_all_is_clean()
    ensures { CleanToAll }
{}

/// A message with one command, to one terminal that is on, not busy and neither deaf nor mute on the line, that the
/// bench records without a planned fault is clean where the command is legal.
pub fn message_to_one_is_clean()
    ensures { CleanToOne }
{}

/// A transfer from one terminal to another, both of which are on and neither busy, deaf nor mute on the line, that the
/// bench records without a planned fault is clean where its commands are legal.
pub fn transfer_is_clean()
    ensures { CleanBetween }
{}

/// A transfer from one terminal, which is on, not busy and neither deaf nor mute on the line, to all others that the
/// bench records without a planned fault is clean where its commands are legal, whatever the others are.
pub fn transfer_to_all_is_clean()
    ensures { CleanBetweenAll }
{}
