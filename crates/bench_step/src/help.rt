//! The commands of a session as they are shown.
ghost use Rattle.bench_step.specs.HelpText.{help_text};
ghost use Rattle.std.specs.Prelude.{◌≡◌};

/// The commands of a session, a line each.
#[tactic(auto, unfolding(crate::specs::HelpText::help_text))]
pub(crate) fn commands() -> &'static str
    ensures { result.now ≡ help_text }
{
    "forward, back   one message of the recording on, or back\n\
     go N            to the place where N messages are past, 0 for the beginning\n\
     find COND       on to the next message whose outcome makes a condition true, as in: find any ( fail silent )\n\
     state           the channels, and the registers of their terminals\n\
     state --all     what the hosts of the terminals set, too\n\
     forward N, back N   so many messages on, or back (where lines are typed)\n\
     go channel C N  to message N of channel C\n\
     find back COND  back to the latest message before the place whose outcome makes a condition true\n\
     find SELECTOR   on to the next message of these commands, in the words of a rule, as in: find tx 5 3\n\
     find back SELECTOR   back to the latest message of these commands before the place\n\
     go TIME         to the place before the first message with a later stamp, as in: go 1.2s, go 350ms\n\
     show, show N    the message at the place, or message N, as people read it\n\
     data A S        what terminal A holds at subaddress S: received, received from all, to transmit\n\
     help            these lines\n\
     quit            ends the session\n"
}
