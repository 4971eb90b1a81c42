//! The line that asks for an action while a run goes on.
ghost use Rattle.bench_live.specs.Lines.{post_of, host_action_of};
ghost use Rattle.std.specs.Prelude.{◌≡◌};
ghost use Rattle.text_lines.specs.Words.{words};

use bc_machine::HostAction;
use controller_text::read_control;
use mil_host::{BadAction, number_within, read_action};
use mil_word::fields::HIGHEST_ADDRESS;
use text_lines::next_word;

/// What a line asks for.
#[derive(Debug, Drop)]
pub struct LivePost {
    /// The channel of a job, 1 to 65,535.
    pub channel: u16,
    pub action: HostAction,
}

/// What a line asks for: `CHANNEL ADDRESS ACTION` or `CHANNEL bc CONTROL`, words separated by one or more spaces, with
/// a channel of 1 to 65,535, an address of 0 to 30, an action as `read_action` reads it and what the host of the
/// controller asks for as `read_control` does (own choice). The first fault from left to right is answered: H1 where
/// the channel or the address is missing, H2 where it is not a number of one to seven digits, H3 where it is out of
/// range.
#[tactic(auto, unfolding(crate::specs::Lines::post_of))]
pub fn read_post(line: &[u8]) -> Result<LivePost, BadAction>
    ensures { result ≡ post_of line.now }
{
    let Some((channel, behind)) = next_word(line) else {
        return Err(BadAction::Word);
    };
    let channel = number_within(channel, 1, 65_535)?;
    let Some((address, behind)) = next_word(behind) else {
        return Err(BadAction::Word);
    };
    let action = read_host_action(address, behind)?;
    Ok(LivePost { channel, action })
}

/// An action of the terminal at an address, or of the controller where the word is `bc`.
#[tactic(auto, unfolding(mil_host::specs::Reading::action_in))]
fn read_host_action(address: &[u8], text: &[u8]) -> Result<HostAction, BadAction>
    ensures { result ≡ host_action_of address.now (words text.now) }
{
    if address == b"bc".as_slice() {
        return Ok(HostAction::Controller(read_control(text)?));
    }
    let address = number_within(address, 0, u16::from(HIGHEST_ADDRESS))?;
    let action = read_action(text)?;
    Ok(HostAction::Terminal {
        address: address as u8,
        action,
    })
}
