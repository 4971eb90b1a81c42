//! Channel and line of a rule.
ghost use Rattle.judge_rules.specs.Lines as spec;
ghost use Rattle.std.specs.Prelude.{◌≡◌};

use crate::fault::RuleFault;
use crate::values::read_number;
use mil_word::Line;
use text_lines::Words;

/// The channel that a rule names, if it names one.
pub fn read_channel(words: &mut Words<'_>) -> Result<Option<u16>, RuleFault>
    ensures value { result ≡ spec.channel_in words.old }
    ensures rest { words.new ≡ spec.behind_channel words.old }
{
    if !words.takes(b"channel") {
        return Ok(None);
    }
    match read_number(words, 1, 65_535) {
        Ok(channel) => Ok(Some(channel as u16)),
        Err(fault) => Err(fault),
    }
}

/// The line of the bus that a rule names, if it names one.
pub fn read_bus(words: &mut Words<'_>) -> Result<Option<Line>, RuleFault>
    ensures value { result ≡ spec.bus_in words.old }
    ensures rest { words.new ≡ spec.behind_bus words.old }
{
    if !words.takes(b"line") {
        return Ok(None);
    }
    let Some(word) = words.next() else {
        return Err(RuleFault::Word);
    };
    if word == b"A".as_slice() {
        Ok(Some(Line::A))
    } else if word == b"B".as_slice() {
        Ok(Some(Line::B))
    } else {
        Err(RuleFault::Word)
    }
}
