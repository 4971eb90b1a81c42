//! The dictionary that a text spells.
ghost use Rattle.signal_dictionary.specs.Dictionary.{dictionary_in, has_no_place, IsDictionaryError, is_among};
ghost use Rattle.signal_dictionary.specs.Dictionary.{is_signal_of};
ghost use Rattle.signal_dictionary.specs.Parts.{parts_of};
ghost use Rattle.std.specs.List.{list_any};
ghost use Rattle.std.specs.Prelude.{◌≡◌, Ok, IfOk, IfErr, map};

use crate::fault::DictionaryError;
use crate::line_signals::read_line;
use crate::signals::Signal;
use crate::texts::Name;
use judge_rules::RuleFault;
use std::alloc::Global;
use text_lines::next_line;

/// How many signals a dictionary may have.
const MOST_SIGNALS: usize = 10_000;

/// Whether a signal has this name.
fn is_signal_of(signal: &Signal, name: &Name) -> bool
    ensures { result ≡ is_signal_of name.now signal.now }
{
    signal.name.bytes.as_slice() == name.bytes.as_slice()
}

/// Whether one of these signals has this name.
fn has_name(signals: &[Signal], name: &Name) -> bool
    ensures { result ≡ list_any (is_signal_of name.now) signals.now }
{
    signals.iter().any(|signal| is_signal_of(signal, name))
}

/// Whether a signal of this name is among others.
fn is_among(signals: &[Signal], name: &Name) -> bool
    ensures { result ≡ is_among name.now (map parts_of signals.now) }
{
    has_name(signals, name)
}

/// Whether there is no place for a signal of this name behind others: there are as many as may be, or one is of its
/// name.
fn has_no_place(signals: &[Signal], name: &Name) -> bool
    ensures { result ≡ has_no_place name.now (map parts_of signals.now) }
{
    signals.len() == MOST_SIGNALS || is_among(signals, name)
}

/// The signals that a text spells, in their order (own choice): a signal a line, words separated by spaces; a line
/// without words, or whose first word begins with `#`, is passed over. Else the first fault: D1 to D3 of the first line
/// that has one, in a line D1 before D2 before D3; a name that an earlier line has, and more than 10,000 signals, are
/// D3. D4, want of memory, is answered at the line of a signal for which it was refused, where no line in front of it
/// has a fault.
pub fn read_dictionary(alloc: Global, text: &[u8]) -> Result<Vec<Signal>, DictionaryError>
    ensures signals { IfOk result (λ signals. dictionary_in text.now ≡ Ok (map parts_of signals.items)) }
    ensures fault { IfErr result (λ e. IsDictionaryError e (dictionary_in text.now)) }
{
    let mut signals = Vec::new(alloc);
    let mut rest = text;
    let mut line = 1u64;
    while let Some((first, behind)) = next_line(rest) {
        match read_line(line, first) {
            None => {}
            Some(Err(fault)) => return Err(DictionaryError { fault, line }),
            Some(Ok(signal)) => {
                if has_no_place(&signals, &signal.name) {
                    return Err(DictionaryError {
                        fault: RuleFault::Range,
                        line,
                    });
                }
                if signals.push(signal).is_err() {
                    return Err(DictionaryError {
                        fault: RuleFault::Memory,
                        line,
                    });
                }
            }
        }
        rest = behind;
        line += 1;
    }
    Ok(signals)
}
