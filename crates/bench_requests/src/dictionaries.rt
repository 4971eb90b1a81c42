//! Dictionaries of signals, judged once their file is read.
ghost use Rattle.bench_requests.specs.Dictionaries.{IsRefusedDictionary, fault_of_dictionary};
ghost use Rattle.signal_dictionary.specs.Dictionary.{dictionary_in};
ghost use Rattle.signal_dictionary.specs.Parts.{parts_of};
ghost use Rattle.std.specs.Prelude.{◌≡◌, Ok, IfOk, IfErr, map};

use crate::fault::CommandFault;
use crate::rules::unless_memory;
use signal_dictionary::{DictionaryError, Signal, read_dictionary};
use std::alloc::Global;

/// The fault of a dictionary that was refused.
fn fault_of<'a>(error: DictionaryError) -> CommandFault<'a>
    ensures { result ≡ fault_of_dictionary error }
{
    unless_memory(error.fault, CommandFault::Dictionary(error))
}

/// The signals that a text spells, or its first fault, or want of memory.
pub fn dictionary_of<'a>(alloc: Global, text: &[u8]) -> Result<Vec<Signal>, CommandFault<'a>>
    ensures signals { IfOk result (λ signals. dictionary_in text.now ≡ Ok (map parts_of signals.items)) }
    ensures refused { IfErr result (IsRefusedDictionary (dictionary_in text.now)) }
{
    match read_dictionary(alloc, text) {
        Ok(signals) => Ok(signals),
        Err(error) => Err(fault_of(error)),
    }
}
