//! What may stand next in a line of rules.

use crate::kinds::Kind::{
    AnyAddress, AnyModeCode, AnySubaddress, Channel, Counted, DataPlace, Datum, Line, MessageCount,
    Microseconds, ReplyTicks, RuleTime, SignalName, StatusWord, StepMost, ValueWord, WordValue,
};
use crate::symbols::Symbol;
use crate::symbols::Symbol::{
    Check, Growth, Mask, OfKind, One, Rest, RuleChannel, RuleFrom, RuleLine, RuleTo, Selector,
    SignalCheck, Token, ValueHigh,
};

/// What follows the first word of a selector; none where no selector begins so.
fn behind_selector_word(word: &str) -> Option<&'static [Symbol]> {
    match word {
        "any" => Some(&[]),
        "rx" | "tx" => Some(&[One(AnyAddress), One(AnySubaddress)]),
        "rt" => Some(&[
            One(AnyAddress),
            One(AnySubaddress),
            One(AnyAddress),
            One(AnySubaddress),
        ]),
        "mode" => Some(&[One(AnyAddress), One(AnyModeCode)]),
        "brx" => Some(&[One(AnySubaddress)]),
        "brt" => Some(&[One(AnyAddress), One(AnySubaddress), One(AnySubaddress)]),
        "bmode" => Some(&[One(AnyModeCode)]),
        _ => None,
    }
}

/// What follows the name of a check; none where it is no name of one.
pub fn behind_check_word(word: &str) -> Option<&'static [Symbol]> {
    match word {
        "ok" | "fail" | "clean" | "whole" => Some(&[]),
        "status" => Some(&[One(StatusWord), Mask]),
        "data" => Some(&[Rest(Datum)]),
        // the least and the greatest
        "response" => Some(&[One(ReplyTicks), One(ReplyTicks)]),
        "period" => Some(&[One(Microseconds), One(Microseconds)]),
        "count" => Some(&[One(MessageCount), One(MessageCount), OfKind]),
        "word" => Some(&[One(DataPlace), Growth, One(WordValue), One(WordValue)]),
        _ => None,
    }
}

/// What follows the name of a check of a signal; none where it is no name of one.
fn behind_signal_check_word(word: &str) -> Option<&'static [Symbol]> {
    match word {
        "value" => Some(&[One(ValueWord), ValueHigh]),
        "step" => Some(&[One(StepMost)]),
        _ => behind_check_word(word),
    }
}

/// What has to stand behind a word in the place of a symbol of rules; none where the word does not begin it.
pub fn behind_in_rules(symbol: Symbol, word: &str) -> Option<&'static [Symbol]> {
    match symbol {
        Symbol::Rule if word == "expect" => {
            Some(&[RuleChannel, RuleLine, RuleFrom, RuleTo, Selector, Check])
        },
        Symbol::RuleChannel if word == "channel" => Some(&[One(Channel)]),
        Symbol::RuleLine if word == "line" => Some(&[One(Line)]),
        Symbol::RuleFrom if word == "from" => Some(&[One(RuleTime)]),
        Symbol::RuleTo if word == "to" => Some(&[One(RuleTime)]),
        Symbol::Selector => behind_selector_word(word),
        Symbol::Check => behind_check_word(word),
        Symbol::Mask if word == "mask" => Some(&[One(StatusWord)]),
        Symbol::Growth if word == "step" => Some(&[]),
        Symbol::OfKind if word == "of" => Some(&[One(Counted)]),
        Symbol::SignalRule if word == "expect" => Some(&[
            RuleChannel,
            RuleLine,
            RuleFrom,
            RuleTo,
            Token("signal"),
            One(SignalName),
            SignalCheck,
        ]),
        Symbol::SignalCheck => behind_signal_check_word(word),
        Symbol::ValueHigh => Some(&[]),
        _ => None,
    }
}

/// Which words may stand in the place of a symbol of rules.
pub fn allowed_in_rules(symbol: Symbol) -> &'static str {
    match symbol {
        Symbol::Rule => {
            "a rule is expect [channel N] [line A|B] [from TIME] [to TIME] SELECTOR CHECK"
        },
        Symbol::Selector => {
            "a selector is any, rx A S, tx A S, rt A S A S, mode A C, brx S, brt A S S or bmode C; channel N, line A \
             or B, from TIME and to TIME stand in front of it, in this order"
        }
        Symbol::Check => {
            "a check is ok, fail, clean, status WORD [mask WORD], data WORD .., response LOW HIGH, period LOW HIGH, \
             count LOW HIGH [of KIND], word I [step] LOW HIGH or whole"
        }
        Symbol::SignalCheck => {
            "behind a signal a check is value LOW HIGH, of names value LABEL, step MOST, or any other check"
        }
        Symbol::ValueHigh => "a value is a decimal, as -40 or 0.5, of 1 to 18 digits",
        _ => "another word stands here",
    }
}
