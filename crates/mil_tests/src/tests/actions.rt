//! Texts of actions: what is expected stands in the format's own words.
use crate::tests::equal::{are_in, prints, same_in};
use mil_host::{Action, BadAction, read_action};
use std::alloc::Global;
use std::process::Abort;

/// The action that a text spells.
pub(super) fn action(rt: &impl Abort, text: &str) -> Action {
    read_action(text.as_bytes()).expect(rt, text)
}

/// The fault of a text, if it spells no action.
fn fault(text: &str) -> Option<BadAction> {
    read_action(text.as_bytes()).err()
}

/// Texts that spell no action, and the first fault of each.
const FAULTS: &[(&str, BadAction)] = &[
    ("busy maybe", BadAction::Word),
    ("vector 12", BadAction::Number),
    ("response 39", BadAction::Range),
    ("transmit 30 0001", BadAction::Range),
    ("", BadAction::Word),
    ("busy on off", BadAction::Word),
    ("deaf", BadAction::Word),
    ("deaf C on", BadAction::Word),
    ("deaf on", BadAction::Word),
    ("mute a on", BadAction::Word),
    ("mute A", BadAction::Word),
    ("mute A maybe", BadAction::Word),
    ("mute B on on", BadAction::Word),
    ("illegal transmit mode 1", BadAction::Number),
    ("illegal mode", BadAction::Word),
    ("legal mode transmit 32", BadAction::Range),
    ("service once on", BadAction::Word),
    ("power", BadAction::Word),
    ("bit 12", BadAction::Number),
    ("gap 20 20", BadAction::Range),
    ("gap 256", BadAction::Range),
    ("ramp 30 1 0000 0000", BadAction::Range),
    ("ramp 1 33 0000 0000", BadAction::Range),
    ("ramp 1 1 0000", BadAction::Word),
];

#[test]
fn names_the_first_fault(rt: HostRuntime) {
    for (text, wanted) in FAULTS {
        same_in(&rt, text, &fault(text), &Some(*wanted));
    }
}

#[test]
fn reads_an_action(rt: HostRuntime) {
    is_transmit(&rt, &action(&rt, " transmit  1 aAaA 5555 "));
}

/// The action puts up two words at subaddress 1.
fn is_transmit(rt: &impl Abort, action: &Action) {
    match action {
        Action::Transmit(put) => {
            same_in(rt, "subaddress", &put.sub(), &1);
            are_in(rt, "words", put.words(), &[0xaaaa, 0x5555]);
        }
        _ => panic!(rt; "another action"),
    }
}

/// Texts of actions as they are printed.
const PRINTED: &[&str] = &[
    "transmit 1 AAAA 5555",
    "busy on",
    "service off",
    "vector 00FF",
    "illegal receive 3 4",
    "legal transmit 30 32",
    "response 120",
    "deaf A on",
    "deaf B off",
    "mute A off",
    "mute B on",
    "illegal mode transmit 1",
    "legal mode receive 31",
    "broadcast off",
    "power on",
    "bit 0F0F",
    "service once",
    "gap 21",
    "gap 255",
    "ramp 29 32 0100 FFFF",
];

/// The action that a text spells is printed as that text.
fn is_printed_alike(rt: &impl Abort, alloc: Global, text: &str) {
    prints(rt, alloc, &action(rt, text), text);
}

#[test]
fn prints_what_it_reads(rt: HostRuntime) {
    for text in PRINTED {
        is_printed_alike(&rt, rt.alloc(), text);
    }
}
