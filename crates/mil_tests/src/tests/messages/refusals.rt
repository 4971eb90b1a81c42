//! Drafts that are refused, each with the first of its faults.
use super::mode;
use mil_message::Draft::{
    Between, BetweenAll, FromTerminal, Mode, ModeAll, ModeFrom, ModeTo, ToAll, ToTerminal,
};
use mil_message::ModeSubaddress::ThirtyOne;
use mil_message::{BadMessage, Draft, Message, ModeSubaddress};
use std::process::Abort;

const SUBADDRESS: ModeSubaddress = ThirtyOne;

/// Addresses over 30.
const ADDRESSES: &[Draft<'static>] = &[
    ToTerminal {
        address: 31,
        subaddress: 0,
        words: &[],
    },
    FromTerminal {
        address: 31,
        subaddress: 0,
        count: 0,
    },
    Between {
        sender: 31,
        sender_subaddress: 0,
        receiver: 31,
        receiver_subaddress: 0,
        count: 0,
    },
    Between {
        sender: 1,
        sender_subaddress: 0,
        receiver: 31,
        receiver_subaddress: 0,
        count: 0,
    },
    Mode {
        address: 31,
        subaddress: SUBADDRESS,
        code: 16,
        words: Some(&[]),
    },
    ModeFrom {
        address: 31,
        subaddress: SUBADDRESS,
        code: 0,
        words: Some(&[]),
    },
    ModeTo {
        address: 31,
        subaddress: SUBADDRESS,
        code: 0,
        words: None,
    },
    BetweenAll {
        sender: 31,
        sender_subaddress: 0,
        receiver_subaddress: 0,
        count: 0,
    },
];

/// Subaddresses outside 1 to 30.
const SUBADDRESSES: &[Draft<'static>] = &[
    ToTerminal {
        address: 5,
        subaddress: 0,
        words: &[],
    },
    ToTerminal {
        address: 5,
        subaddress: 31,
        words: &[],
    },
    FromTerminal {
        address: 5,
        subaddress: 31,
        count: 0,
    },
    Between {
        sender: 5,
        sender_subaddress: 1,
        receiver: 5,
        receiver_subaddress: 0,
        count: 0,
    },
    ToAll {
        subaddress: 31,
        words: &[],
    },
    BetweenAll {
        sender: 5,
        sender_subaddress: 1,
        receiver_subaddress: 31,
        count: 0,
    },
];

/// Counts outside 1 to 32, and then codes that have no such form.
const COUNTS_AND_CODES: &[Draft<'static>] = &[
    ToTerminal {
        address: 5,
        subaddress: 1,
        words: &[],
    },
    ToTerminal {
        address: 5,
        subaddress: 1,
        words: &[0; 33],
    },
    FromTerminal {
        address: 5,
        subaddress: 1,
        count: 33,
    },
    Between {
        sender: 5,
        sender_subaddress: 1,
        receiver: 5,
        receiver_subaddress: 2,
        count: 0,
    },
    ToAll {
        subaddress: 1,
        words: &[],
    },
    BetweenAll {
        sender: 5,
        sender_subaddress: 1,
        receiver_subaddress: 1,
        count: 33,
    },
    Mode {
        address: 5,
        subaddress: SUBADDRESS,
        code: 16,
        words: None,
    },
    ModeFrom {
        address: 5,
        subaddress: SUBADDRESS,
        code: 17,
        words: None,
    },
    ModeTo {
        address: 5,
        subaddress: SUBADDRESS,
        code: 18,
        words: Some(&[0]),
    },
    ModeAll {
        subaddress: SUBADDRESS,
        code: 16,
        words: None,
    },
];

/// A terminal that sends to itself.
const TO_ITSELF: &[Draft<'static>] = &[Between {
    sender: 5,
    sender_subaddress: 1,
    receiver: 5,
    receiver_subaddress: 2,
    count: 1,
}];

/// Drafts of numbers out of range, and the fault of each.
const OUT_OF_RANGE: &[(BadMessage, &[Draft<'static>])] = &[
    (BadMessage::Address, ADDRESSES),
    (BadMessage::Subaddress, SUBADDRESSES),
    (BadMessage::CountOrCode, COUNTS_AND_CODES),
    (BadMessage::SameEnds, TO_ITSELF),
];

/// Mode commands to terminal 5, or to all: the code, what is written, and the fault.
const MODES: &[(
    Option<ModeSubaddress>,
    u32,
    Option<&'static [u16]>,
    BadMessage,
)] = &[
    (Some(ThirtyOne), 32, None, BadMessage::CountOrCode),
    (None, 16, None, BadMessage::CountOrCode),
    (Some(ThirtyOne), 20, None, BadMessage::ModeWord),
    (Some(ThirtyOne), 22, Some(&[]), BadMessage::ModeWord),
    (Some(ThirtyOne), 20, Some(&[1, 2]), BadMessage::ModeWord),
    (Some(ThirtyOne), 2, Some(&[1]), BadMessage::ModeWord),
    (Some(ThirtyOne), 16, Some(&[1]), BadMessage::ModeWord),
    (None, 1, Some(&[1]), BadMessage::ModeWord),
    (None, 17, None, BadMessage::ModeWord),
];

#[test]
fn refused_drafts(rt: HostRuntime) {
    for (fault, drafts) in OUT_OF_RANGE {
        are_refused(&rt, drafts, *fault);
    }
    mode_commands_are_refused(&rt);
}

/// The drafts are refused with this fault.
fn are_refused(rt: &impl Abort, drafts: &[Draft<'static>], fault: BadMessage) {
    for draft in drafts {
        is_refused(rt, *draft, fault);
    }
}

/// The mode commands are refused with their faults.
fn mode_commands_are_refused(rt: &impl Abort) {
    for (to, code, written, fault) in MODES {
        is_refused(rt, mode(*to, *code, *written), *fault);
    }
}

/// A draft is refused with this fault.
fn is_refused(rt: &impl Abort, draft: Draft<'static>, fault: BadMessage) {
    let found = Message::check(draft).err();
    assert!(rt; found == Some(fault), "{draft:?}");
}
