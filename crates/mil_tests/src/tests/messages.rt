//! Messages as they stand on a bus, and each fault of each form.
use crate::tests::equal::{are_in, prints, same_in};
use arrayvec::ArrayVec;
use mil_message::Draft::{Between, BetweenAll, FromTerminal, ToAll, ToTerminal};
use mil_message::ModeSubaddress::{ThirtyOne, Zero};
use mil_message::{BadMessage, Draft, Due, Form, Message, ModeSubaddress};
use mil_word::{Sync, Wave, Word, encode};
use std::process::Abort;

mod refusals;

/// A message as it stands on a bus.
#[derive(Clone, Copy)]
struct Row {
    draft: Draft<'static>,
    /// The controller's words are these commands and these data words.
    commands: &'static [u16],
    words: &'static [u16],
    /// The replies due.
    due: &'static [Due],
}

const DATA: &[Row] = &[
    Row {
        draft: ToTerminal {
            address: 5,
            subaddress: 1,
            words: &[1, 2, 3],
        },
        commands: &[0x2823],
        words: &[1, 2, 3],
        due: &[Due {
            address: 5,
            words: 0,
        }],
    },
    Row {
        draft: FromTerminal {
            address: 5,
            subaddress: 2,
            count: 32,
        },
        commands: &[0x2c40],
        words: &[],
        due: &[Due {
            address: 5,
            words: 32,
        }],
    },
    Row {
        draft: Between {
            sender: 7,
            sender_subaddress: 1,
            receiver: 3,
            receiver_subaddress: 4,
            count: 2,
        },
        commands: &[0x1882, 0x3c22],
        words: &[],
        due: &[
            Due {
                address: 7,
                words: 2,
            },
            Due {
                address: 3,
                words: 0,
            },
        ],
    },
    Row {
        draft: ToAll {
            subaddress: 1,
            words: &[0x00aa],
        },
        commands: &[0xf821],
        words: &[0x00aa],
        due: &[],
    },
    Row {
        draft: BetweenAll {
            sender: 7,
            sender_subaddress: 1,
            receiver_subaddress: 4,
            count: 2,
        },
        commands: &[0xf882, 0x3c22],
        words: &[],
        due: &[Due {
            address: 7,
            words: 2,
        }],
    },
];

/// A mode command as it stands on a bus: to terminal 5 with a subaddress, or to all.
#[derive(Clone, Copy)]
struct ModeRow {
    to: Option<ModeSubaddress>,
    code: u32,
    written: Option<&'static [u16]>,
    command: u16,
    words: &'static [u16],
    due: &'static [Due],
}

const STATUS: &[Due] = &[Due {
    address: 5,
    words: 0,
}];

const STATUS_AND_WORD: &[Due] = &[Due {
    address: 5,
    words: 1,
}];

const MODES: &[ModeRow] = &[
    ModeRow {
        to: Some(ThirtyOne),
        code: 2,
        written: None,
        command: 0x2fe2,
        words: &[],
        due: STATUS,
    },
    ModeRow {
        to: Some(ThirtyOne),
        code: 18,
        written: None,
        command: 0x2ff2,
        words: &[],
        due: STATUS_AND_WORD,
    },
    ModeRow {
        to: Some(ThirtyOne),
        code: 20,
        written: Some(&[0]),
        command: 0x2bf4,
        words: &[0],
        due: STATUS,
    },
    ModeRow {
        to: Some(ThirtyOne),
        code: 22,
        written: Some(&[0]),
        command: 0x2bf6,
        words: &[0],
        due: STATUS,
    },
    ModeRow {
        to: Some(ThirtyOne),
        code: 22,
        written: None,
        command: 0x2ff6,
        words: &[],
        due: STATUS_AND_WORD,
    },
    ModeRow {
        to: Some(Zero),
        code: 2,
        written: None,
        command: 0x2c02,
        words: &[],
        due: STATUS,
    },
    ModeRow {
        to: None,
        code: 1,
        written: None,
        command: 0xffe1,
        words: &[],
        due: &[],
    },
    ModeRow {
        to: None,
        code: 17,
        written: Some(&[7]),
        command: 0xfbf1,
        words: &[7],
        due: &[],
    },
];

#[test]
fn messages_of_data(rt: HostRuntime) {
    for row in DATA {
        stands(&rt, row.draft, row.commands, row.words, row.due);
    }
}

#[test]
fn mode_commands(rt: HostRuntime) {
    for row in MODES {
        let draft = mode(row.to, row.code, row.written);
        stands(&rt, draft, &[row.command], row.words, row.due);
    }
}

/// A mode command to terminal 5, or to all.
fn mode(to: Option<ModeSubaddress>, code: u32, written: Option<&'static [u16]>) -> Draft<'static> {
    match to {
        Some(subaddress) => Draft::mode_command(5, subaddress, code, written),
        None => Draft::mode_command_to_all(ThirtyOne, code, written),
    }
}

/// The message of a draft.
pub(super) fn message(rt: &impl Abort, draft: Draft<'_>) -> Message {
    Message::check(draft).expect(rt, "a draft in range")
}

/// The controller's words are these commands and these data words, and the replies due are these.
fn stands(rt: &impl Abort, draft: Draft<'_>, commands: &[u16], words: &[u16], due: &[Due]) {
    is_message(rt, &message(rt, draft), commands, words, due);
}

fn is_message(rt: &impl Abort, message: &Message, commands: &[u16], words: &[u16], due: &[Due]) {
    sends(rt, message, commands, words);
    are_in(rt, "data words", message.data_words(), words);
    are_in(rt, "replies", message.replies_due().as_slice(), due);
    is_its_draft(rt, message);
    is_its_parts(rt, message, words);
    has_values(rt, message, commands, words);
}

/// The controller's words are these commands and then these data words.
fn sends(rt: &impl Abort, message: &Message, commands: &[u16], words: &[u16]) {
    let mut sent: ArrayVec<Word, 34> = ArrayVec::new();
    for &value in commands {
        let _ = sent.try_push(word(Sync::CommandSync, value));
    }
    for &value in words {
        let _ = sent.try_push(word(Sync::DataSync, value));
    }
    same_in(
        rt,
        "count of words",
        &message.controller_count(),
        &sent.len(),
    );
    are_in(rt, "words", message.controller_words().as_slice(), &sent);
}

fn word(sync: Sync, value: u16) -> Word {
    Word { sync, value }
}

/// The message is what its draft is read as, and the same in the place of another.
fn is_its_draft(rt: &impl Abort, message: &Message) {
    let mut back = self::message(rt, message.draft());
    same_in(rt, "of its draft", &back, &message.copy());
    is_copied(rt, message, &mut back);
    is_copied(rt, message, &mut Message::default());
}

/// A message is the same in the place of another.
fn is_copied(rt: &impl Abort, message: &Message, other: &mut Message) {
    message.copy_into(other);
    same_in(rt, "copied", other, message);
}

/// The values of the controller's words are those of these commands and of these data words.
fn has_values(rt: &impl Abort, message: &Message, commands: &[u16], words: &[u16]) {
    let values = message.values();
    let (first, rest) = values.parts();
    are_in(rt, "values of commands", first, commands);
    are_in(rt, "values of data words", rest, words);
}

/// The message is made again of its parts.
fn is_its_parts(rt: &impl Abort, message: &Message, words: &[u16]) {
    let first = message.commands().first.value();
    let back = Message::of_parts(message.form_number(), first, second_of(message), words);
    same_in(rt, "of its parts", &back.expect(rt, "a message"), message);
}

/// The second command word of a message; 0 where there is none.
fn second_of(message: &Message) -> u16 {
    match message.commands().second {
        Some(command) => command.value(),
        None => 0,
    }
}

const ONE_WORD: Draft<'static> = ToTerminal {
    address: 5,
    subaddress: 1,
    words: &[0],
};

#[test]
fn waves(rt: HostRuntime) {
    let message = message(&rt, ONE_WORD);
    has_second_wave(&rt, &cloned(&rt, &message));
}

/// A clone of a message.
fn cloned(rt: &impl Abort, message: &Message) -> Message {
    message.clone().expect(rt, "a clone")
}

/// Of two waves the second is that of a data word of zeros.
fn has_second_wave(rt: &impl Abort, message: &Message) {
    let words = message.controller_words();
    let found = (words.len(), words.get(1).map(|word| encode(*word)));
    same_in(rt, "waves", &found, &(2, Some(Wave::of(0x1D_5555_5556))));
}

/// Where nothing else is asked, terminal 0 is asked for its status word.
#[test]
fn default(rt: HostRuntime) {
    let commands = Message::default().commands();
    same_in(&rt, "command", &commands.first.value(), &0x0402);
    same_in(&rt, "no second", &commands.second.is_none(), &true);
}

/// Parts of which no message is made: the number of the form, the commands and the words.
const NO_PARTS: &[(u8, u16, u16, &[u16])] = &[
    (0, 0x2823, 0, &[1, 2]),
    (0, 0x2823, 1, &[1, 2, 3]),
    (1, 0x2823, 0, &[]),
    (3, 0x2fe2, 0, &[1]),
    (10, 0x2823, 0, &[1, 2, 3]),
];

#[test]
fn parts_of_no_message(rt: HostRuntime) {
    for (form, first, second, words) in NO_PARTS {
        are_no_parts(&rt, *form, *first, *second, words);
    }
}

/// No message is made of these parts.
fn are_no_parts(rt: &impl Abort, form: u8, first: u16, second: u16, words: &[u16]) {
    let made = Message::of_parts(form, first, second, words).is_some();
    assert!(rt; !made, "form {form}, words {words:?}");
}

/// Faults, and how they are printed.
const PRINTED: &[(BadMessage, &str)] = &[
    (BadMessage::Address, "M1"),
    (BadMessage::Subaddress, "M2"),
    (BadMessage::CountOrCode, "M3"),
    (BadMessage::SameEnds, "M4"),
    (BadMessage::ModeWord, "M5"),
];

#[test]
fn printed_faults(rt: HostRuntime) {
    for (fault, text) in PRINTED {
        prints(&rt, rt.alloc(), fault, text);
    }
}

#[test]
fn form_of_a_message(rt: HostRuntime) {
    let from_terminal = Draft::FromTerminal {
        address: 5,
        subaddress: 2,
        count: 32,
    };
    has_form_from_5(&rt, &message(&rt, from_terminal));
}

/// The form is that of 32 words from subaddress 2 of terminal 5.
fn has_form_from_5(rt: &impl Abort, message: &Message) {
    let wanted = Form::FromTerminal {
        address: 5,
        subaddress: 2,
        count: 32,
    };
    same_in(rt, "form", message.form(), &wanted);
}
