//! Steps that post actions of hosts: where these act, what a report says of them, and what is refused.
use crate::tests::scripts::Found::{Messages, Stamp, Words};
use crate::tests::scripts::Then::{Holds, Leaves, Plays, Reports};
use crate::tests::scripts::{Found, MadeOf, Script, are_played};
use bench_core::PlayError;

/// Three mode commands, to which terminal 5 answers with its status word.
const THREE: &str = "channel 1\nterminal 5\nscript\nrepeat 3 { send A mode 5 1 }\n";

/// The same, where the job itself has the terminal's fault cleared before the second.
const WITH_OWN: &str =
    "channel 1\nterminal 5\nat 2 5 fault off\nscript\nrepeat 3 { send A mode 5 1 }\n";

const NONE_PLACED: &str = "channel 1\nmade 3\npackets 1\n";

const ONE_PLACED: &str = "channel 1\nmade 3\nplaced 2 5 fault on\npackets 1\n";

const OWN_FIRST: &str = "channel 1\nmade 3\nplaced 2 5 fault off\nplaced 2 5 fault on\npackets 1\n";

/// A world of the three with a queue of four items, in which four posts are taken.
const FOUR_POSTS: MadeOf = MadeOf {
    jobs: &[THREE],
    limit: 4096,
    queue: 4,
    posts: 4,
    prologue: 0,
};

/// The same where one post is taken, and where none is.
const ONE_POST: MadeOf = MadeOf {
    posts: 1,
    ..FOUR_POSTS
};

const NO_POST: MadeOf = MadeOf {
    posts: 0,
    ..FOUR_POSTS
};

/// The words of a message to which the terminal answers without its flag, and with it.
const WITHOUT_FLAG: &[u8] = &[0xE1, 0x2F, 0, 0x28];

const WITH_FLAG: &[u8] = &[0xE1, 0x2F, 1, 0x28];

/// Three messages, of which the terminal answers the second and the third with its flag.
const FLAG_FROM_SECOND: &[Found] = &[
    Messages(3),
    Stamp(1, 0),
    Words(1, WITHOUT_FLAG),
    Stamp(2, 480),
    Words(2, WITH_FLAG),
    Stamp(3, 960),
    Words(3, WITH_FLAG),
];

/// The words of a message that was inserted, to which the terminal answers.
const INSERTED: &[u8] = &[0xE2, 0x2F, 0, 0x28];

/// Four messages, of which the second was inserted.
const SECOND_INSERTED: &[Found] = &[
    Messages(4),
    Stamp(1, 0),
    Words(1, WITHOUT_FLAG),
    Stamp(2, 480),
    Words(2, INSERTED),
    Stamp(3, 960),
    Words(3, WITHOUT_FLAG),
    Words(4, WITHOUT_FLAG),
];

/// Four messages, of which the last was inserted.
const LAST_INSERTED: &[Found] = &[
    Messages(4),
    Words(3, WITHOUT_FLAG),
    Stamp(4, 1440),
    Words(4, INSERTED),
];

const SCRIPTS: &[Script] = &[
    Script {
        name: "a post has a message inserted in front of the script's second",
        made_of: FOUR_POSTS,
        steps: &[
            Plays("0i000TTTT0T", Ok(())),
            Leaves(
                100,
                SECOND_INSERTED,
                "channel 1\nmade 4\nplaced 2 bc insert B mode 5 2\npackets 1\n",
            ),
        ],
    },
    Script {
        name: "a post has a message inserted behind the script's last",
        made_of: FOUR_POSTS,
        steps: &[
            Plays("000i0TTTT0T", Ok(())),
            Leaves(
                100,
                LAST_INSERTED,
                "channel 1\nmade 4\nplaced 4 bc insert B mode 5 2\npackets 1\n",
            ),
        ],
    },
    Script {
        name: "a channel makes no message behind its end mark",
        made_of: FOUR_POSTS,
        steps: &[
            Plays("0000i0TTTT0", Ok(())),
            Holds(84, 0),
            Reports(NONE_PLACED),
        ],
    },
    Script {
        name: "a post between the first message and the second acts at the second",
        made_of: FOUR_POSTS,
        steps: &[
            Plays("05000TTTT", Ok(())),
            Leaves(84, FLAG_FROM_SECOND, ONE_PLACED),
        ],
    },
    Script {
        name: "a post acts behind what is placed there",
        made_of: MadeOf {
            jobs: &[WITH_OWN],
            ..FOUR_POSTS
        },
        steps: &[
            Plays("05000TTTT", Ok(())),
            Leaves(84, FLAG_FROM_SECOND, OWN_FIRST),
        ],
    },
    Script {
        name: "a post behind the last message acts nowhere",
        made_of: FOUR_POSTS,
        steps: &[
            Plays("00050TTTT", Ok(())),
            Holds(84, 0),
            Reports(NONE_PLACED),
        ],
    },
    Script {
        name: "no terminal and too many posts",
        made_of: ONE_POST,
        steps: &[
            Plays("06-", Err(PlayError::Index)),
            Plays("0556", Err(PlayError::NoTerminal)),
            Plays("055", Err(PlayError::Posts)),
            Reports("channel 1\nmade 0\npackets 0\n"),
            Plays("05", Ok(())),
            Plays("05", Err(PlayError::Posts)),
            Plays("000TTTT", Ok(())),
            Leaves(84, FLAG_FROM_SECOND, ONE_PLACED),
        ],
    },
    Script {
        name: "no posts are allowed",
        made_of: NO_POST,
        steps: &[
            Plays("6", Err(PlayError::NoTerminal)),
            Plays("5", Err(PlayError::Posts)),
            Plays("0000TTTT", Ok(())),
            Reports(NONE_PLACED),
        ],
    },
];

#[test]
fn scripts(rt: HostRuntime) {
    are_played(&rt, rt.alloc(), SCRIPTS);
}
