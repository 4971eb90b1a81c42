//! A gate that holds threads until others have come to a place, by rules. Each wait has a limit, so that every test
//! ends.
use bench_run::Gate;
use std::sync::atomic::{AtomicU32, Ordering};
use std::thread;

/// How often a thread looks for what it waits for, before it goes on all the same.
const TURNS: u32 = 10_000_000;

/// Whether a number comes to one that is wanted, or is above it, within the turns.
fn comes_to(number: &AtomicU32, wanted: u32) -> bool {
    for _ in 0..TURNS {
        if number.load(Ordering::SeqCst) >= wanted {
            return true;
        }
        thread::yield_now();
    }
    false
}

/// Where a thread passes the gate.
#[derive(Clone, Copy, PartialEq, Eq)]
enum Place {
    /// Before the steps that may make a message.
    Before,
    /// Behind an offer.
    Offered,
    /// Behind an offer of what the queue kept.
    Kept,
    /// Behind an item that the writer took.
    Taken,
}

/// What a gate counts: channels that came to a message, items that were offered, items that were taken, end marks that
/// were taken, and actions that hosts posted.
enum Counter {
    Came,
    Offered,
    Taken,
    Ended,
    Posted,
}

/// What a gate does where a thread passes it.
enum Does {
    /// Counts one more.
    Count(Counter),
    /// Waits until so many were counted.
    Wait(Counter, u32),
    /// Waits before a message, of a number up to this, until as many items were taken as there are messages before it
    /// in the order 1 of channel 1, 1 of channel 2, 2 of channel 1, ..
    WaitInTurn(u32),
}

/// Where, for which channel, and for an item of which number, 0 for an end mark, a gate does something. None is each
/// channel, and each item.
type Rule = (Place, Option<u32>, Option<u32>, Does);

/// Channel 1 waits before message 1 until the end mark of channel 2 was taken, before 2 until 1 was taken, and before 5
/// until 2 was taken; the writer waits after taking message 1 of channel 1 until 4 was offered.
const HELD_WRITER: &[Rule] = &[
    (
        Place::Before,
        Some(1),
        Some(1),
        Does::Wait(Counter::Ended, 1),
    ),
    (
        Place::Before,
        Some(1),
        Some(2),
        Does::Wait(Counter::Taken, 1),
    ),
    (
        Place::Before,
        Some(1),
        Some(5),
        Does::Wait(Counter::Taken, 2),
    ),
    (
        Place::Offered,
        Some(1),
        Some(4),
        Does::Count(Counter::Offered),
    ),
    (Place::Taken, Some(2), Some(0), Does::Count(Counter::Ended)),
    (Place::Taken, Some(1), Some(1), Does::Count(Counter::Taken)),
    (
        Place::Taken,
        Some(1),
        Some(1),
        Does::Wait(Counter::Offered, 1),
    ),
    (Place::Taken, Some(1), Some(2), Does::Count(Counter::Taken)),
];

/// Two channels of ten messages take turns: each message waits until all before it were taken, and the last of channel
/// 2 also until the end mark of channel 1 was.
const IN_TURN: &[Rule] = &[
    (Place::Before, None, None, Does::WaitInTurn(10)),
    (
        Place::Before,
        Some(2),
        Some(10),
        Does::Wait(Counter::Ended, 1),
    ),
    (Place::Taken, None, None, Does::Count(Counter::Taken)),
    (Place::Taken, Some(1), Some(0), Does::Count(Counter::Ended)),
];

/// The first messages of two channels meet: before its own, each channel waits until both have come to that place.
const MEETING: &[Rule] = &[
    (Place::Before, None, Some(1), Does::Count(Counter::Came)),
    (Place::Before, None, Some(1), Does::Wait(Counter::Came, 2)),
];

/// Channel 1 goes first: each message of channel 2 waits until its end mark was taken.
const ONE_FIRST: &[Rule] = &[
    (Place::Before, Some(2), None, Does::Wait(Counter::Ended, 1)),
    (Place::Taken, Some(1), Some(0), Does::Count(Counter::Ended)),
];

/// Channel 2 goes first: each message of channel 1 waits until its end mark was taken.
const TWO_FIRST: &[Rule] = &[
    (Place::Before, Some(1), None, Does::Wait(Counter::Ended, 1)),
    (Place::Taken, Some(2), Some(0), Does::Count(Counter::Ended)),
];

/// The writer waits after its first item until two channels have offered their tenth message.
const UNTIL_THE_TENTH: &[Rule] = &[
    (
        Place::Offered,
        None,
        Some(10),
        Does::Count(Counter::Offered),
    ),
    (Place::Taken, None, None, Does::Wait(Counter::Offered, 2)),
];

/// The writer waits after its first item until the queue, which has room for all that two channels send, has kept the
/// end marks of both.
const UNTIL_THE_END_MARKS: &[Rule] = &[
    (Place::Kept, None, Some(0), Does::Count(Counter::Offered)),
    (Place::Taken, None, None, Does::Wait(Counter::Offered, 2)),
];

/// Before message 2 channels wait until a host has posted an action.
const UNTIL_A_POST: &[Rule] = &[
    (Place::Before, None, Some(2), Does::Count(Counter::Came)),
    (Place::Before, None, Some(2), Does::Wait(Counter::Posted, 1)),
];

/// Before message 2 channels wait until a host has posted three actions.
const UNTIL_THREE_POSTS: &[Rule] = &[
    (Place::Before, None, Some(2), Does::Count(Counter::Came)),
    (Place::Before, None, Some(2), Does::Wait(Counter::Posted, 3)),
];

/// Each channel waits before message 3 until the hosts have posted one word more than a host posts to a channel. Each
/// host begins with channel 1, so that channel has as many posts as one host's by then.
const UNTIL_FOUR_POSTS: &[Rule] = &[
    (Place::Before, None, Some(3), Does::Count(Counter::Came)),
    (Place::Before, None, Some(3), Does::Wait(Counter::Posted, 4)),
];

/// Message 50 waits until 21 words were posted, so that one of each host's is among them.
const UNTIL_TWENTY_ONE_POSTS: &[Rule] = &[
    (Place::Before, None, Some(50), Does::Count(Counter::Came)),
    (
        Place::Before,
        None,
        Some(50),
        Does::Wait(Counter::Posted, 21),
    ),
];

/// The rules of a gate, each of which says what is held.
#[derive(Clone, Copy)]
pub(super) enum Rules {
    HeldWriter,
    InTurn,
    Meeting,
    OneFirst,
    TwoFirst,
    UntilTheTenth,
    UntilTheEndMarks,
    UntilAPost,
    UntilThreePosts,
    UntilFourPosts,
    UntilTwentyOnePosts,
}

impl Rules {
    /// Each rule, in their order.
    fn list(self) -> &'static [Rule] {
        match self {
            Rules::HeldWriter => HELD_WRITER,
            Rules::InTurn => IN_TURN,
            Rules::Meeting => MEETING,
            Rules::OneFirst => ONE_FIRST,
            Rules::TwoFirst => TWO_FIRST,
            Rules::UntilTheTenth => UNTIL_THE_TENTH,
            Rules::UntilTheEndMarks => UNTIL_THE_END_MARKS,
            Rules::UntilAPost => UNTIL_A_POST,
            Rules::UntilThreePosts => UNTIL_THREE_POSTS,
            Rules::UntilFourPosts => UNTIL_FOUR_POSTS,
            Rules::UntilTwentyOnePosts => UNTIL_TWENTY_ONE_POSTS,
        }
    }
}

/// What a gate has counted: channels that came to a message, items that were offered, items that were taken, and end
/// marks that were taken.
pub(super) type Counts = (u32, u32, u32, u32);

/// A gate that does what rules say, in their order.
#[derive(Drop)]
pub(super) struct OrderingGate {
    rules: Rules,
    missed: AtomicU32,
    came: AtomicU32,
    offered: AtomicU32,
    taken: AtomicU32,
    ended: AtomicU32,
    posted: AtomicU32,
}

impl OrderingGate {
    /// The gate of these rules before anything has passed it.
    pub(super) fn by(rules: Rules) -> OrderingGate {
        OrderingGate {
            rules,
            missed: AtomicU32::new(0),
            came: AtomicU32::new(0),
            offered: AtomicU32::new(0),
            taken: AtomicU32::new(0),
            ended: AtomicU32::new(0),
            posted: AtomicU32::new(0),
        }
    }

    /// How many were counted of this kind.
    fn number_of(&self, counter: &Counter) -> &AtomicU32 {
        match counter {
            Counter::Came => &self.came,
            Counter::Offered => &self.offered,
            Counter::Taken => &self.taken,
            Counter::Ended => &self.ended,
            Counter::Posted => &self.posted,
        }
    }

    /// Waits until so many were counted, unless a wait has already been in vain.
    fn until(&self, counter: &Counter, wanted: u32) {
        if self.all_came() && !comes_to(self.number_of(counter), wanted) {
            self.missed.store(1, Ordering::SeqCst);
        }
    }

    /// Does what a rule says, for a channel and the number of an item.
    fn obey(&self, does: &Does, channel: u16, number: u32) {
        match does {
            Does::Count(counter) => {
                self.number_of(counter).fetch_add(1, Ordering::SeqCst);
            }
            Does::Wait(counter, wanted) => self.until(counter, *wanted),
            Does::WaitInTurn(last) => {
                if number <= *last {
                    self.until(&Counter::Taken, before_in_turn(channel, number));
                }
            }
        }
    }

    /// Does what the rules of a place say, for a channel and the number of an item.
    fn pass(&self, place: Place, channel: u16, number: u32) {
        for (at, of, item, does) in self.rules.list() {
            if *at == place && says(*of, u32::from(channel)) && says(*item, number) {
                self.obey(does, channel, number);
            }
        }
    }

    /// Whether all that was waited for came within the turns.
    pub(super) fn all_came(&self) -> bool {
        self.missed.load(Ordering::SeqCst) == 0
    }

    /// What was counted.
    pub(super) fn counts(&self) -> Counts {
        (
            self.came.load(Ordering::SeqCst),
            self.offered.load(Ordering::SeqCst),
            self.taken.load(Ordering::SeqCst),
            self.ended.load(Ordering::SeqCst),
        )
    }

    /// Waits until a channel has come to the message before which it is held.
    pub(super) fn wait_for_hold(&self) {
        self.until(&Counter::Came, 1);
    }

    /// A host has posted an action.
    pub(super) fn tell_posted(&self) {
        self.posted.fetch_add(1, Ordering::SeqCst);
    }
}

/// Whether a rule speaks of this number: None speaks of each.
fn says(rule: Option<u32>, number: u32) -> bool {
    match rule {
        Some(wanted) => number == wanted,
        None => true,
    }
}

/// How many messages there are before one of channel 1 or 2, where these take turns.
fn before_in_turn(channel: u16, number: u32) -> u32 {
    let turns = number.saturating_mul(2);
    turns.saturating_add(u32::from(channel)).saturating_sub(3)
}

impl Gate for OrderingGate {
    fn before_message(&self, channel: u16, number: u32) {
        self.pass(Place::Before, channel, number);
    }

    fn after_offer(&self, channel: u16, number: u32, kept: bool) {
        self.pass(Place::Offered, channel, number);
        if kept {
            self.pass(Place::Kept, channel, number);
        }
    }

    fn after_take(&self, channel: u16, number: u32) {
        self.pass(Place::Taken, channel, number);
    }
}
