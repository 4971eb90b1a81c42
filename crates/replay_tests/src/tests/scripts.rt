//! Moves over a recording, row by row.
use super::recordings::Recorded;
use bc_machine::Machine;
use ch11_reader::Index;
use frame_text::read_cond;
use frame_tree::Cond;
use replay::{Replay, ReplayError};
use std::alloc::Global;
use std::fmt::Debug;
use std::process::Abort;

/// A move, or some of one kind.
#[derive(Clone, Copy, Debug)]
pub(crate) enum Move {
    Go(u64),
    Forward,
    Back,
    Find(&'static str),
    FindBack(&'static str),

    /// To each place in turn, from the first to this one.
    ThroughTo(u64),
}

/// Number, status and last command of terminal 5.
pub(crate) type Shown = (u32, u16, u16);

/// A move, its answer, the place behind it, and, where they are compared, the state there and how many messages were
/// played.
pub(crate) type Row = (
    Move,
    Result<(), ReplayError>,
    u64,
    Option<Shown>,
    Option<u64>,
);

/// The two are equal; a failure names the row.
fn same_at<T: PartialEq + Debug>(
    rt: &impl Abort,
    number: usize,
    step: Move,
    found: &T,
    wanted: &T,
) {
    assert_eq!(rt; *found, *wanted, "row {number}, {step:?}");
}

/// The two are equal.
pub(crate) fn same<T: PartialEq + Debug>(rt: &impl Abort, found: &T, wanted: &T) {
    assert_eq!(rt; *found, *wanted);
}

fn shown(machine: &Machine) -> Option<Shown> {
    let terminal = machine.bus().terminal(5)?;
    Some((machine.number(), terminal.status(), terminal.last_command()))
}

/// The state of the only job; none where there is no job.
fn seen(replay: &Replay<'_>) -> Option<Shown> {
    if replay.jobs() == 0 {
        return None;
    }
    shown(replay.state(0))
}

/// The same, and the clock of the bus.
pub(crate) fn seen_at(replay: &Replay<'_>) -> Option<(Shown, u64)> {
    if replay.jobs() == 0 {
        return None;
    }
    let machine = replay.state(0);
    Some((shown(machine)?, machine.bus().clock()))
}

/// A condition, which is given by its text.
fn condition(rt: &impl Abort, alloc: Global, text: &str) -> Cond<Global> {
    let condition = read_cond(alloc, text.as_bytes());
    condition.ok().expect(rt, "a condition")
}

/// The answer to the moves to each place up to this one: of the last, or of the first that is refused.
fn through_to(replay: &mut Replay<'_>, last: u64) -> Result<(), ReplayError> {
    for place in 1..=last {
        replay.go(place)?;
    }
    Ok(())
}

/// The answer to a move.
fn answer(
    rt: &impl Abort,
    alloc: Global,
    replay: &mut Replay<'_>,
    step: Move,
) -> Result<(), ReplayError> {
    match step {
        Move::Go(place) => replay.go(place),
        Move::Forward => replay.forward(),
        Move::Back => replay.back(),
        Move::Find(text) => replay.find(&condition(rt, alloc, text)),
        Move::FindBack(text) => replay.find_back(&condition(rt, alloc, text)),
        Move::ThroughTo(last) => through_to(replay, last),
    }
}

/// A recording stands as a row says, and has played so many messages.
fn stands(rt: &impl Abort, replay: &Replay<'_>, number: usize, row: &Row) {
    let (step, _, place, state, played) = *row;
    same_at(rt, number, step, &replay.place(), &place);
    if state.is_some() {
        same_at(rt, number, step, &seen(replay), &state);
    }
    if played.is_some() {
        same_at(rt, number, step, &Some(replay.replayed()), &played);
    }
}

/// The moves of the rows, one after the other, come to what the rows say.
pub(crate) fn moves(rt: &impl Abort, alloc: Global, replay: &mut Replay<'_>, rows: &[Row]) {
    for (number, row) in rows.iter().enumerate() {
        let given = answer(rt, alloc, replay, row.0);
        same_at(rt, number, row.0, &given, &row.1);
        stands(rt, replay, number, row);
    }
}

/// A recording newly opened.
pub(crate) fn opened<'a>(
    rt: &impl Abort,
    alloc: Global,
    one: &Recorded,
    file: &'a [u8],
) -> Replay<'a> {
    let index = Index::build(alloc, file).ok().expect(rt, "an index");
    let replay = Replay::open(alloc, &one.jobs, &one.report, index);
    replay.ok().expect(rt, "accord")
}
