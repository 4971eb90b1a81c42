//! How many messages a move plays again, and that the states are those of a recording newly opened all the same.
use super::recordings::record_of;
use super::scripts::Move::{Forward, Go, ThroughTo};
use super::scripts::{Row, moves, opened, same, seen_at};
use replay::{Replay, ReplayError};
use std::alloc::Global;
use std::process::Abort;

const HUNDRED_MESSAGES: &str = "channel 1\nterminal 5\nterminal 6\nscript\n\
     repeat 25 { send A rx 5 1 [0001] send A mode 5 4 send B mode 5 2 send A rx 6 2 [0002 0003] }\n";

/// What each move plays.
const COUNTED: [Row; 6] = [
    (Go(100), Ok(()), 100, None, Some(36)),
    (Go(50), Ok(()), 50, None, Some(50)),
    (Go(101), Err(ReplayError::Past), 50, None, Some(50)),
    (Forward, Ok(()), 51, None, Some(1)),
    (Go(100), Ok(()), 100, None, Some(0)),
    (Go(64), Ok(()), 64, None, Some(0)),
];

/// The place of the first move is kept while no more than 32 others follow it.
const KEPT: [Row; 5] = [
    (Go(100), Ok(()), 100, None, Some(36)),
    (ThroughTo(31), Ok(()), 31, None, None),
    (Go(100), Ok(()), 100, None, Some(0)),
    (ThroughTo(33), Ok(()), 33, None, None),
    (Go(100), Ok(()), 100, None, Some(36)),
];

/// The moves of some rows over the hundred messages, of which none was played before.
fn hundred_moves(rt: &impl Abort, alloc: Global, rows: &[Row]) {
    let one = record_of(rt, alloc, HUNDRED_MESSAGES, &[1; 100]);
    let mut replay = opened(rt, alloc, &one, &one.file);
    same(rt, &replay.replayed(), &0);
    moves(rt, alloc, &mut replay, rows);
}

#[test]
fn counts_what_it_plays(rt: HostRuntime) {
    hundred_moves(&rt, rt.alloc(), &COUNTED);
}

#[test]
fn the_latest_places_are_kept(rt: HostRuntime) {
    hundred_moves(&rt, rt.alloc(), &KEPT);
}

/// Whether a recording stands where another one does that goes there at once.
fn stands_as(replay: &Replay<'_>, other: &mut Replay<'_>) -> bool {
    other.go(replay.place()).is_ok() && seen_at(replay) == seen_at(other)
}

/// Whether a step back plays at most 63 messages, and comes to the state of another recording that goes there.
fn is_short_step(replay: &mut Replay<'_>, other: &mut Replay<'_>) -> bool {
    replay.back().is_ok() && replay.replayed() <= 63 && stands_as(replay, other)
}

/// So many steps back are short ones.
fn steps_back(rt: &impl Abort, replay: &mut Replay<'_>, other: &mut Replay<'_>, steps: u64) {
    for _ in 0..steps {
        assert!(rt; is_short_step(replay, other));
    }
}

#[test]
fn seventy_back_play_few(rt: HostRuntime) {
    let one = record_of(&rt, rt.alloc(), HUNDRED_MESSAGES, &[1; 100]);
    let mut replay = opened(&rt, rt.alloc(), &one, &one.file);
    let mut other = opened(&rt, rt.alloc(), &one, &one.file);
    moves(&rt, rt.alloc(), &mut replay, &COUNTED[..1]);
    steps_back(&rt, &mut replay, &mut other, 70);
    same(&rt, &replay.place(), &30);
}

/// Whether a move ends where it leads, or, where memory is refused, leaves place and state as they were.
fn is_kept(replay: &mut Replay<'_>, other: &mut Replay<'_>, place: u64) -> bool {
    let before = (replay.place(), seen_at(replay));
    match replay.go(place) {
        Ok(()) => replay.place() == place && stands_as(replay, other),
        Err(ReplayError::Memory) => (replay.place(), seen_at(replay)) == before,
        Err(_) => false,
    }
}

/// The moves to these places, one after the other, are kept.
fn are_kept(rt: &impl Abort, replay: &mut Replay<'_>, other: &mut Replay<'_>, places: &[u64]) {
    for place in places {
        assert!(rt; is_kept(replay, other, *place), "to {place}");
    }
}

/// To be tried with each growth refused in turn, too.
#[test]
fn refused_memory_leaves_all(rt: HostRuntime) {
    let one = record_of(&rt, rt.alloc(), HUNDRED_MESSAGES, &[1; 100]);
    let mut replay = opened(&rt, rt.alloc(), &one, &one.file);
    let mut other = opened(&rt, rt.alloc(), &one, &one.file);
    let places = [100u64, 3, 64, 99, 98, 20, 21, 0];
    are_kept(&rt, &mut replay, &mut other, &places);
}
