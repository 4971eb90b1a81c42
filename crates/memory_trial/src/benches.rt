//! Calls on the bench one step at a time.
use crate::told::Told;
use crate::worked::{FIVE, ONE, jobs_of, settings_of};
use bench_core::{PlayError, Step, World};
use bench_settings::WorldError;
use std::alloc::Global;

/// The steps of a queue of one item between a channel of five messages and one of one; a take is None.
const STEPS: [Option<u8>; 14] = [
    Some(1),
    None,
    Some(1),
    None,
    Some(0),
    None,
    Some(0),
    Some(0),
    Some(0),
    None,
    Some(0),
    None,
    Some(0),
    None,
];

/// How many bytes the file has behind these steps.
const WHOLE: usize = 136;

/// What two channels and a queue of one item make; None where memory is refused before.
fn made_of_two(alloc: Global) -> Option<Result<World, WorldError>> {
    let jobs = jobs_of(alloc, &[FIVE, ONE])?;
    Some(World::make(alloc, &jobs, &settings_of(alloc, 1)))
}

/// A world of two channels; None where memory is refused.
fn world(alloc: Global) -> Option<World> {
    made_of_two(alloc)?.ok()
}

/// The steps; None where memory is refused.
fn steps(alloc: Global) -> Option<Vec<Step>> {
    let mut steps = Vec::new(alloc);
    for step in STEPS {
        let next = match step {
            Some(index) => Step::Offer(index),
            None => Step::Take,
        };
        steps.push(next).ok()?;
    }
    Some(steps)
}

/// `World::make` of two jobs.
pub(crate) fn made(alloc: Global) -> Told {
    match made_of_two(alloc) {
        None => Told::Early,
        Some(Ok(_)) => Told::Well,
        Some(Err(WorldError::Memory)) => Told::Refused,
        Some(Err(_)) => Told::Wrong,
    }
}

/// Plays steps; where one is refused memory, those before it stand, so that it and those behind it lead to the same
/// file.
fn play(world: &mut World, steps: &[Step]) -> Told {
    match world.play(steps) {
        Ok(()) => Told::well(world.file().len() == WHOLE),
        Err(PlayError::Memory { done }) => {
            let rest = steps.get(done..).unwrap_or(&[]);
            let on = world.play(rest).is_ok();
            Told::refused(on && world.file().len() == WHOLE)
        }
        Err(_) => Told::Wrong,
    }
}

/// Plays the steps in a world.
fn play_all(alloc: Global, world: &mut World) -> Told {
    match steps(alloc) {
        Some(steps) => play(world, &steps),
        None => Told::Early,
    }
}

/// Whether all steps are done in a world.
fn is_played(alloc: Global, world: &mut World) -> bool {
    match steps(alloc) {
        Some(steps) => world.play(&steps).is_ok(),
        None => false,
    }
}

/// The report of a world in which the steps are done.
fn report(alloc: Global, world: &mut World) -> Told {
    if is_played(alloc, world) {
        Told::of(world.report(alloc).is_ok())
    } else {
        Told::Early
    }
}

/// Two jobs played to their end, one step at a time.
pub(crate) fn played(alloc: Global) -> Told {
    match world(alloc) {
        Some(mut world) => play_all(alloc, &mut world),
        None => Told::Early,
    }
}

/// `World::report` of what was played.
pub(crate) fn reported(alloc: Global) -> Told {
    match world(alloc) {
        Some(mut world) => report(alloc, &mut world),
        None => Told::Early,
    }
}
