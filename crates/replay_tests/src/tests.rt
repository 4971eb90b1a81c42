//! Worked recordings under the debugger.
mod checkpoints;
mod moves;
mod recordings;
mod refusals;
mod scripts;
