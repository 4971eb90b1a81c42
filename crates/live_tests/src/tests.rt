//! Tests of live recordings.
mod paces;
mod shows;
