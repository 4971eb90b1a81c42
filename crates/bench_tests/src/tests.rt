//! Worked steps, recordings and reports of the bench.
mod channels;
mod equal;
mod posts;
mod reports;
mod scripts;
mod worlds;
