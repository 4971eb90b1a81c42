//! The commands for people who look, where no transcript can show what they do: `bench_judge`, `bench_complete`,
//! `bench_cut`, `bench_names`, `bench_select` and `signal_dictionary`.

mod completions;
mod cuttings;
pub(crate) mod equal;
pub(crate) mod made;
mod names;
mod selections;
mod signals;
mod verdicts;
