//! Sessions of the debugger whose readers and writers fail, and one behind a post of a live run: `bench_step`.

mod made;
mod posted;
mod refusals;
mod streams;
