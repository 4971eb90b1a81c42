//! The laws that join a run and the debugger (the headline of `docs/proved.md`): what a finished run recorded, of the
//! jobs alone or with the posts of hosts, is what the debugger plays again.
//!
//! It may know: gaps and planned faults, moments, the controller, jobs, headers, bodies, the builder, the reader,
//! recordings, reports, what runs share, mailboxes, runs, the debugger. It has no tests: it is laws alone. It has no
//! wrong bodies.
#![tactic(auto)]

ghost use Rattle.bench_headline.specs.Headline.{RunIsReplayed, LiveRunIsReplayed};

use ch11_builder::packet_is_read_again;
use ch11_reader::recordings_join;
use ch11_recording::recording_goes_on;
use replay::placed_actions_suffice;

/// Law: the debugger accepts the recording of every finished run, with the jobs and the report of that run. So at
/// message n it shows the state after n messages. Conditions: the jobs and settings may be run, and the file is that of
/// a finished run, both of which `bench_run::run` promises where it ends well.
pub fn run_is_replayed()
    ensures { RunIsReplayed }
{
    packet_is_read_again();
    recordings_join();
    recording_goes_on();
    placed_actions_suffice();
}

/// Law: the debugger accepts the recording of every finished live run, with the jobs as they were given to it and the
/// report of that run, which has the posts that were placed and what lines say by time and by command, at the numbers
/// at which it was done. So at message n it shows the state after n messages. Faults that lines plan by time or by
/// command are those that were planned in the run; all others are the jobs' own. Conditions: the jobs and settings may
/// be run, the jobs of the file are these with the posts that were placed, and the file is that of a finished run of
/// them, all of which `bench_run::run_live` promises where it ends well.
pub fn live_run_is_replayed()
    ensures { LiveRunIsReplayed }
{
    packet_is_read_again();
    recordings_join();
    recording_goes_on();
    placed_actions_suffice();
}
