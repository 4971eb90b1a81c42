//! Live runs in which a host posts while message 2 is held: what is recorded, and what the report says.
ghost use Rattle.bench_mail.specs.Mail.{MayPost};

use crate::tests::equal::same_in;
use crate::tests::fixtures::{Bench, are_stamps, bench_of, index_of, is_printed};
use crate::tests::gates::{OrderingGate, Rules};
use crate::tests::hosts::{alone, is_accepted, lives_beside, taking};
use crate::tests::posting::of_terminal;
use bench_mail::{Mailbox, Poster};
use bench_report::Report;
use ch11_reader::Index;
use ch11_writer::MemorySink;
use job_file::Job;
use mil_host::Action;
use std::alloc::Global;
use std::process::Abort;
use std::sync::Wait;
use std::thread::Threads;

/// Three mode commands, to which terminal 5 answers with its status word.
const THREE: &str = "channel 1\nterminal 5\nscript\nrepeat 3 { send A mode 5 1 }\n";

/// The same, where the job itself has the terminal's fault cleared before the second.
const WITH_OWN: &str =
    "channel 1\nterminal 5\nat 2 5 fault off\nscript\nrepeat 3 { send A mode 5 1 }\n";

/// Host 0 waits until message 2 is held, posts a fault for terminal 5, and lets the message go.
fn post_fault<R: Wait + Abort>(rt: &R, gate: &OrderingGate, mailbox: &Mailbox, poster: Poster)
    requires { MayPost 0 mailbox.now poster }
{
    gate.wait_for_hold();
    let mut poster = poster;
    let answer = mailbox.post(rt, &mut poster, 0, of_terminal(5, Action::Fault(true)));
    assert!(rt; answer.is_ok());
    gate.tell_posted();
}

/// A live run of one job beside which a host posts: its report, and what was recorded.
fn run_held<R: Threads + Wait + Abort + Sync>(
    rt: &R,
    alloc: Global,
    bench: &Bench,
) -> (Report, MemorySink) {
    let job = bench.jobs.first().expect(rt, "a job");
    let made = Mailbox::make(alloc, job, 4);
    let (mailbox, poster, inbox) = made.ok().expect(rt, "a mailbox");
    let boxes = alone(rt, alloc, mailbox);
    let mailbox = boxes.first().expect(rt, "a mailbox");
    let inboxes = alone(rt, alloc, inbox);
    let gate = OrderingGate::by(Rules::UntilAPost);
    let held = &gate;
    let host = move ||
        requires { MayPost 0 mailbox.now poster }
    { post_fault(rt, held, mailbox, poster) };
    let (_, (report, _, sink)) = lives_beside(rt, alloc, bench, &boxes, inboxes, held, host);
    (report, sink)
}

/// Whether a message of a recording is a mode command to terminal 5, whose status word has this low byte.
fn has_status(index: &Index<'_>, number: u64, low: u8) -> bool {
    match index.message(number) {
        Some((_, seen)) => seen.words == [0xE1, 0x2F, low, 0x28].as_slice(),
        None => false,
    }
}

/// Whether a recording has the three messages, the second and third with this low byte of the status word.
fn has_three(index: &Index<'_>, low: u8) -> bool {
    are_stamps(index, 1, &[0, 480, 960])
        && has_status(index, 1, 0)
        && has_status(index, 2, low)
        && has_status(index, 3, low)
}

/// What a file has: its length in bytes, whether it has the three messages, the second and third with this low byte of
/// the status word, and whether the debugger accepts it under its report.
fn three_in(
    rt: &impl Abort,
    alloc: Global,
    jobs: &[Job],
    report: &Report,
    file: &[u8],
    low: u8,
) -> (usize, bool, bool) {
    let index = index_of(rt, alloc, file);
    let has_all = has_three(&index, low);
    (file.len(), has_all, is_accepted(alloc, jobs, report, index))
}

/// A name, the text of a job, how many posts a live run of it takes, the low byte of the second and third status words,
/// and the report.
type Row = (&'static str, &'static str, u32, u8, &'static str);

const ROWS: &[Row] = &[
    (
        "a post acts at the message that was held",
        THREE,
        4,
        1,
        "channel 1\nmade 3\nplaced 2 5 fault on\npackets 1\n",
    ),
    (
        "a post acts behind the job's own action",
        WITH_OWN,
        4,
        1,
        "channel 1\nmade 3\nplaced 2 5 fault off\nplaced 2 5 fault on\npackets 1\n",
    ),
    (
        "no posts are taken",
        THREE,
        0,
        0,
        "channel 1\nmade 3\npackets 1\n",
    ),
];

/// A live run of the job of a row is recorded so.
fn is_recorded<R: Threads + Wait + Abort + Sync>(rt: &R, alloc: Global, row: &Row) {
    let (name, text, posts, low, wanted) = row;
    let bench = taking(bench_of(rt, alloc, &[*text], 4096), *posts);
    let (report, sink) = run_held(rt, alloc, &bench);
    is_printed(rt, alloc, &report, wanted);
    let found = three_in(rt, alloc, &bench.jobs, &report, sink.bytes(), *low);
    same_in(rt, name, &found, &(84, true, true));
}

#[test]
fn a_host_posts_while_a_message_is_held(rt: HostRuntime) {
    for row in ROWS {
        is_recorded(&rt, rt.alloc(), row);
    }
}
