//! Live runs of jobs with lines by time and by command: what hosts insert moves the numbers of messages, and what such
//! lines say is done at the messages that they name.
ghost use Rattle.bench_mail.specs.Mail.{MayPost};

use crate::tests::equal::same_in;
use crate::tests::fixtures::{Bench, bench_of, index_of, is_printed};
use crate::tests::gates::{OrderingGate, Rules};
use crate::tests::hosts::{alone, lives_beside};
use bc_machine::HostAction;
use bench_mail::{Mailbox, Poster};
use bench_report::Report;
use ch11_reader::Index;
use ch11_writer::MemorySink;
use controller_text::read_control;
use std::alloc::Global;
use std::process::Abort;
use std::sync::Wait;
use std::thread::Threads;

/// A message that the host of the controller has inserted.
const INSERT: &str = "insert A mode 5 1";

/// Host 0 waits until message 2 is held, has a message inserted, and lets the channel go on.
fn post_insert<R: Wait + Abort>(rt: &R, gate: &OrderingGate, mailbox: &Mailbox, poster: Poster)
    requires { MayPost 0 mailbox.now poster }
{
    gate.wait_for_hold();
    let mut poster = poster;
    let control = read_control(INSERT.as_bytes()).ok().expect(rt, INSERT);
    let answer = mailbox.post(rt, &mut poster, 0, HostAction::Controller(control));
    assert!(rt; answer.is_ok());
    gate.tell_posted();
}

/// A live run of one job beside which a host posts: its report, and what was recorded.
fn run_held<R: Threads + Wait + Abort + Sync>(
    rt: &R,
    alloc: Global,
    bench: &Bench,
) -> (Report, MemorySink) {
    let job = bench.jobs.first().expect(rt, "a job");
    let made = Mailbox::make(alloc, job, 4);
    let (mailbox, poster, inbox) = made.ok().expect(rt, "a mailbox");
    let boxes = alone(rt, alloc, mailbox);
    let mailbox = boxes.first().expect(rt, "a mailbox");
    let inboxes = alone(rt, alloc, inbox);
    let gate = OrderingGate::by(Rules::UntilAPost);
    let held = &gate;
    let host = move ||
        requires { MayPost 0 mailbox.now poster }
    { post_insert(rt, held, mailbox, poster) };
    let (_, (report, _, sink)) = lives_beside(rt, alloc, bench, &boxes, inboxes, held, host);
    (report, sink)
}

/// The words of a message as bytes, low byte first; none where there is no such message.
fn has_bytes(index: &Index<'_>, number: u64, wanted: &[u8]) -> bool {
    match index.message(number) {
        Some((_, seen)) => seen.words == wanted,
        None => false,
    }
}

/// A name, the text of a job, the report, and the number of a message with its bytes.
type Row = (&'static str, &'static str, &'static str, u64, &'static [u8]);

const ROWS: &[Row] = &[
    (
        "the second transmit command is message 5, not 4, behind the inserted message 2",
        "channel 1\nterminal 5\nat tx 5 1 nth 2 5 busy on\nscript\n\
        repeat 3 { send A mode 5 1 send A tx 5 1 1 }\n",
        "channel 1\nmade 7\nplaced 2 bc insert A mode 5 1\nplaced 5 5 busy on\npackets 1\n",
        5,
        &[0x21, 0x2C, 0x08, 0x28],
    ),
    (
        "the fault is at the third mode command, which is message 4 then",
        "channel 1\nterminal 5\nfault mode 5 1 nth 3 mute 1\nscript\n\
        repeat 3 { send A mode 5 1 send A tx 5 1 1 }\n",
        "channel 1\nmade 7\nplaced 2 bc insert A mode 5 1\npackets 1\n",
        4,
        &[0xE1, 0x2F],
    ),
];

/// A live run of the job of a row is recorded so.
fn is_recorded<R: Threads + Wait + Abort + Sync>(rt: &R, alloc: Global, row: &Row) {
    let (name, text, wanted, number, bytes) = row;
    let bench = bench_of(rt, alloc, &[*text], 4096);
    let (report, sink) = run_held(rt, alloc, &bench);
    is_printed(rt, alloc, &report, wanted);
    let index = index_of(rt, alloc, sink.bytes());
    same_in(rt, name, &has_bytes(&index, *number, bytes), &true);
}

#[test]
fn what_is_by_command_moves_with_what_hosts_insert(rt: HostRuntime) {
    for row in ROWS {
        is_recorded(&rt, rt.alloc(), row);
    }
}
