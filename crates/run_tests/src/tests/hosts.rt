//! What live runs need beside the jobs: mailboxes and the posters of their hosts, and a run beside which hosts post.
ghost use Rattle.bench_mail.specs.Mail.{IsInboxOf, MayPost};
ghost use Rattle.bench_run.specs.Live.{AreInboxesOf};
ghost use Rattle.std.specs.Prelude.{◌≡◌, [], ◌∷◌, IfOk};

use crate::tests::fixtures::Bench;
use crate::tests::gates::OrderingGate;
use bench_mail::{Inbox, Mailbox, Poster};
use bench_report::Report;
use bench_run::{LiveError, run_live};
use ch11_reader::Index;
use ch11_writer::MemorySink;
use job_file::Job;
use mil_trunk::Tags;
use replay::Replay;
use std::alloc::Global;
use std::process::Abort;
use std::sync::Wait;
use std::thread::{Threads, join};

/// A bench of whose runs each takes at most so many posts of each channel.
pub(crate) fn taking(bench: Bench, posts: u32) -> Bench {
    let mut bench = bench;
    bench.settings.posts = posts;
    bench
}

/// A list of one.
pub(crate) fn alone<T: Drop>(rt: &impl Abort, alloc: Global, one: T) -> Vec<T>
    ensures { result.items ≡ one ∷ [] }
{
    let mut list = Vec::new(alloc);
    list.push(one).expect(rt, "memory");
    list
}

/// A mailbox of so many posts for a job, a poster for host 0 and one for host 1, and the inbox.
pub(crate) fn two_hosts(
    rt: &impl Abort,
    alloc: Global,
    job: &Job,
    capacity: u32,
) -> (Mailbox, Poster, Poster, Inbox)
    ensures first { MayPost 0 result.0 result.1 }
    ensures second { MayPost 1 result.0 result.2 }
    ensures inbox { IsInboxOf result.0 result.3 }
{
    let made = Mailbox::make(alloc, job, capacity);
    let (mailbox, mut poster, inbox) = made.ok().expect(rt, "a mailbox");
    let second = mailbox.split(&mut poster, Tags::none().with(1));
    (mailbox, poster, second, inbox)
}

/// Hosts post beside a live run, which ends well once the gate has let it go on: what the hosts give, and the report,
/// the inboxes and what was recorded.
pub(crate) fn lives_beside<
    R: Threads + Wait + Abort + Sync,
    H: FnOnce() -> T + Send,
    T: Send + Drop,
>(
    rt: &R,
    alloc: Global,
    bench: &Bench,
    boxes: &[Mailbox],
    inboxes: Vec<Inbox>,
    gate: &OrderingGate,
    hosts: H,
) -> (T, (Report, Vec<Inbox>, MemorySink))
    requires hosts { H.pre hosts }
    requires inboxes { AreInboxesOf boxes.now inboxes.items }
    ensures hosts { H.post hosts result.0 }
    ensures inboxes { AreInboxesOf boxes.now result.1.1.items }
{
    let live = move || -> Result<(Report, Vec<Inbox>, MemorySink), LiveError<MemorySink>>
        requires { AreInboxesOf boxes.now inboxes.items }
        ensures { IfOk result (λ r. AreInboxesOf boxes.entry.now r.1.items) }
    {
        let Bench { jobs, settings } = bench;
        let sink = MemorySink::make(alloc);
        run_live(rt, alloc, jobs, settings, boxes, inboxes, gate, sink)
    };
    let (posted, answer) = join(rt, hosts, live);
    let left = answer.ok().expect(rt, "a run that ends well");
    assert!(rt; gate.all_came());
    (posted, left)
}

/// Whether the debugger accepts a recording of the jobs under its report.
pub(crate) fn is_accepted(alloc: Global, jobs: &[Job], report: &Report, index: Index<'_>) -> bool {
    Replay::open(alloc, jobs, report, index).is_ok()
}
