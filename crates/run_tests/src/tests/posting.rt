//! Live runs beside which two hosts post vector words to each channel: host 0 for terminal 5, and host 1 for terminal 6
//! at the same time.
ghost use Rattle.bc_machine.specs.declared.placed.HostAction.TheVariants.{Terminal};
ghost use Rattle.bench_mail.specs.Mail.{MayPost};
ghost use Rattle.bench_run.specs.Live.{AreInboxesOf};
ghost use Rattle.run_tests.specs.Hosts.{MayPostToAll, IsMail};
ghost use Rattle.std.specs.Prelude.{◌≡◌, ◌++◌, [], ◌∷◌};

use crate::tests::fixtures::Bench;
use crate::tests::gates::OrderingGate;
use crate::tests::hosts::{lives_beside, two_hosts};
use bc_machine::HostAction;
use bench_mail::{Inbox, Mailbox, Poster};
use bench_report::Report;
use ch11_writer::MemorySink;
use job_file::Job;
use mil_host::Action;
use std::alloc::Global;
use std::process::Abort;
use std::sync::Wait;
use std::thread::{Threads, join};

/// An action of the host of the terminal at an address.
pub(crate) fn of_terminal(address: u8, action: Action) -> HostAction
    ensures { result ≡ Terminal address action }
{
    HostAction::Terminal { address, action }
}

/// A host posts the vector words 1 to `words` for the terminal at an address.
fn post_words<R: Wait + Abort>(
    rt: &R,
    gate: &OrderingGate,
    mailbox: &Mailbox,
    poster: Poster,
    host: u8,
    address: u8,
    words: u16,
)
    requires { MayPost host mailbox.now poster }
{
    let mut poster = poster;
    for word in 0..words {
        let vector = Action::Vector(word + 1);
        let answer = mailbox.post(rt, &mut poster, host, of_terminal(address, vector));
        assert!(rt; answer.is_ok());
        gate.tell_posted();
    }
}

/// For each job, in their order, its mailbox, a poster for host 0, one for host 1, and the inbox.
#[derive(Drop)]
struct Mail {
    boxes: Vec<Mailbox>,
    firsts: Vec<Poster>,
    seconds: Vec<Poster>,
    inboxes: Vec<Inbox>,
}

/// A list with one more at its end.
fn with_one<T: Drop>(rt: &impl Abort, list: Vec<T>, one: T) -> Vec<T>
    ensures { result.items ≡ list.items ++ one ∷ [] }
{
    let mut list = list;
    list.push(one).expect(rt, "memory");
    list
}

/// The mail of one job more, whose mailbox has room for so many posts.
fn with_job(rt: &impl Abort, alloc: Global, mail: Mail, job: &Job, room: u32) -> Mail
    requires { IsMail mail.boxes.items mail.firsts.items mail.seconds.items mail.inboxes.items }
    ensures { IsMail result.boxes.items result.firsts.items result.seconds.items result.inboxes.items }
{
    let (mailbox, first, second, inbox) = two_hosts(rt, alloc, job, room);
    let Mail {
        boxes,
        firsts,
        seconds,
        inboxes,
    } = mail;
    let boxes = with_one(rt, boxes, mailbox);
    let firsts = with_one(rt, firsts, first);
    let seconds = with_one(rt, seconds, second);
    let inboxes = with_one(rt, inboxes, inbox);
    Mail {
        boxes,
        firsts,
        seconds,
        inboxes,
    }
}

/// The mail of no job.
fn no_mail(alloc: Global) -> Mail
    ensures { IsMail result.boxes.items result.firsts.items result.seconds.items result.inboxes.items }
{
    let boxes = Vec::new(alloc);
    let firsts = Vec::new(alloc);
    let seconds = Vec::new(alloc);
    let inboxes = Vec::new(alloc);
    Mail {
        boxes,
        firsts,
        seconds,
        inboxes,
    }
}

/// The mail of the jobs.
fn mail_for(rt: &impl Abort, alloc: Global, jobs: &[Job], room: u32) -> Mail
    ensures { IsMail result.boxes.items result.firsts.items result.seconds.items result.inboxes.items }
{
    let mut mail = no_mail(alloc);
    for job in jobs {
        mail = with_job(rt, alloc, mail, job, room);
    }
    mail
}

/// A host posts so many words for the terminal at an address to one channel after another.
fn post_to_all<R: Wait + Abort>(
    rt: &R,
    gate: &OrderingGate,
    boxes: &[Mailbox],
    posters: Vec<Poster>,
    host: u8,
    address: u8,
    words: u16,
)
    requires { MayPostToAll host boxes.now posters.items }
{
    let mut place = 0usize;
    for poster in posters {
        post_words(rt, gate, &boxes[place], poster, host, address, words);
        place += 1;
    }
}

/// Host 0 posts for terminal 5, and host 1 for terminal 6 at the same time.
fn both_post<R: Threads + Wait + Abort + Sync>(
    rt: &R,
    gate: &OrderingGate,
    boxes: &[Mailbox],
    firsts: Vec<Poster>,
    seconds: Vec<Poster>,
    words: u16,
)
    requires { MayPostToAll 0 boxes.now firsts.items × MayPostToAll 1 boxes.now seconds.items }
{
    let _ = join(
        rt,
        move ||
            requires { MayPostToAll 0 boxes.now firsts.items }
        { post_to_all(rt, gate, boxes, firsts, 0, 5, words) },
        move ||
            requires { MayPostToAll 1 boxes.now seconds.items }
        { post_to_all(rt, gate, boxes, seconds, 1, 6, words) },
    );
}

/// The hosts post so many words each beside the run of their channels: its report, and what was recorded.
fn run_with<R: Threads + Wait + Abort + Sync>(
    rt: &R,
    alloc: Global,
    bench: &Bench,
    boxes: &[Mailbox],
    firsts: Vec<Poster>,
    seconds: Vec<Poster>,
    inboxes: Vec<Inbox>,
    words: u16,
    gate: &OrderingGate,
) -> (Report, MemorySink)
    requires posters { MayPostToAll 0 boxes.now firsts.items × MayPostToAll 1 boxes.now seconds.items }
    requires inboxes { AreInboxesOf boxes.now inboxes.items }
{
    let hosts = move ||
        requires { MayPostToAll 0 boxes.now firsts.items × MayPostToAll 1 boxes.now seconds.items }
    { both_post(rt, gate, boxes, firsts, seconds, words) };
    let (_, (report, _, sink)) = lives_beside(rt, alloc, bench, boxes, inboxes, gate, hosts);
    (report, sink)
}

/// A live run of the jobs of a bench, whose mailboxes have room for so many posts, beside which both hosts post so many
/// words to each channel: its report, and what was recorded.
pub(crate) fn run_with_hosts<R: Threads + Wait + Abort + Sync>(
    rt: &R,
    alloc: Global,
    bench: &Bench,
    room: u32,
    words: u16,
    gate: &OrderingGate,
) -> (Report, MemorySink) {
    let Mail {
        boxes,
        firsts,
        seconds,
        inboxes,
    } = mail_for(rt, alloc, &bench.jobs, room);
    run_with(
        rt, alloc, bench, &boxes, firsts, seconds, inboxes, words, gate,
    )
}
