//! Two buses run, each on a thread of its own, while the host of a terminal on each posts a vector word and a service
//! request: a program that can be copied. What is printed of the run is the same whatever the order of the threads:
//! which messages met the posts is left out, and message 50 of each channel waits until its host has posted.
//!
//! It may know: host actions, placed actions, jobs, the writer, reports, what runs share, mailboxes, runs. It has no
//! tests: what it prints is compared with its file `stdout`. It has no wrong bodies.
#![tactic(auto)]

ghost use Rattle.bench_mail.specs.Mail.{IsInboxOf, MayPost};
ghost use Rattle.bench_run.specs.Live.{AreInboxesOf};
ghost use Rattle.std.specs.Prelude.{◌≡◌, ◌∷◌, [], IfSome};

mod gate;
mod hosts;

use bc_machine::HostAction;
use bench_mail::{Inbox, Mailbox, Poster};
use bench_report::{ChannelReport, Report};
use bench_run::run_live;
use bench_settings::Settings;
use ch11_writer::MemorySink;
use gate::Posted;
use hosts::{Host, post_all};
use job_file::{Job, read_jobs};
use std::alloc::Global;
use std::io;
use std::sync::Wait;
use std::thread::{Threads, join};

/// Each bus controller asks its terminal for the vector word a hundred times.
const FIRST: &str = "channel 1\nterminal 5\nscript\nrepeat 100 { send A mode 5 16 }\n";

const SECOND: &str = "channel 2\nterminal 6\nscript\nrepeat 100 { send A mode 6 16 }\n";

/// The mailbox of a job, the poster of its host, and the inbox.
#[derive(Drop)]
struct Mail {
    mailbox: Mailbox,
    poster: Poster,
    inbox: Inbox,
}

/// The mail of a job; None where memory is refused.
fn mail_for(alloc: Global, job: &Job) -> Option<Mail>
    ensures { IfSome result (λ mail. MayPost 0 mail.mailbox mail.poster × IsInboxOf mail.mailbox mail.inbox) }
{
    match Mailbox::make(alloc, job, 4) {
        Ok((mailbox, poster, inbox)) => {
            Some(Mail {
                mailbox,
                poster,
                inbox,
            })
        }
        Err(_) => None,
    }
}

/// Packets of at most 65,536 bytes, a queue with room for all that both channels send, and at most four posts of each
/// channel.
fn settings(alloc: Global) -> Settings {
    Settings {
        version: 6,
        limit: 65_536,
        queue: 256,
        prologue: Vec::new(alloc),
        posts: 4,
    }
}

/// Two inboxes in a list; None where memory is refused.
fn both(alloc: Global, first: Inbox, second: Inbox) -> Option<Vec<Inbox>>
    ensures { IfSome result (λ list. list.items ≡ first ∷ second ∷ []) }
{
    let mut list = Vec::with_capacity(alloc, 2).ok()?;
    list.push(first).ok()?;
    list.push(second).ok()?;
    Some(list)
}

/// The report of a run of the jobs, beside which the hosts post; None where the run gave no recording.
fn run_beside<R: Threads + Wait + Sync>(
    rt: &R,
    alloc: Global,
    jobs: &[Job],
    boxes: &[Mailbox],
    inboxes: Vec<Inbox>,
    first: Host<'_>,
    second: Host<'_>,
) -> Option<Report>
    requires hosts { MayPost 0 first.mailbox.now first.poster × MayPost 0 second.mailbox.now second.poster }
    requires inboxes { AreInboxesOf boxes.now inboxes.items }
{
    let gate = Posted::none();
    let posted = &gate;
    let (_, answer) = join(
        rt,
        move ||
            requires { MayPost 0 first.mailbox.now first.poster × MayPost 0 second.mailbox.now second.poster }
        { post_all(rt, posted, first, second) },
        move || -> Option<Report>
            requires { AreInboxesOf boxes.now inboxes.items }
        { lives(rt, alloc, jobs, boxes, inboxes, posted) },
    );
    answer
}

/// The report of a live run into memory; None where it gave no recording.
fn lives<R: Threads + Wait + Sync>(
    rt: &R,
    alloc: Global,
    jobs: &[Job],
    boxes: &[Mailbox],
    inboxes: Vec<Inbox>,
    gate: &Posted,
) -> Option<Report>
    requires { AreInboxesOf boxes.now inboxes.items }
{
    let settings = settings(alloc);
    let sink = MemorySink::make(alloc);
    match run_live(rt, alloc, jobs, &settings, boxes, inboxes, gate, sink) {
        Ok((report, _, _)) => Some(report),
        Err(_) => None,
    }
}

/// The report of a run of the jobs with their mail; None where memory is refused.
fn report_with<R: Threads + Wait + Sync>(
    rt: &R,
    alloc: Global,
    jobs: &[Job],
    first: Mail,
    second: Mail,
) -> Option<Report>
    requires first { MayPost 0 first.mailbox first.poster × IsInboxOf first.mailbox first.inbox }
    requires second { MayPost 0 second.mailbox second.poster × IsInboxOf second.mailbox second.inbox }
{
    let inboxes = both(alloc, first.inbox, second.inbox)?;
    let boxes = [first.mailbox, second.mailbox];
    let first = Host::of(&boxes[0], first.poster, 1, 5, 0x00AA);
    let second = Host::of(&boxes[1], second.poster, 2, 6, 0x0155);
    run_beside(rt, alloc, jobs, &boxes, inboxes, first, second)
}

/// The report of a run of the jobs; None where memory is refused.
fn report_of<R: Threads + Wait + Sync>(rt: &R, alloc: Global, jobs: &[Job]) -> Option<Report> {
    let (Some(first), Some(second)) = (jobs.first(), jobs.get(1)) else {
        return None;
    };
    let first = mail_for(alloc, first)?;
    let second = mail_for(alloc, second)?;
    report_with(rt, alloc, jobs, first, second)
}

/// The report of the whole example; None where memory is refused.
fn report<R: Threads + Wait + Sync>(rt: &R, alloc: Global) -> Option<Report> {
    let jobs = read_jobs(alloc, &[FIRST.as_bytes(), SECOND.as_bytes()]).ok()?;
    report_of(rt, alloc, &jobs)
}

/// Prints what a channel made, and what was placed besides.
fn print_channel<R: Print>(rt: &R, part: &ChannelReport) -> io::Result<()> {
    let refused = part.refused().len();
    println!(rt;
        "channel {}: {} messages, {refused} refused",
        part.channel(),
        part.made()
    )?;
    let all = part.placed();
    for place in 0..all.len() {
        if let HostAction::Terminal { address, action } = all.get(place).action {
            println!(rt; "  for terminal {address}: {action}")?;
        }
    }
    Ok(())
}

fn main(rt: HostRuntime) -> io::Result<()> {
    let Some(report) = report(&rt, rt.alloc()) else {
        return println!(rt; "no recording");
    };
    for part in report.channels() {
        print_channel(&rt, part)?;
    }
    Ok(())
}
