//! One channel's thread.
ghost use Rattle.bench_run.specs.Runs.{records_of};
ghost use Rattle.bench_run.specs.Threads.{MayOffer, Offered, RecordsOfferedSoFar};
ghost use Rattle.bench_run.specs.declared.entry.Entry.TheVariants.{End};
ghost use Rattle.ch11_builder.specs.Recorded.{IsRecorded};
ghost use Rattle.ch11_recording.specs.Items.{numbered};
ghost use Rattle.job_file.specs.Jobs.{JobState};
ghost use Rattle.mil_trunk.specs.Ends.{IsTicketOf, tags_of, bounds_of, sent};
ghost use Rattle.mil_trunk.specs.Tags.{has, bound_of};
ghost use Rattle.std.specs.Prelude.{◌≡◌, ◌<◌, ◌≤◌, ◌-◌, ◌++◌, ◌∷◌, [], true, length, vec_capacity, slice_get, Some};

use crate::beside::as_it_comes;
use crate::by_number::by_number;
use crate::entry::Entry;
use crate::gate::Gate;
use crate::posting::Posts;
use bc_machine::Machine;
use bench_mail::{Inbox, Mailbox};
use bench_report::ChannelReport;
use ch11_f1::Record;
use job_file::{Job, JobRun};
use mil_trunk::{Ticket, Trunk};
use std::sync::Wait;
use std::thread;

/// What the threads of a run share: the handle by which they wait, the trunk, and the gate.
#[derive(Drop)]
pub(crate) struct Context<'s, R, G> {
    pub(crate) rt: &'s R,
    pub(crate) trunk: &'s Trunk<Entry>,
    pub(crate) gate: &'s G,
}

/// How a channel's thread runs its job: with all actions and faults at their numbers, or so that what its lines say by
/// time and by command is done as it comes to be due.
#[derive(Drop)]
pub(crate) enum Course {
    ByNumber(Machine),
    AsItComes(JobRun),
}

/// What a channel's thread takes along: whether the run is live, its job's controller, an empty list with room for the
/// numbers of all messages, and what it has for the posts of hosts.
#[derive(Drop)]
pub(crate) struct Room {
    pub(crate) is_live: bool,
    pub(crate) course: Course,
    pub(crate) refused: Vec<u32>,
    pub(crate) posts: Posts,
}

/// What a channel's thread returns: its ticket, the channel's part of the report, its inbox, and whether it came to the
/// end of its job; else memory was refused.
#[derive(Drop)]
pub(crate) struct Ended {
    pub(crate) ticket: Ticket<Entry>,
    pub(crate) part: ChannelReport,
    pub(crate) inbox: Inbox,
    pub(crate) is_whole: bool,
}

/// The way of a channel: the index of its job, whether the run is live, the job, and its mailbox.
#[derive(Drop)]
pub(crate) struct Way<'s> {
    pub(crate) index: u8,
    pub(crate) is_live: bool,
    pub(crate) job: &'s Job,
    pub(crate) mailbox: &'s Mailbox,
}

/// Runs a job's controller to its end. Before each message posts are taken from the mailbox, and placed at it. Each
/// message is offered once, and the numbers of those that come back are listed; then the end mark is offered until it
/// is kept. It takes no lock, and memory only for what lines of the job say by time and by command.
pub(crate) fn channel<R: Wait, G: Gate>(
    context: &Context<'_, R, G>,
    index: u8,
    job: &Job,
    mailbox: &Mailbox,
    ticket: Ticket<Entry>,
    room: Room,
) -> Ended
    requires { MayOffer context.now.trunk.now ticket index job.now mailbox.now room }
    ensures { Offered context.now.trunk.now ticket index room.is_live job.now mailbox.now room.posts.left
        room.posts.inbox result }
{
    let Room {
        is_live,
        course,
        refused,
        posts,
    } = room;
    let way = Way {
        index,
        is_live,
        job,
        mailbox,
    };
    match course {
        Course::ByNumber(machine) => by_number(context, &way, ticket, machine, refused, posts),
        Course::AsItComes(run) => as_it_comes(context, &way, ticket, run, refused, posts),
    }
}

/// Offers a message once. Where it comes back, its number joins the list, and the thread gives way, so that the writer
/// may come on.
pub(crate) fn offer_message<R: Wait, G: Gate>(
    context: &Context<'_, R, G>,
    index: u8,
    job: &Job,
    number: u32,
    message: Record,
    ticket: &mut Ticket<Entry>,
    refused: &mut Vec<u32>,
)
    requires so_far { (live : JobState)
        × RecordsOfferedSoFar context.now.trunk.now (tags_of ticket.old) (bounds_of ticket.old) index live
        (number - 1) ticket.old refused.old.items }
    requires tag { has (tags_of ticket.old) index ≡ true }
    requires bound { number < bound_of (bounds_of ticket.old) index }
    requires number { 1 ≤ number }
    requires recorded { IsRecorded (numbered 0 message) }
    requires room { number ≤ vec_capacity refused.old }
    ensures so_far { (live : JobState)
        → RecordsOfferedSoFar context.now.trunk.now (tags_of ticket.old) (bounds_of ticket.old) index live
        (number - 1) ticket.old refused.old.items
        → slice_get (records_of live) (number - 1) ≡ Some message
        → RecordsOfferedSoFar context.now.trunk.now (tags_of ticket.old)
        (bounds_of ticket.old) index live number ticket.new refused.new.items }
    ensures room { vec_capacity refused.new ≡ vec_capacity refused.old }
{
    let entry = Entry::Message {
        index,
        number,
        record: message,
    };
    let (rt, trunk, gate) = (context.rt, context.trunk, context.gate);
    match trunk.offer(rt, ticket, entry) {
        Ok(()) => gate.after_offer(job.channel(), number, true),
        Err(_) => {
            refused.push_reserved(number);
            gate.after_offer(job.channel(), number, false);
            thread::yield_now();
        }
    }
}

/// Offers the end mark until it is kept.
pub(crate) fn offer_end<R: Wait, G: Gate>(
    context: &Context<'_, R, G>,
    index: u8,
    channel: u16,
    ticket: &mut Ticket<Entry>,
)
    requires ticket { IsTicketOf context.now.trunk.now ticket.old }
    requires tag { has (tags_of ticket.old) index ≡ true }
    requires bound { length (sent ticket.old) < bound_of (bounds_of ticket.old) index }
    ensures ticket { IsTicketOf context.now.trunk.now ticket.new }
    ensures tags { tags_of ticket.new ≡ tags_of ticket.old }
    ensures bounds { bounds_of ticket.new ≡ bounds_of ticket.old }
    ensures sent { sent ticket.new ≡ sent ticket.old ++ End index ∷ [] }
{
    let (rt, trunk, gate) = (context.rt, context.trunk, context.gate);
    for _ in rt.forever() {
        match trunk.offer(rt, ticket, Entry::End { index }) {
            Ok(()) => {
                gate.after_offer(channel, 0, true);
                return;
            }
            Err(_) => {
                gate.after_offer(channel, 0, false);
                thread::yield_now();
            }
        }
    }
    unreachable!()
}
