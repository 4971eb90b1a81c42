//! The threads of a run: each is started with its job, and joined again.
ghost use Rattle.bench_settings.specs.Lawful.{channels_of};
ghost use Rattle.bench_run.specs.Entries.{index_of};
ghost use Rattle.bench_run.specs.Live.{AreInboxesOf};
ghost use Rattle.bench_run.specs.Runs.{ArePairs};
ghost use Rattle.bench_run.specs.Threads.{MayOffer, Offered, IsPromiseOf, IsCourseOf, IsRoom, IsTakenIn};
ghost use Rattle.bench_run.specs.Threads.{HasOnly, ArePromised, AreEnded};
ghost use Rattle.bench_run.specs.declared.channel.Room.{Room};
ghost use Rattle.bench_run.specs.declared.threads.Joined.{Joined};
ghost use Rattle.ch11_recording.specs.Recording.{AreDistinct};
ghost use Rattle.job_file.specs.Rooms.{most_items};
ghost use Rattle.job_file.specs.Timed.{says_nothing};
ghost use Rattle.mil_trunk.specs.Ends.{IsTicketOf, capacity_of, tags_of, bounds_of, sent};
ghost use Rattle.mil_trunk.specs.Tags.{has};
ghost use Rattle.mil_trunk.specs.Views.{with_tag};
ghost use Rattle.std.specs.List.{AllByRecursion};
ghost use Rattle.bench_run.specs.declared.posting.Posts.{Posts};
ghost use Rattle.bench_settings.specs.Placing.{placed_up_to, IsOrdered};
ghost use Rattle.std.specs.Prelude.{vec_capacity, IfSome, IfOk};
ghost use Rattle.std.specs.Prelude.{◌≡◌, ◌≢◌, ℕ, ◌+◌, ◌<◌, ◌≤◌, ◌||◌, [], true, false, Some, length, map, vec_len};

use crate::channel::{Context, Course, Ended, Room, channel};
use crate::ending::Before;
use crate::entry::Entry;
use crate::gate::Gate;
use crate::posting::Posts;
use bc_machine::Schedule;
use bench_mail::{Inbox, Mailbox};
use bench_report::ChannelReport;
use bench_settings::ordered_actions;
use job_file::Job;
use mil_trunk::{Tags, Ticket, Trunk};
use std::alloc::{AllocError, Global};
use std::snapshot::Snapshot;
use std::sync::Wait;
use std::thread::{Promise, PromisedHandle, Scope, Threads};

/// What a channel's thread promises of what it returns. No contract but those of the threads speaks of it.
#[derive(Drop)]
pub struct Offers<'a> {
    trunk: &'a Trunk<Entry>,
    ticket: Snapshot<Ticket<Entry>>,
    index: u8,
    job: &'a Job,
    mailbox: &'a Mailbox,
    most: u32,
    is_live: bool,
    inbox: Snapshot<Inbox>,
}

impl<'a> Promise<Ended> for Offers<'a> {
    ghost use Rattle.bench_run.specs.Threads.{Offered};

    ghost kept_by = { λ p r. Offered p.trunk.now p.ticket.value p.index p.is_live p.job.now p.mailbox.now
        p.most p.inbox.value r };
}

/// How many items each channel may send where so many actions may be posted to it: its messages, those that it has
/// inserted, and its end mark.
pub(crate) fn bounds(alloc: Global, jobs: &[Job], posts: u32) -> Result<Vec<u64>, AllocError>
    ensures bounds { IfOk result (λ v. v.items ≡ map (most_items posts) jobs.now) }
    ensures low { IfOk result (λ v. AllByRecursion (λ b. b ≤ 1000001 + posts) v.items) }
{
    let mut bounds = Vec::with_capacity(alloc, jobs.len())?;
    for job in jobs {
        bounds.push_reserved(job.most_items(posts));
    }
    Ok(bounds)
}

/// What each thread takes along, in the order of the jobs, each with its inbox, from which it may take so many posts.
/// All memory that the threads need is taken here, but for what lines say by time and by command in a live run.
pub(crate) fn rooms(
    alloc: Global,
    jobs: &[Job],
    is_live: bool,
    most: u32,
    inboxes: Vec<Inbox>,
) -> Result<Vec<Room>, AllocError>
    requires { length jobs.now ≡ vec_len inboxes }
    ensures rooms { IfOk result (λ v. ArePairs IsRoom jobs.now v.items) }
    ensures inboxes { IfOk result (λ v. map (λ (room : Room). room.posts.inbox) v.items ≡ inboxes.items) }
    ensures most { IfOk result (λ v. AllByRecursion (λ (room : Room). room.posts.left ≡ most) v.items) }
    ensures live { IfOk result (λ v. AllByRecursion (λ (room : Room). room.is_live ≡ is_live) v.items) }
{
    let mut rooms = Vec::with_capacity(alloc, jobs.len())?;
    for inbox in inboxes {
        let job = &jobs[rooms.len()];
        rooms.push_reserved(room_for(alloc, job, is_live, most, inbox)?);
    }
    Ok(rooms)
}

/// Whether what lines of a job say by time and by command comes to be due as the run goes on.
fn goes_beside(job: &Job, is_live: bool) -> bool
    ensures yes { result ≡ true → (is_live ≡ true) × (says_nothing job.now.timed ≡ false) }
    ensures no { result ≡ false → is_live ≡ true → says_nothing job.now.timed ≡ true }
{
    if !is_live {
        return false;
    }
    job.has_moments()
}

/// How a thread runs its job: in a live run with lines by time and by command as they come to be due.
fn course_for(alloc: Global, job: &Job, is_live: bool, most: u32) -> Result<Course, AllocError>
    ensures { IfOk result (λ course. (p : Posts) → p.left ≡ most
        → p.ordered.actions ≡ placed_up_to 1000000 job.now.actions → IsCourseOf is_live job.now p course) }
{
    if goes_beside(job, is_live) {
        return Ok(Course::AsItComes(job.begin(alloc, most)?));
    }
    let mut machine = job.machine(alloc, job.actions())?;
    machine.room(most)?;
    Ok(Course::ByNumber(machine))
}

/// A job's placed actions by rising number, with room for so many more. It fails for want of memory alone.
fn ordered_for(job: &Job, most: u32) -> Result<Schedule, AllocError>
    ensures ordered { IfOk result (λ s. s.actions ≡ placed_up_to 1000000 job.now.actions) }
    ensures fit { IfOk result (λ s. IsOrdered s.actions) }
{
    let mut ordered = Schedule::of(ordered_actions(job)?);
    ordered.room(most)?;
    Ok(ordered)
}

/// How a thread runs its job, an empty list with room for the numbers of all messages, and the job's placed actions
/// with room for so many posts. It fails for want of memory alone.
fn work_for(
    alloc: Global,
    job: &Job,
    is_live: bool,
    most: u32,
) -> Result<(Course, Vec<u32>, Schedule), AllocError>
    ensures course { IfOk result (λ r. (p : Posts) → p.left ≡ most
        → p.ordered.actions ≡ placed_up_to 1000000 job.now.actions → IsCourseOf is_live job.now p r.0) }
    ensures empty { IfOk result (λ r. r.1.items ≡ []) }
    ensures capacity { IfOk result (λ r. most_items most job.now ≤ vec_capacity r.1) }
    ensures ordered { IfOk result (λ r. r.2.actions ≡ placed_up_to 1000000 job.now.actions) }
    ensures fit { IfOk result (λ r. IsOrdered r.2.actions) }
{
    let refused = Vec::with_capacity(alloc, job.most_items(most) as usize)?;
    let ordered = ordered_for(job, most)?;
    Ok((course_for(alloc, job, is_live, most)?, refused, ordered))
}

fn room_for(
    alloc: Global,
    job: &Job,
    is_live: bool,
    most: u32,
    inbox: Inbox,
) -> Result<Room, AllocError>
    ensures room { IfOk result (λ room. IsRoom job.now room) }
    ensures inbox { IfOk result (λ room. room.posts.inbox ≡ inbox) }
    ensures most { IfOk result (λ room. room.posts.left ≡ most) }
    ensures live { IfOk result (λ room. room.is_live ≡ is_live) }
{
    let (course, refused, ordered) = work_for(alloc, job, is_live, most)?;
    Ok(Room {
        is_live,
        course,
        refused,
        posts: Posts {
            inbox,
            left: most,
            ordered,
        },
    })
}

// Parts off the ticket with the tag of an index alone.
fn part_off(trunk: &Trunk<Entry>, rest: &mut Ticket<Entry>, index: u8) -> Ticket<Entry>
    requires ticket { IsTicketOf trunk.now rest.old × (sent rest.old ≡ []) }
    requires tag { (index < 64) × (has (tags_of rest.old) index ≡ true) }
    ensures tickets { IsTicketOf trunk.now rest.new × IsTicketOf trunk.now result }
    ensures sent { (sent rest.new ≡ []) × (sent result ≡ []) }
    ensures bounds { (bounds_of rest.new ≡ bounds_of rest.old) × (bounds_of result ≡ bounds_of rest.old) }
    ensures tags { HasOnly index (tags_of result) }
    ensures left { (t : ℕ) → t ≢ index → has (tags_of rest.new) t ≡ has (tags_of rest.old) t }
{
    trunk.split(rest, Tags::none().with(index))
}

// Starts the thread of a job; None where it cannot be started.
fn start<'s, E, R: Wait + Sync, G: Gate>(
    scope: &Scope<'s, E>,
    context: &Context<'s, R, G>,
    index: u8,
    job: &'s Job,
    mailbox: &'s Mailbox,
    ticket: Ticket<Entry>,
    room: Room,
) -> Option<PromisedHandle<Ended, Offers<'s>>>
    requires begins { MayOffer context.now.trunk.now ticket index job.now mailbox.now room }
    ensures { IfSome result (λ h. IsPromiseOf context.now.trunk.now ticket index job.now mailbox.now room h.promise) }
{
    let (rt, trunk, gate) = (context.rt, context.trunk, context.gate);
    let promise = Offers {
        trunk,
        ticket: Snapshot::of(&ticket),
        index,
        job,
        mailbox,
        most: room.posts.left,
        is_live: room.is_live,
        inbox: Snapshot::of(&room.posts.inbox),
    };
    let started = scope.spawn_with(
        promise,
        move || -> Ended
            requires { MayOffer trunk.now ticket index job.now mailbox.now room }
            ensures { Offered trunk.entry.now ticket index room.is_live job.entry.now mailbox.entry.now
                room.posts.left room.posts.inbox result }
        {
            let context = Context { rt, trunk, gate };
            channel(&context, index, job, mailbox, ticket, room)
        },
    );
    started.ok()
}

/// Starts the threads of the jobs 0, 1, .. with their rooms, up to the first that cannot be started. The handles stand
/// in the order of the jobs, in memory that was reserved; the ticket keeps the tags that no thread was given.
pub(crate) fn start_all<'s, E, R: Wait + Sync, G: Gate, S>(
    scope: &Scope<'s, E>,
    context: &Context<'s, R, G>,
    before: &Before<'s, S>,
    rooms: Vec<Room>,
    rest: &mut Ticket<Entry>,
    mut handles: Vec<PromisedHandle<Ended, Offers<'s>>>,
) -> Vec<PromisedHandle<Ended, Offers<'s>>>
    requires ticket { IsTicketOf context.now.trunk.now rest.old × (sent rest.old ≡ []) }
    requires tags { (t : ℕ) → t < 64 → has (tags_of rest.old) t ≡ true }
    requires few { length before.now.jobs.now ≤ 32 }
    requires bounds { bounds_of rest.old ≡ map (most_items before.now.most) before.now.jobs.now }
    requires rooms { ArePairs IsRoom before.now.jobs.now rooms.items }
    requires boxes { length before.now.boxes.now ≡ length before.now.jobs.now }
    requires inboxes { AreInboxesOf before.now.boxes.now before.now.inboxes.value.items }
    requires inboxes_are { map (λ (room : Room). room.posts.inbox) rooms.items ≡ before.now.inboxes.value.items }
    requires most { AllByRecursion (λ (room : Room). room.posts.left ≡ before.now.most) rooms.items }
    requires live { AllByRecursion (λ (room : Room). room.is_live ≡ before.now.is_live) rooms.items }
    requires handles { (handles.items ≡ []) × (length before.now.jobs.now ≤ vec_capacity handles) }
    ensures ticket { IsTicketOf context.now.trunk.now rest.new × (sent rest.new ≡ []) }
    ensures bounds { bounds_of rest.new ≡ bounds_of rest.old }
    ensures started { vec_len result ≤ length before.now.jobs.now }
    ensures tags { (t : ℕ) → t < 64 → length before.now.jobs.now ≤ t → has (tags_of rest.new) t ≡ true }
    ensures promised { ArePromised context.now.trunk.now (bounds_of rest.old) before.now.is_live before.now.jobs.now
        before.now.most before.now.boxes.now before.now.inboxes.value.items result.items }
{
    let (jobs, boxes) = (before.jobs, before.boxes);
    for room in rooms {
        let index = handles.len();
        let ticket = part_off(context.trunk, rest, index as u8);
        let (job, mailbox) = (&jobs[index], &boxes[index]);
        match start(scope, context, index as u8, job, mailbox, ticket, room) {
            Some(handle) => handles.push_reserved(handle),
            None => return handles,
        }
    }
    handles
}

/// What is left of a thread that was joined: the channel's part of the report, its inbox, and whether it came to the
/// end of its job.
#[derive(Drop)]
pub(crate) struct Joined {
    pub(crate) part: ChannelReport,
    pub(crate) inbox: Inbox,
    pub(crate) is_whole: bool,
}

// Waits for a thread, and takes its ticket in.
fn join_one<R: Threads>(
    rt: &R,
    trunk: &Trunk<Entry>,
    handle: PromisedHandle<Ended, Offers<'_>>,
    rest: &mut Ticket<Entry>,
) -> Joined
    requires ticket { IsTicketOf trunk.now rest.old × (handle.promise.trunk.now ≡ trunk.now) }
    ensures ticket { IsTicketOf trunk.now rest.new × (bounds_of rest.new ≡ bounds_of rest.old) }
    ensures tags { (t : ℕ) → has (tags_of rest.new) t
        ≡ (has (tags_of rest.old) t || has (tags_of handle.entry.promise.ticket.value) t) }
    ensures ended { IsTakenIn trunk.now handle.entry.promise rest.old rest.new result }
{
    let Ended {
        ticket,
        part,
        inbox,
        is_whole,
    } = handle.join(rt);
    trunk.take_in(rest, ticket);
    Joined {
        part,
        inbox,
        is_whole,
    }
}

/// Waits for the threads of the jobs 0, 1, .., takes their tickets in, and gives what is left of them, in the order of
/// the jobs and in memory that was reserved.
pub(crate) fn join_all<R: Threads, S>(
    rt: &R,
    trunk: &Trunk<Entry>,
    before: &Before<'_, S>,
    handles: Vec<PromisedHandle<Ended, Offers<'_>>>,
    rest: &mut Ticket<Entry>,
    mut joined: Vec<Joined>,
) -> Vec<Joined>
    requires ticket { IsTicketOf trunk.now rest.old × (sent rest.old ≡ []) }
    requires bounds { bounds_of rest.old ≡ map (most_items before.now.most) before.now.jobs.now }
    requires distinct { AreDistinct (channels_of before.now.jobs.now) }
    requires promised { ArePromised trunk.now (bounds_of rest.old) before.now.is_live before.now.jobs.now
        before.now.most before.now.boxes.now before.now.inboxes.value.items handles.items }
    requires joined { (joined.items ≡ []) × (vec_len handles ≤ vec_capacity joined) }
    ensures ticket { IsTicketOf trunk.now rest.new × (bounds_of rest.new ≡ bounds_of rest.old) }
    ensures held { (t : ℕ) → has (tags_of rest.old) t ≡ true → has (tags_of rest.new) t ≡ true }
    ensures gained { (t : ℕ) → t < vec_len handles.entry → has (tags_of rest.new) t ≡ true }
    ensures len { vec_len result ≡ vec_len handles.entry }
    ensures ended { AreEnded (capacity_of trunk.now) (sent rest.new) before.now.is_live before.now.jobs.now
        before.now.most before.now.boxes.now before.now.inboxes.value.items result.items }
    ensures unsent { (t : ℕ) → vec_len handles.entry ≤ t → with_tag index_of t (sent rest.new) ≡ [] }
{
    // (what stands behind a reference is known once it is read)
    let _before = before;
    for handle in handles {
        joined.push_reserved(join_one(rt, trunk, handle, rest));
    }
    joined
}

/// Whether each of these threads came to the end of its job.
pub(crate) fn are_whole(joined: &[Joined]) -> bool
    ensures { result ≡ true → AllByRecursion (λ (j : Joined). j.is_whole ≡ true) joined.now }
{
    for one in joined {
        if !one.is_whole {
            return false;
        }
    }
    true
}

/// The parts of the report and the inboxes of what is left of the threads, each list in memory that was reserved.
pub(crate) fn parted(
    joined: Vec<Joined>,
    mut parts: Vec<ChannelReport>,
    mut inboxes: Vec<Inbox>,
) -> (Vec<ChannelReport>, Vec<Inbox>)
    requires parts { (parts.items ≡ []) × (vec_len joined ≤ vec_capacity parts) }
    requires inboxes { (inboxes.items ≡ []) × (vec_len joined ≤ vec_capacity inboxes) }
    ensures parts { result.0.items ≡ map (λ (j : Joined). j.part) joined.items }
    ensures inboxes { result.1.items ≡ map (λ (j : Joined). j.inbox) joined.items }
{
    for one in joined {
        let Joined { part, inbox, .. } = one;
        parts.push_reserved(part);
        inboxes.push_reserved(inbox);
    }
    (parts, inboxes)
}
