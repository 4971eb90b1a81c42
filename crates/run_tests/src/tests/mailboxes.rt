//! Mailboxes: which are made, what comes back, and what is received.
use crate::tests::equal::prints;
use crate::tests::fixtures::{TO_FIVE, job_of};
use crate::tests::posting::of_terminal;
use bc_machine::HostAction;
use bench_mail::{MailError, Mailbox, Post, PostError};
use bench_report::HostActionText;
use job_file::Job;
use mil_host::Action;
use std::alloc::Global;
use std::process::Abort;
use std::test::Fail;

/// A capacity, and why no mailbox is made with it.
const CAPACITIES: [(u32, Option<MailError>); 4] = [
    (0, Some(MailError::Capacity)),
    (1, None),
    (4096, None),
    (4097, Some(MailError::Capacity)),
];

/// Why no mailbox of this capacity is made for a job.
fn refusal_of(alloc: Global, job: &Job, capacity: u32) -> Option<MailError> {
    Mailbox::make(alloc, job, capacity).err()
}

/// Mailboxes for a job are made with the capacities that may be.
fn are_capacities(rt: &impl Abort, alloc: Global, job: &Job) {
    for (capacity, refused) in CAPACITIES {
        assert_eq!(rt; refusal_of(alloc, job, capacity), refused, "at {capacity}");
    }
}

#[test]
fn capacities(rt: HostRuntime) {
    let job = job_of(&rt, rt.alloc(), 1, 1, &TO_FIVE);
    are_capacities(&rt, rt.alloc(), &job);
}

#[test]
fn errors_print_their_numbers(rt: HostRuntime) {
    prints(&rt, rt.alloc(), &MailError::Capacity, "E1");
    prints(&rt, rt.alloc(), &MailError::Memory, "E2");
}

/// The action that a refused post hands back.
fn action_of(fault: &PostError) -> &HostAction {
    match fault {
        PostError::NoTerminal { action } => action,
        PostError::Full { action } => action,
    }
}

/// A refused post is printed as this text, and hands the action back.
fn is_back(
    rt: &impl Abort,
    alloc: Global,
    answer: Result<(), PostError>,
    wanted: &str,
    wanted_action: &str,
) {
    let fault = answer.err().expect(rt, "a refusal");
    prints(rt, alloc, &fault, wanted);
    prints(rt, alloc, &HostActionText(action_of(&fault)), wanted_action);
}

/// A post that was received is the one of host 0 for terminal 5.
fn is_post(rt: &impl Abort, alloc: Global, post: Option<Post>) {
    let post = post.expect(rt, "a post");
    assert_eq!(rt; post.host, 0);
    prints(rt, alloc, &HostActionText(&post.action), "5 fault on");
}

/// What comes of the posts for a mailbox of one: the first, for another terminal, and the third come back, and the
/// second is received, and nothing behind it.
fn are_answers(
    rt: &impl Abort,
    alloc: Global,
    posted: (
        Result<(), PostError>,
        Result<(), PostError>,
        Result<(), PostError>,
    ),
    received: (Option<Post>, Option<Post>),
) {
    let (none, kept, full) = posted;
    let (first, second) = received;
    let is_right = kept.is_ok() && second.is_none();
    assert!(rt; is_right);
    is_back(rt, alloc, none, "E3", "6 service on");
    is_back(rt, alloc, full, "E4", "5 service on");
    is_post(rt, alloc, first);
}

/// A mailbox of one post for terminal 5: a second post comes back, and so does one for terminal 6.
#[test]
fn what_comes_back(rt: HostRuntime) -> Result<(), Fail> {
    let job = job_of(&rt, rt.alloc(), 1, 1, &TO_FIVE);
    let (mailbox, mut poster, inbox) = Mailbox::make(rt.alloc(), &job, 1)?;
    let none = mailbox.post(&rt, &mut poster, 0, of_terminal(6, Action::Service(true)));
    let kept = mailbox.post(&rt, &mut poster, 0, of_terminal(5, Action::Fault(true)));
    let full = mailbox.post(&rt, &mut poster, 0, of_terminal(5, Action::Service(true)));
    let (poster, inbox, first) = mailbox.settle(&rt, poster, inbox);
    let (_, _, second) = mailbox.settle(&rt, poster, inbox);
    are_answers(&rt, rt.alloc(), (none, kept, full), (first, second));
    Ok(())
}
