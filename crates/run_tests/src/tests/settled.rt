//! Posts that a live run did not take are in the mailbox behind it, in their order.
ghost use Rattle.bench_mail.specs.Mail.{IsInboxOf};
ghost use Rattle.bench_run.specs.Live.{AreInboxesOf};
ghost use Rattle.run_tests.specs.Hosts.{HasPosted};
ghost use Rattle.std.specs.Prelude.{◌≡◌, [], ◌∷◌};

use crate::tests::fixtures::{Bench, bench_of};
use crate::tests::gates::{OrderingGate, Rules};
use crate::tests::hosts::{alone, lives_beside, taking};
use crate::tests::posting::of_terminal;
use bc_machine::HostAction;
use bench_mail::{Inbox, Mailbox, Post, Poster};
use job_file::Job;
use mil_host::Action;
use std::alloc::Global;
use std::process::Abort;
use std::sync::Wait;
use std::thread::Threads;

/// Three messages to terminal 5.
const THREE: &str = "channel 1\nterminal 5\nscript\nrepeat 3 { send A mode 5 1 }\n";

/// How many posts a run takes at most, and the vector words that are in the mailbox behind it, where 1, 2 and 3 were
/// posted.
const ROWS: [(u32, [Option<u16>; 4]); 3] = [
    (0, [Some(1), Some(2), Some(3), None]),
    (2, [Some(3), None, None, None]),
    (3, [None, None, None, None]),
];

/// The mailbox of a job, the poster of all hosts, and the inbox.
fn mail_of(rt: &impl Abort, alloc: Global, job: &Job) -> (Mailbox, Poster, Inbox)
    ensures poster { HasPosted 0 result.0 result.1 }
    ensures inbox { IsInboxOf result.0 result.2 }
{
    let made = Mailbox::make(alloc, job, 4);
    made.ok().expect(rt, "a mailbox")
}

/// Host 0 waits until message 2 is held, posts the vector words 1, 2 and 3 for terminal 5, and lets the message go.
fn post_three<R: Wait + Abort>(
    rt: &R,
    gate: &OrderingGate,
    mailbox: &Mailbox,
    poster: Poster,
) -> Poster
    requires { HasPosted 0 mailbox.now poster }
    ensures { HasPosted 3 mailbox.now result }
{
    gate.wait_for_hold();
    let mut poster = poster;
    for word in 0..3u16 {
        let vector = Action::Vector(word + 1);
        let answer = mailbox.post(rt, &mut poster, 0, of_terminal(5, vector));
        assert!(rt; answer.is_ok());
        gate.tell_posted();
    }
    poster
}

/// The host posts beside the run: its poster, and the inboxes that came back.
fn run_beside<R: Threads + Wait + Abort + Sync>(
    rt: &R,
    alloc: Global,
    bench: &Bench,
    boxes: &[Mailbox],
    mailbox: &Mailbox,
    poster: Poster,
    inbox: Inbox,
) -> (Poster, Vec<Inbox>)
    requires boxes { boxes.now ≡ mailbox.now ∷ [] }
    requires poster { HasPosted 0 mailbox.now poster }
    requires inbox { IsInboxOf mailbox.now inbox }
    ensures poster { HasPosted 3 mailbox.now result.0 }
    ensures inboxes { AreInboxesOf boxes.now result.1.items }
{
    let gate = OrderingGate::by(Rules::UntilThreePosts);
    let held = &gate;
    let inboxes = alone(rt, alloc, inbox);
    let host = move || -> Poster
        requires { HasPosted 0 mailbox.now poster }
        ensures { HasPosted 3 mailbox.entry.now result }
    { post_three(rt, held, mailbox, poster) };
    let (poster, (_, inboxes, _)) = lives_beside(rt, alloc, bench, boxes, inboxes, held, host);
    (poster, inboxes)
}

/// The inbox of the first mailbox, of those that came back.
fn first_of(rt: &impl Abort, boxes: &[Mailbox], mailbox: &Mailbox, inboxes: Vec<Inbox>) -> Inbox
    requires boxes { boxes.now ≡ mailbox.now ∷ [] }
    requires inboxes { AreInboxesOf boxes.now inboxes.items }
    ensures { IsInboxOf mailbox.now result }
{
    let (_boxes, _mailbox) = (boxes, mailbox);
    let mut inboxes = inboxes.into_iter();
    inboxes.next().expect(rt, "an inbox")
}

/// Whether a post is of host 0, for terminal 5, and sets this vector word; or there is none, where there is no word.
fn sets_word(post: &Option<Post>, word: Option<u16>) -> bool {
    match (post, word) {
        (Some(post), Some(word)) => {
            post.host == 0
                && matches!(
                    &post.action,
                    HostAction::Terminal {
                        address: 5,
                        action: Action::Vector(set),
                    } if *set == word
                )
        }
        (None, None) => true,
        _ => false,
    }
}

/// How many of the posts that are received one after another are those of these words.
fn settled<R: Wait>(
    rt: &R,
    mailbox: &Mailbox,
    poster: Poster,
    inbox: Inbox,
    words: &[Option<u16>],
) -> u32
    requires poster { HasPosted 3 mailbox.now poster }
    requires inbox { IsInboxOf mailbox.now inbox }
{
    let mut ends = (poster, inbox);
    let mut right = 0u32;
    for word in words {
        let (poster, inbox, post) = mailbox.settle(rt, ends.0, ends.1);
        if sets_word(&post, *word) {
            right = right.saturating_add(1);
        }
        ends = (poster, inbox);
    }
    right
}

/// After a live run, how many of the posts that are received are those of these words.
fn left_behind<R: Threads + Wait + Abort + Sync>(
    rt: &R,
    alloc: Global,
    bench: &Bench,
    words: &[Option<u16>],
) -> u32 {
    let job = bench.jobs.first().expect(rt, "a job");
    let (mailbox, poster, inbox) = mail_of(rt, alloc, job);
    let boxes = alone(rt, alloc, mailbox);
    let mailbox = boxes.first().expect(rt, "a mailbox");
    let (poster, inboxes) = run_beside(rt, alloc, bench, &boxes, mailbox, poster, inbox);
    let inbox = first_of(rt, &boxes, mailbox, inboxes);
    settled(rt, mailbox, poster, inbox, words)
}

#[test]
fn what_was_not_taken_is_received(rt: HostRuntime) {
    for (posts, words) in ROWS {
        let bench = taking(bench_of(&rt, rt.alloc(), &[THREE], 4096), posts);
        let right = left_behind(&rt, rt.alloc(), &bench, &words);
        assert_eq!(rt; right, 4, "with {posts} posts taken");
    }
}
