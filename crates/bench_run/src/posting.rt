//! Posts that a channel's thread takes before a message, and places at it.
ghost use Rattle.bc_machine.specs.Posting.{with_placed, at_next};
ghost use Rattle.bc_machine.specs.UnderWay.{IsUnderWay};
ghost use Rattle.bc_machine.specs.declared.placed.Placed.{Placed};
ghost use Rattle.bench_settings.specs.Placing.{placed_up_to, IsOrdered};
ghost use Rattle.bench_mail.specs.Mail.{IsInboxOf, times_empty};
ghost use Rattle.bench_mail.specs.declared.mailbox.Inbox.{Inbox};
ghost use Rattle.bench_run.specs.Posted.{IsPosted, TakesPosts};
ghost use Rattle.job_file.specs.Jobs.{JobState};
ghost use Rattle.std.specs.Prelude.{◌≡◌, ◌<◌, ◌≤◌, ◌+◌, ◌-◌, ◌^◌, min, ◌++◌, ◌∷◌, [], ℕ, List, IsTrue, IsFalse};

use bc_machine::{HostAction, Machine, Placed, Schedule};
use bench_mail::{Inbox, Mailbox, Post};
use bench_settings::{add_action, is_for_place};
use std::sync::Wait;

/// A channel makes at most so many messages.
const LAST: u32 = 1_000_000;

/// The inbox of a channel, how many posts may still be taken from it, and the actions that are placed, by rising number
/// and with room for those of the posts.
#[derive(Drop)]
pub(crate) struct Posts {
    pub(crate) inbox: Inbox,
    pub(crate) left: u32,
    pub(crate) ordered: Schedule,
}

impl Posts {
    /// Takes posts until the mailbox is empty or as many were taken as may be, and places each at the controller's next
    /// message, behind what is placed there. It takes no memory.
    #[inline]
    pub(crate) fn place_all<R: Wait>(&mut self, rt: &R, mailbox: &Mailbox, machine: &mut Machine)
        requires inbox { IsInboxOf mailbox.now self.old.inbox }
        requires ordered { IsOrdered self.old.ordered.actions }
        ensures inbox { IsInboxOf mailbox.now self.new.inbox }
        ensures ordered { IsOrdered self.new.ordered.actions }
        ensures point { machine.new.point ≡ machine.old.point }
        ensures left { self.new.left ≤ self.old.left }
        ensures emptied { machine.old.point.number < 1000000 → 0 < self.new.left
            → times_empty self.new.inbox ≡ min (times_empty self.old.inbox + 1) (2 ^ 64 - 1) }
        ensures posted { (most : ℕ) (before : Inbox) (job : JobState)
            → IsPosted most before job machine.old self.old → IsPosted most before job machine.new self.new }
        ensures takes { TakesPosts machine.old machine.new self.old self.new }
        ensures under_way { IsUnderWay machine.old → IsUnderWay machine.new }
    {
        if machine.number() >= LAST {
            return;
        }
        'taking: while self.left > 0 {
            let Some(post) = mailbox.take(rt, &mut self.inbox) else {
                return;
            };
            self.left = if self.place(machine, post) {
                self.left - 1
            } else {
                0
            };
        }
    }

    /// Places a post at the controller's next message. False, and nothing was done, where there is no room for it;
    /// there always is.
    fn place(&mut self, machine: &mut Machine, post: Post) -> bool
        requires number { machine.old.point.number < 1000000 }
        requires ordered { IsOrdered self.old.ordered.actions }
        ensures inbox { self.new.inbox ≡ self.old.inbox }
        ensures left { self.new.left ≡ self.old.left }
        ensures ordered { IsOrdered self.new.ordered.actions }
        ensures placed { IsTrue result
            → (machine.new ≡ with_placed machine.old
            (machine.old.placed ++ at_next machine.old post.action ∷ [])) × IsUnderWay machine.new }
        ensures listed { (actions : List Placed) → IsTrue result
            → self.old.ordered.actions ≡ placed_up_to 1000000 actions
            → self.new.ordered.actions
            ≡ placed_up_to 1000000 (actions ++ at_next machine.old post.action ∷ []) }
        ensures same { IsFalse result → (machine.new ≡ machine.old)
            × (self.new.ordered.actions ≡ self.old.ordered.actions) }
    {
        let Post { action, .. } = post;
        if !is_for_place(&action) || self.ordered.len() >= self.ordered.capacity() {
            return false;
        }
        let one = Placed {
            number: machine.number() + 1,
            action: action.copy(),
        };
        match machine.place(action) {
            Ok(()) => {
                add_action(&mut self.ordered, one);
                true
            }
            Err(_) => false,
        }
    }
}
