//! The queue of inserted messages: where its head stands, and how many wait.
ghost use Rattle.bc_machine.specs.Agendas.{IsCursor, IsHead, inserts_among};
ghost use Rattle.bc_machine.specs.Asking.{IsInsertAt};
ghost use Rattle.bc_machine.specs.Hosting.{first_of, inserted_in, next_insertion, placed_at, queue_at};
ghost use Rattle.bc_machine.specs.Schedules.{MayControl};
ghost use Rattle.std.specs.Prelude.{◌≡◌, ◌<◌, ◌≤◌, ◌+◌, ◌^◌, [], length, drop, IfSome, IfNone};

use crate::agenda::{Agenda, Cursor};
use crate::beside::Inserted;
use crate::schedule::one_of;
use controller_host::Insertion;

impl Agenda {
    /// Whether the host of the controller may have asked for something.
    pub(crate) fn has_controls(&self) -> bool
        ensures { MayControl result self.now.placed }
    {
        one_of(self.placed.has_controls(), self.posted.has_controls())
    }

    /// The first insert at a number behind so many of its actions, and how many of these stand in front of it.
    fn insert_at(&self, number: u32, passed: usize) -> Option<(usize, Inserted<'_>)>
        ensures there { IfSome result (λ x. IsInsertAt (placed_at number self.now.placed) passed x.0 x.1) }
        ensures none { IfNone result (inserts_among (drop passed (placed_at number self.now.placed)) ≡ []) }
    {
        // It stands behind fewer actions than there are.
        let _count = self.count();
        if let Some(found) = self.placed.insert_at(number, passed) {
            return Some(found);
        }
        if self.posted.len() == 0 {
            return None;
        }
        let own = self.placed.count_at(number);
        match self.posted.insert_at(number, passed.saturating_sub(own)) {
            Some((place, insertion)) => Some((own + place, insertion)),
            None => None,
        }
    }

    /// Where the next insert stands behind a cursor, at numbers up to that of the next message.
    fn head_from(&self, cursor: Cursor, last: u32) -> Option<Cursor>
        requires cursor { IsCursor cursor self.now.placed self.now.made }
        requires last { last ≡ length self.now.made + 1 }
        requires bound { last ≤ 2 ^ 31 }
        ensures there { IfSome result (λ c. IsHead c self.now.placed self.now.made) }
        ensures none { IfNone result (queue_at (length self.now.made + 1) self.now.placed self.now.made ≡ []) }
    {
        let mut passed = cursor.passed;
        for number in cursor.number..last + 1 {
            if let Some((place, _)) = self.insert_at(number, passed) {
                return Some(Cursor {
                    number,
                    passed: place,
                });
            }
            passed = 0;
        }
        None
    }

    /// Where the head of the queue stands, as the next message meets it.
    pub(crate) fn head(&self) -> Option<Cursor>
        requires { length self.now.made < 2 ^ 31 }
        ensures there { IfSome result (λ c. IsHead c self.now.placed self.now.made) }
        ensures none { IfNone result (queue_at (length self.now.made + 1) self.now.placed self.now.made ≡ []) }
    {
        let last = self.number + 1;
        self.head_from(self.cursor, last)
    }

    /// The message of the host that comes next, where one does and at most so many are inserted. The cursor is moved to
    /// it, so that what was looked at is not looked at again.
    pub fn next_insertion(&mut self, most: u64) -> Option<Insertion>
        requires { length self.old.made < 2 ^ 31 }
        ensures value { result ≡ next_insertion self.old.placed most self.old.made }
        ensures same { self.new ≡ self.old }
    {
        if !self.has_controls() {
            return None;
        }
        if u64::from(self.inserted()) >= most {
            return None;
        }
        match self.head() {
            Some(head) => {
                let next = self.at(head);
                self.move_to(head);
                next
            }
            None => {
                self.pass_by();
                None
            }
        }
    }

    /// How many of the messages made were inserted.
    fn inserted(&self) -> u32
        ensures { result ≡ inserted_in self.now.made }
    {
        self.inserted
    }

    /// Moves the cursor to the head of the queue.
    fn move_to(&mut self, head: Cursor)
        requires { IsHead head self.old.placed self.old.made }
        ensures { self.new ≡ self.old }
    {
        self.cursor = head;
    }

    /// The message at the head of the queue.
    fn at(&self, head: Cursor) -> Option<Insertion>
        requires { IsHead head self.now.placed self.now.made }
        ensures { result ≡ first_of (queue_at (length self.now.made + 1) self.now.placed self.now.made) }
    {
        match self.insert_at(head.number, head.passed) {
            Some((_, inserted)) => Some(inserted.insertion()),
            None => None,
        }
    }

    /// Goes on to the number of the next message, where no insert waits.
    fn pass_by(&mut self)
        requires bound { length self.old.made < 2 ^ 31 }
        requires none { queue_at (length self.old.made + 1) self.old.placed self.old.made ≡ [] }
        ensures { self.new ≡ self.old }
    {
        if self.number < self.cursor.number {
            return;
        }
        let number = self.number + 1;
        self.cursor = Cursor { number, passed: 0 };
    }

    /// The same, where nothing is moved.
    pub fn coming_insertion(&self, most: u64) -> Option<Insertion>
        requires { length self.now.made < 2 ^ 31 }
        ensures { result ≡ next_insertion self.now.placed most self.now.made }
    {
        if !self.has_controls() {
            return None;
        }
        if u64::from(self.inserted()) >= most {
            return None;
        }
        match self.head() {
            Some(head) => self.at(head),
            None => None,
        }
    }

    /// How many inserted messages wait: those that the actions at the numbers made so far put in, less those that were
    /// sent.
    pub fn queued(&self) -> u64
        ensures { result ≡ length (queue_at (length self.now.made) self.now.placed self.now.made) }
    {
        // There are no more of them than actions.
        let _count = self.count();
        let put = self.placed.inserts_up_to(self.number) + self.posted.inserts_up_to(self.number);
        put.saturating_sub(u64::from(self.inserted))
    }
}
