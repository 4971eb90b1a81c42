//! The queue, its tickets and its taker.
ghost use Rattle.mil_trunk.specs.Ends.{IsCapacity, IsTicketOf, IsTakerOf, capacity_of, bounds_of, bounds_in, tags_of};
ghost use Rattle.mil_trunk.specs.Ends.{sent, received};
ghost use Rattle.mil_trunk.specs.Tags.{has, all_tags, minus, bound_of, bounds_outside, Includes};
ghost use Rattle.mil_trunk.specs.Views.{with_tag, inside, outside};
ghost use Rattle.std.specs.Prelude.{◌||◌, All, IfOk, OnOk, IfErr, OnErr, IfSome, IfNone};
ghost use Rattle.std.specs.Prelude.{◌≡◌, ◌<◌, ◌≤◌, ◌+◌, ◌^◌, ◌↔◌, ◌⊎◌, ◌++◌, ◌∷◌, [], ℕ, true, length, sum, not, ◌&&◌};

use crate::error::TrunkError;
use crate::rule::{
    Begin, BothEnds, Bounding, Offer, Part, Parting, SentAndReceived, Settle, Take, Tickets, View,
};
use crate::tags::{Tagged, Tags};
use crossbeam_queue::{Pass, RuledArrayQueue};
use std::alloc::{AllocError, Global};
use std::marker::Brand;
use std::sync::Wait;

/// A bounded queue of items: any number of tickets push into it, and one taker pops from it.
///
/// Threads share it by reference. Each owns its tickets, or the taker, and uses them with this trunk alone.
#[derive(Drop)]
pub struct Trunk<T: Tagged> {
    queue: RuledArrayQueue<T, View<T>, SentAndReceived<T>>,
}

/// The right to send items of some tags. It has no bytes: its tags, and the list of what was sent with it, are known to
/// contracts alone.
#[derive(Drop)]
pub struct Ticket<T: Tagged> {
    pass: Pass<T, View<T>>,
}

/// The right to receive items. It has no bytes: the list of what was received with it is known to contracts alone.
#[derive(Drop)]
pub struct Taker<T: Tagged> {
    pass: Pass<T, View<T>>,
}

impl<T: Tagged> Trunk<T> {
    /// An empty trunk of `capacity` items, the ticket with all tags 0 to 63, and the taker. All its memory is taken
    /// here.
    ///
    /// At most `bounds[t]` items of tag t may ever be sent, and none where `bounds` ends before t. `Q1` comes where the
    /// capacity is outside 1 to 4096, before any memory is asked for, and `Q2` where memory is refused.
    ///
    /// By the bounds of 2^55 (own choice) fewer than 2^62 items are ever sent: past that number the queue below would
    /// wait for ever.
    pub fn make(
        alloc: Global,
        capacity: u32,
        bounds: &[u64],
    ) -> Result<(Trunk<T>, Ticket<T>, Taker<T>), TrunkError>
        requires few { length bounds.now ≤ 64 }
        requires low { All (λ bound. bound ≤ 2 ^ 55) bounds.now }
        ensures ends { IfOk result (λ r. IsTicketOf r.0 r.1 × IsTakerOf r.0 r.2) }
        ensures capacity { IfOk result (λ r. capacity_of r.0 ≡ capacity) }
        ensures bounds { IfOk result (λ r. bounds_of r.1 ≡ bounds.now) }
        ensures tags { IfOk result (λ r. (t : ℕ) → t < 64 → has (tags_of r.1) t ≡ true) }
        ensures sent { IfOk result (λ r. sent r.1 ≡ []) }
        ensures received { IfOk result (λ r. received r.2 ≡ []) }
        ensures bounds_in { IfOk result (λ r. bounds_in r.2 ≡ bounds.now) }
        ensures lawful { OnOk result (IsCapacity capacity) }
        ensures refused { (result ≡ Err TrunkError.Capacity) ↔ ((capacity < 1) ⊎ (4096 < capacity)) }
    {
        if capacity < 1 || capacity > 4096 {
            return Err(TrunkError::Capacity);
        }
        match Trunk::begin::<Brand>(alloc, capacity, bounds) {
            Ok(ends) => Ok(ends),
            Err(AllocError) => Err(TrunkError::Memory),
        }
    }

    fn begin<B: Bounding>(
        alloc: Global,
        capacity: u32,
        bounds: &[u64],
    ) -> Result<(Trunk<T>, Ticket<T>, Taker<T>), AllocError>
        requires capacity { 0 < capacity }
        requires bounds { B.bounds ≡ bounds.now }
        ensures ends { IfOk result (λ r. IsTicketOf r.0 r.1 × IsTakerOf r.0 r.2) }
        ensures capacity { IfOk result (λ r. capacity_of r.0 ≡ capacity) }
        ensures bounds { IfOk result (λ r. bounds_of r.1 ≡ bounds.now) }
        ensures tags { IfOk result (λ r. tags_of r.1 ≡ all_tags) }
        ensures sent { IfOk result (λ r. sent r.1 ≡ []) }
        ensures received { IfOk result (λ r. received r.2 ≡ []) }
        ensures bounds_in { IfOk result (λ r. bounds_in r.2 ≡ bounds.now) }
    {
        let (queue, mut pass) = RuledArrayQueue::ruled(alloc, capacity as usize)?;
        let end = queue.another::<Begin<B>>(&mut pass);
        Ok((Trunk { queue }, Ticket { pass }, Taker { pass: end }))
    }

    /// Parts off a ticket with some of a ticket's tags, and with what was sent of these.
    pub fn split(&self, ticket: &mut Ticket<T>, tags: Tags) -> Ticket<T>
        requires ticket { IsTicketOf self.now ticket.old }
        requires tags { Includes (tags_of ticket.old) tags }
        ensures tickets { IsTicketOf self.now ticket.new × IsTicketOf self.now result }
        ensures gone { (t : ℕ) → has (tags_of ticket.new) t ≡ (has (tags_of ticket.old) t && not (has tags t)) }
        ensures given { tags_of result ≡ tags }
        ensures bounds { (bounds_of ticket.new ≡ bounds_of ticket.old) × (bounds_of result ≡ bounds_of ticket.old) }
        ensures sent { sent ticket.new ≡ outside T.tag_of tags (sent ticket.old) }
        ensures sent_of_given { sent result ≡ inside T.tag_of tags (sent ticket.old) }
    {
        self.part::<Brand>(ticket, tags)
    }

    fn part<P: Parting>(&self, ticket: &mut Ticket<T>, tags: Tags) -> Ticket<T>
        requires picked { P.tags ≡ tags }
        requires ticket { IsTicketOf self.now ticket.old }
        requires tags { Includes (tags_of ticket.old) tags }
        ensures tickets { IsTicketOf self.now ticket.new × IsTicketOf self.now result }
        ensures gone { tags_of ticket.new ≡ minus (tags_of ticket.old) tags }
        ensures given { tags_of result ≡ tags }
        ensures bounds { (bounds_of ticket.new ≡ bounds_of ticket.old) × (bounds_of result ≡ bounds_of ticket.old) }
        ensures sent { sent ticket.new ≡ outside T.tag_of tags (sent ticket.old) }
        ensures sent_of_given { sent result ≡ inside T.tag_of tags (sent ticket.old) }
    {
        // Only proofs know the tags of a ticket.
        let _ = tags;
        let pass = self.queue.another::<Part<T, P>>(&mut ticket.pass);
        Ticket { pass }
    }

    /// Adds the tags of another ticket to a ticket, and what was sent with it.
    pub fn take_in(&self, ticket: &mut Ticket<T>, other: Ticket<T>)
        requires { IsTicketOf self.now ticket.old × IsTicketOf self.now other }
        ensures ticket { IsTicketOf self.now ticket.new }
        ensures tags { (t : ℕ) → has (tags_of ticket.new) t ≡ (has (tags_of ticket.old) t || has (tags_of other) t) }
        ensures bounds { bounds_of ticket.new ≡ bounds_of ticket.old }
        ensures sent { sent ticket.new ≡ sent ticket.old ++ sent other }
    {
        let Ticket { pass } = other;
        self.queue.absorb::<Tickets>(&mut ticket.pass, pass);
    }

    /// Sends an item: it joins the queue at the back. It comes back where the queue was full at one moment of the call.
    pub fn offer<R: Wait>(&self, rt: &R, ticket: &mut Ticket<T>, item: T) -> Result<(), T>
        requires ticket { IsTicketOf self.now ticket.old }
        requires tag { has (tags_of ticket.old) (T.tag_of item) ≡ true }
        requires bound { length (with_tag T.tag_of (T.tag_of item) (sent ticket.old))
            < bound_of (bounds_of ticket.old) (T.tag_of item) }
        ensures ticket { IsTicketOf self.now ticket.new }
        ensures tags { tags_of ticket.new ≡ tags_of ticket.old }
        ensures bounds { bounds_of ticket.new ≡ bounds_of ticket.old }
        ensures kept { OnOk result (sent ticket.new ≡ sent ticket.old ++ item ∷ []) }
        ensures back { IfErr result (λ back. back ≡ item) }
        ensures not_sent { OnErr result (sent ticket.new ≡ sent ticket.old) }
        ensures full { OnErr result
            (capacity_of self.now ≤ length (sent ticket.old)
            + bounds_outside (tags_of ticket.old) (bounds_of ticket.old)) }
    {
        self.queue.push_as::<Offer, R>(rt, &mut ticket.pass, item)
    }

    /// Receives the item at the front, or None where the queue was empty at one moment of the call.
    pub fn take<R: Wait>(&self, rt: &R, taker: &mut Taker<T>) -> Option<T>
        requires { IsTakerOf self.now taker.old }
        ensures taker { IsTakerOf self.now taker.new }
        ensures taken { IfSome result (λ item. received taker.new ≡ received taker.old ++ item ∷ []) }
        ensures none { IfNone result (received taker.new ≡ received taker.old) }
        ensures bounds { bounds_in taker.new ≡ bounds_in taker.old }
        ensures few { IfSome result (λ item. length (received taker.new) ≤ sum (bounds_in taker.old)) }
    {
        self.queue.pop_as::<Take, R>(rt, &mut taker.pass)
    }

    /// Receives as `take` does, with the ticket that holds all tags. None says that all that was sent was received.
    pub fn settle<R: Wait>(
        &self,
        rt: &R,
        ticket: Ticket<T>,
        taker: Taker<T>,
    ) -> (Ticket<T>, Taker<T>, Option<T>)
        requires ends { IsTicketOf self.now ticket × IsTakerOf self.now taker }
        requires all { (t : ℕ) → t < 64 → has (tags_of ticket) t ≡ true }
        ensures ends { IsTicketOf self.now result.0 × IsTakerOf self.now result.1 }
        ensures tags { tags_of result.0 ≡ tags_of ticket }
        ensures bounds { bounds_of result.0 ≡ bounds_of ticket }
        ensures sent { sent result.0 ≡ sent ticket }
        ensures taken { IfSome result.2 (λ item. received result.1 ≡ received taker ++ item ∷ []) }
        ensures none { IfNone result.2 (received result.1 ≡ received taker) }
        ensures bounds_in { bounds_in result.1 ≡ bounds_of ticket }
        ensures few { IfSome result.2 (λ item. length (received result.1) ≤ sum (bounds_of ticket)) }
        ensures settled { IfNone result.2
            ((t : ℕ) → t < 64 → with_tag T.tag_of t (sent result.0) ≡ with_tag T.tag_of t (received result.1)) }
        ensures barred { IfNone result.2
            ((t : ℕ) → bound_of (bounds_of ticket) t ≡ 0 → with_tag T.tag_of t (received result.1) ≡ []) }
    {
        let Ticket { mut pass } = ticket;
        let Taker { pass: end } = taker;
        self.queue.absorb::<BothEnds>(&mut pass, end);
        let taken = self.queue.pop_as::<Settle<T>, R>(rt, &mut pass);
        let end = self.queue.another::<BothEnds>(&mut pass);
        (Ticket { pass }, Taker { pass: end }, taken)
    }
}
