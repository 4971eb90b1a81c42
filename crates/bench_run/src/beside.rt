//! A channel's thread of a job in a live run, where lines of the job are by time or by command: in front of each
//! message what is due is done first, then posts are placed, and then the faults that are due are planned.
ghost use Rattle.bc_machine.specs.NextMessage.{coming_talk};
ghost use Rattle.bc_machine.specs.declared.Stepped.TheVariants.{Halted};
ghost use Rattle.bc_machine.specs.Running.{HasEnded};
ghost use Rattle.bench_mail.specs.Mail.{IsInboxOf};
ghost use Rattle.bench_run.specs.Beside.{Arrives, HasRoom, StepsOn, records_told};
ghost use Rattle.bench_run.specs.Runs.{records_of};
ghost use Rattle.bench_run.specs.Threads.{MayOffer, Offered, RecordsOfferedSoFar};
ghost use Rattle.bench_run.specs.declared.channel.Course.TheVariants.{AsItComes};
ghost use Rattle.bench_settings.specs.Placing.{IsOrdered};
ghost use Rattle.ch11_f1.specs.declared.Record.{Record};
ghost use Rattle.job_file.specs.Jobs.{JobState};
ghost use Rattle.job_file.specs.Resolving.{IsKept, MayPlan};
ghost use Rattle.job_file.specs.Timed.{coming_met};
ghost use Rattle.mil_trunk.specs.Ends.{tags_of, bounds_of};
ghost use Rattle.mil_trunk.specs.Tags.{has, bound_of};
ghost use Rattle.std.specs.List.{AllByRecursion};
ghost use Rattle.std.specs.Prelude.{◌≡◌, ◌≢◌, ◌<◌, ◌≤◌, ◌+◌, ◌^◌, ◌&&◌, ◌||◌, ◌∷◌, [], true, false, length};
ghost use Rattle.std.specs.Prelude.{slice_get, vec_capacity, Some, None, IfOk};

use crate::channel::{Context, Ended, Way, offer_message};
use crate::entry::Entry;
use crate::finishing::{cut_off, finish, outcome_of};
use crate::gate::Gate;
use crate::posting::Posts;
use bc_machine::{Stepped, next_message_is_sent};
use ch11_recording::record_fits;
use job_file::{JobRun, job_runs};
use mil_trunk::Ticket;
use std::alloc::AllocError;
use std::sync::Wait;

/// Whether a message comes next.
fn comes_next(run: &JobRun) -> bool
    requires { IsKept run.now }
    ensures some { result ≡ true → coming_talk run.now.machine ≢ None }
    ensures none { result ≡ false → coming_met run.now.machine ≡ None }
{
    run.next().is_some()
}

/// Whether one of the two is so.
fn one_of(first: bool, second: bool) -> bool
    ensures { result ≡ (first || second) }
{
    first || second
}

/// Whether both are so.
fn both_of(first: bool, second: bool) -> bool
    ensures { result ≡ (first && second) }
{
    first && second
}

/// Does all that is due in front of the next message. Where one comes next, and where none comes any more, posts are
/// taken behind it. Whether it was there.
fn arrive<R: Wait, G: Gate>(
    context: &Context<'_, R, G>,
    way: &Way<'_>,
    run: &mut JobRun,
    posts: &mut Posts,
    ended: bool,
) -> bool
    requires kept { IsKept run.old }
    requires ended { ended ≡ true → HasEnded run.old.machine }
    requires room { HasRoom run.old posts.old }
    requires inbox { IsInboxOf way.now.mailbox.now posts.old.inbox }
    requires ordered { IsOrdered posts.old.ordered.actions }
    ensures arrives { Arrives result run.old run.new posts.old posts.new }
    ensures stands { ended ≡ true → result ≡ true }
    ensures inbox { IsInboxOf way.now.mailbox.now posts.new.inbox }
    ensures ordered { IsOrdered posts.new.ordered.actions }
{
    run.arrange();
    let comes = comes_next(run);
    let stands = one_of(ended, comes);
    if !stands {
        return false;
    }
    let channel = way.job.channel();
    context.gate.before_tick(channel, run.machine.bus().now());
    context
        .gate
        .before_message(channel, run.machine.number() + 1);
    posts.place_all(context.rt, way.mailbox, &mut run.machine);
    true
}

/// Plans the faults that are due, and lets the controller step. It fails for want of memory alone.
fn step_on(run: &mut JobRun) -> Result<Stepped, AllocError>
    requires kept { IsKept run.old }
    requires planned { MayPlan run.old }
    ensures { IfOk result (λ answer. StepsOn answer run.old run.new) }
{
    run.plan()?;
    Ok(run.step())
}

/// Whether a step found the end.
fn is_halted(answer: &Stepped) -> bool
    ensures yes { result ≡ true → answer.now ≡ Halted }
    ensures no { result ≡ false → answer.now ≢ Halted }
{
    matches!(answer, Stepped::Halted)
}

/// Offers the message of a step, if it sent one, where so many were made before.
fn offer_sent<R: Wait, G: Gate>(
    context: &Context<'_, R, G>,
    way: &Way<'_>,
    made: u32,
    answer: Stepped,
    ticket: &mut Ticket<Entry>,
    refused: &mut Vec<u32>,
)
    requires so_far { (live : JobState)
        × RecordsOfferedSoFar context.now.trunk.now (tags_of ticket.old) (bounds_of ticket.old) way.now.index live
        made ticket.old refused.old.items }
    requires tag { has (tags_of ticket.old) way.now.index ≡ true }
    requires bound { made + length (records_told answer) < bound_of (bounds_of ticket.old) way.now.index }
    requires made { made ≤ 1000000 }
    requires room { made + length (records_told answer) ≤ vec_capacity refused.old }
    requires small { AllByRecursion (λ (r : Record). r.stamp < 2 ^ 48) (records_told answer) }
    ensures so_far { (live : JobState)
        → RecordsOfferedSoFar context.now.trunk.now (tags_of ticket.old) (bounds_of ticket.old) way.now.index live
        made ticket.old refused.old.items
        → ((r : Record) → records_told answer ≡ r ∷ [] → slice_get (records_of live) made ≡ Some r)
        → RecordsOfferedSoFar context.now.trunk.now (tags_of ticket.old) (bounds_of ticket.old) way.now.index live
        (made + length (records_told answer)) ticket.new refused.new.items }
    ensures room { vec_capacity refused.new ≡ vec_capacity refused.old }
{
    match answer {
        Stepped::Sent(record) | Stepped::Inserted(record) => {
            record_fits(&record);
            offer_message(
                context,
                way.index,
                way.job,
                made + 1,
                record,
                ticket,
                refused,
            );
        }
        Stepped::Ran | Stepped::Halted => {}
    }
}

/// Runs a job's controller to its end, with posts and with what its lines say by time and by command as it comes to be
/// due. It takes no lock, and memory for the faults that are due, and for the report; where that is refused, the
/// channel ends there.
pub(crate) fn as_it_comes<R: Wait, G: Gate>(
    context: &Context<'_, R, G>,
    way: &Way<'_>,
    ticket: Ticket<Entry>,
    run: JobRun,
    refused: Vec<u32>,
    posts: Posts,
) -> Ended
    requires { MayOffer context.now.trunk.now ticket way.now.index way.now.job.now way.now.mailbox.now
        (record { is_live = way.now.is_live; course = AsItComes run; refused = refused; posts = posts }) }
    ensures { Offered context.now.trunk.now ticket way.now.index way.now.is_live way.now.job.now way.now.mailbox.now
        posts.left posts.inbox result }
{
    let (mut run, mut ticket, mut refused, mut posts) = (run, ticket, refused, posts);
    // A job's script is sound by its type.
    let _sound = way.job.program();
    // The laws of a job's records, and of the message that comes next, for the proofs.
    job_runs();
    next_message_is_sent();
    let (mut ended, mut done) = (false, false);
    'turns: while !done {
        let stands = arrive(context, way, &mut run, &mut posts, ended);
        let made = run.machine.number();
        let Ok(answer) = step_on(&mut run) else {
            return finish(context, way, ticket, cut_off(made, refused, posts));
        };
        ended = is_halted(&answer);
        done = both_of(ended, stands);
        offer_sent(context, way, made, answer, &mut ticket, &mut refused);
    }
    finish(context, way, ticket, outcome_of(run, refused, posts))
}
