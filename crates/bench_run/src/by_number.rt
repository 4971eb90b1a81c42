//! A channel's thread of a job whose actions and faults all stand at their numbers.
ghost use Rattle.bench_run.specs.Threads.{MayOffer, Offered};
ghost use Rattle.bench_run.specs.declared.channel.Course.TheVariants.{ByNumber};

use crate::channel::{Context, Ended, Way, offer_message};
use crate::entry::Entry;
use crate::finishing::{Outcome, finish};
use crate::gate::Gate;
use crate::posting::Posts;
use bc_machine::{Actions, Machine};
use ch11_recording::record_fits;
use job_file::{job_runs, next_record};
use mil_trunk::Ticket;
use std::sync::Wait;

/// Runs a job's controller to its end, with posts as they come. It takes no memory and no lock.
pub(crate) fn by_number<R: Wait, G: Gate>(
    context: &Context<'_, R, G>,
    way: &Way<'_>,
    ticket: Ticket<Entry>,
    machine: Machine,
    refused: Vec<u32>,
    posts: Posts,
) -> Ended
    requires { MayOffer context.now.trunk.now ticket way.now.index way.now.job.now way.now.mailbox.now
        (record { is_live = way.now.is_live; course = ByNumber machine; refused = refused; posts = posts }) }
    ensures { Offered context.now.trunk.now ticket way.now.index way.now.is_live way.now.job.now way.now.mailbox.now
        posts.left posts.inbox result }
{
    let (mut machine, mut ticket, mut refused, mut posts) = (machine, ticket, refused, posts);
    let (rt, gate, job) = (context.rt, context.gate, way.job);
    // A job's script is sound by its type.
    let _sound = job.program();
    // The laws of a job's records, for the proofs.
    job_runs();
    'messages: loop {
        gate.before_tick(job.channel(), machine.bus().now());
        gate.before_message(job.channel(), machine.number() + 1);
        posts.place_all(rt, way.mailbox, &mut machine);
        let Some(record) = next_record(&mut machine) else {
            break;
        };
        let number = machine.number();
        record_fits(&record);
        offer_message(
            context,
            way.index,
            job,
            number,
            record,
            &mut ticket,
            &mut refused,
        );
    }
    let made = machine.number();
    let Posts { inbox, ordered, .. } = posts;
    let outcome = Outcome {
        made,
        refused,
        ordered: Actions::of(ordered),
        inbox,
        is_whole: true,
    };
    finish(context, way, ticket, outcome)
}
