//! The end of a channel's thread.
ghost use Rattle.bc_machine.specs.declared.placed.Placed.{Placed};
ghost use Rattle.bench_report.specs.Reports.{Rises};
ghost use Rattle.bench_settings.specs.Placing.{placed_up_to, IsOrdered};
ghost use Rattle.bench_run.specs.declared.entry.Entry.TheVariants.{End};
ghost use Rattle.mil_trunk.specs.Ends.{IsTicketOf, tags_of, bounds_of, sent};
ghost use Rattle.mil_trunk.specs.Tags.{has, bound_of};
ghost use Rattle.std.specs.Prelude.{◌≡◌, ◌<◌, ◌≤◌, ◌++◌, ◌∷◌, [], true, false, length, List};

use crate::channel::{Context, Ended, Way, offer_end};
use crate::entry::Entry;
use crate::gate::Gate;
use crate::posting::Posts;
use crate::reporting::reported;
use bc_machine::Actions;
use bench_mail::Inbox;
use bench_settings::channel_report;
use job_file::JobRun;
use mil_trunk::Ticket;
use std::sync::Wait;

/// What a channel came to: how many messages it made, the numbers of those that came back, its placed actions by rising
/// number, its inbox, and whether it came to the end of its job.
#[derive(Drop)]
pub(crate) struct Outcome {
    pub(crate) made: u32,
    pub(crate) refused: Vec<u32>,
    pub(crate) ordered: Actions,
    pub(crate) inbox: Inbox,
    pub(crate) is_whole: bool,
}

/// Offers the end mark until it is kept, and gives what the thread returns.
pub(crate) fn finish<R: Wait, G: Gate>(
    context: &Context<'_, R, G>,
    way: &Way<'_>,
    ticket: Ticket<Entry>,
    outcome: Outcome,
) -> Ended
    requires ticket { IsTicketOf context.now.trunk.now ticket }
    requires tag { has (tags_of ticket) way.now.index ≡ true }
    requires bound { length (sent ticket) < bound_of (bounds_of ticket) way.now.index }
    requires made { outcome.made ≤ 1000000 }
    requires refused { Rises 0 outcome.made outcome.refused.items }
    requires ordered { IsOrdered outcome.ordered }
    ensures ticket { IsTicketOf context.now.trunk.now result.ticket }
    ensures tags { tags_of result.ticket ≡ tags_of ticket }
    ensures bounds { bounds_of result.ticket ≡ bounds_of ticket }
    ensures sent { sent result.ticket ≡ sent ticket ++ End way.now.index ∷ [] }
    ensures channel { (result.part.channel ≡ way.now.job.now.channel) × (result.part.channel ≤ 65535) }
    ensures made { result.part.made ≡ outcome.made }
    ensures refused { result.part.refused ≡ outcome.refused.items }
    ensures placed { (actions : List Placed) → outcome.ordered ≡ placed_up_to 1000000 actions
        → result.part.placed ≡ placed_up_to outcome.made actions }
    ensures inbox { result.inbox ≡ outcome.inbox }
    ensures is_whole { result.is_whole ≡ outcome.is_whole }
{
    let Outcome {
        made,
        refused,
        ordered,
        inbox,
        is_whole,
    } = outcome;
    let mut ticket = ticket;
    let channel = way.job.channel();
    offer_end(context, way.index, channel, &mut ticket);
    Ended {
        ticket,
        part: channel_report(channel, made, refused, ordered),
        inbox,
        is_whole,
    }
}

/// What a channel came to that was cut off behind so many messages.
pub(crate) fn cut_off(made: u32, refused: Vec<u32>, posts: Posts) -> Outcome
    requires { IsOrdered posts.ordered.actions }
    ensures made { result.made ≡ made }
    ensures refused { result.refused ≡ refused }
    ensures ordered { IsOrdered result.ordered }
    ensures inbox { result.inbox ≡ posts.inbox }
    ensures is_whole { result.is_whole ≡ false }
{
    let Posts { inbox, ordered, .. } = posts;
    Outcome {
        made,
        refused,
        ordered: Actions::of(ordered),
        inbox,
        is_whole: false,
    }
}

/// What a channel came to whose controller came to its end; where memory for the report is refused, it counts as cut
/// off.
pub(crate) fn outcome_of(run: JobRun, refused: Vec<u32>, posts: Posts) -> Outcome
    requires { IsOrdered posts.ordered.actions }
    ensures made { (result.made ≡ run.machine.point.number) × (result.made ≤ 1000000) }
    ensures refused { result.refused ≡ refused }
    ensures ordered { IsOrdered result.ordered }
    ensures inbox { result.inbox ≡ posts.inbox }
    ensures whole { result.is_whole ≡ true → result.ordered ≡ placed_up_to 1000000 run.machine.placed }
{
    let made = run.machine.number();
    let Ok(ordered) = reported(posts.ordered.allocator(), run.machine) else {
        return cut_off(made, refused, posts);
    };
    let Posts { inbox, .. } = posts;
    Outcome {
        made,
        refused,
        ordered,
        inbox,
        is_whole: true,
    }
}
