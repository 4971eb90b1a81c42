//! Which steps may be taken.
ghost use Rattle.bench_core.specs.World.{AreFewPosts};
ghost use Rattle.bench_core.specs.World.{IsBenchStep, AreSteps, IsForTerminal, AreForTerminals, is_post_for, posts_for};
ghost use Rattle.std.specs.Prelude.{◌≡◌, ◌↔◌, ◌+◌, ◌≤◌, IsTrue};

use crate::step::Step;
use crate::stepped_channel::SteppedChannel;

/// Whether a step of a channel is of one of so many.
fn is_step(channels: usize, step: &Step) -> bool
    ensures { IsTrue result ↔ IsBenchStep channels step.now }
{
    match step {
        Step::Offer(index) | Step::Post(index, _) => usize::from(*index) < channels,
        Step::Take => true,
    }
}

/// Whether each step of a channel is of one of so many.
pub(crate) fn are_steps(channels: usize, steps: &[Step]) -> bool
    ensures { IsTrue result ↔ AreSteps channels steps.now }
{
    for step in steps {
        if !is_step(channels, step) {
            return false;
        }
    }
    true
}

/// Whether what a step posts is for a terminal of its channel.
fn is_for_terminal(channels: &[SteppedChannel], step: &Step) -> bool
    ensures { IsTrue result ↔ IsForTerminal channels.now step.now }
{
    match step {
        Step::Post(index, action) => match channels.get(usize::from(*index)) {
            Some(channel) => channel.may_post(action),
            None => false,
        },
        Step::Offer(_) | Step::Take => true,
    }
}

/// Whether all that is posted is for terminals of the channels.
pub(crate) fn are_for_terminals(channels: &[SteppedChannel], steps: &[Step]) -> bool
    ensures { IsTrue result ↔ AreForTerminals channels.now steps.now }
{
    for step in steps {
        if !is_for_terminal(channels, step) {
            return false;
        }
    }
    true
}

/// Whether a step posts an action for the channel at an index.
fn is_post_for(index: usize, step: &Step) -> bool
    ensures { result ≡ is_post_for index step.now }
{
    match step {
        Step::Post(channel, _) => usize::from(*channel) == index,
        Step::Offer(_) | Step::Take => false,
    }
}

/// How many of the steps post an action for the channel at an index.
fn posts_for(index: usize, steps: &[Step]) -> usize
    ensures { result ≡ posts_for index steps.now }
{
    let mut count = 0;
    for step in steps {
        if is_post_for(index, step) {
            count += 1;
        }
    }
    count
}

/// Whether so many posts and so many more are at most `most`.
fn has_few_posts(most: u32, posts: u32, more: usize) -> bool
    ensures { IsTrue result ↔ (posts + more ≤ most) }
{
    posts <= most && more <= (most - posts) as usize
}

/// Whether no channel has more than `most` posts with those of the steps.
pub(crate) fn are_few_posts(most: u32, channels: &[SteppedChannel], steps: &[Step]) -> bool
    ensures { IsTrue result ↔ AreFewPosts most channels.now steps.now }
{
    for index in 0..channels.len() {
        if !has_few_posts(most, channels[index].posts(), posts_for(index, steps)) {
            return false;
        }
    }
    true
}
