//! Which messages a rule selects.
ghost use Rattle.bench_judge.specs.Selection as spec;
ghost use Rattle.bench_select.specs.Selecting.{is_in_span as is_in_span_of};
ghost use Rattle.bench_select.specs.Selectors.{selects_commands as selects_commands_of};
ghost use Rattle.std.specs.Prelude.{◌≡◌};

use bench_select::{is_in_span, is_of, is_on, selects_commands};
use ch11_layout::View;
use judge_rules::{Rule, Selector, Span};

/// Whether a message began in a span of time.
#[inline(never)]
fn is_timed(span: &Span, origins: &[Option<u64>], channel: u16, view: &View<'_>) -> bool
    ensures { result ≡ is_in_span_of span.now origins.now channel view.now }
{
    is_in_span(*span, origins, channel, view)
}

/// Whether a message began in a span of time, in which each did that has no first and no last time.
#[inline(always)]
fn began_in(span: &Span, origins: &[Option<u64>], channel: u16, view: &View<'_>) -> bool
    ensures { result ≡ is_in_span_of span.now origins.now channel view.now }
{
    match (span.from, span.to) {
        (None, None) => true,
        _ => is_timed(span, origins, channel, view),
    }
}

/// Whether a selector is about a message; that of all messages needs no look at their commands.
#[inline(always)]
fn is_about(selector: Selector, view: &View<'_>) -> bool
    ensures { result ≡ selects_commands_of selector view.now }
{
    match selector {
        Selector::Any => true,
        _ => selects_commands(selector, view),
    }
}

/// Whether a rule selects a message of a channel. Its times count from the first time of day of the channel, as
/// `bench_select::read_stamps` finds it, where stamps are times of day.
#[inline(always)]
pub fn selects(rule: &Rule, origins: &[Option<u64>], channel: u16, view: &View<'_>) -> bool
    ensures { result ≡ spec.selects rule.now origins.now channel view.now }
{
    is_of(rule.channel, channel)
        && is_on(rule.bus, view)
        && began_in(&rule.span, origins, channel, view)
        && is_about(rule.selector, view)
}
