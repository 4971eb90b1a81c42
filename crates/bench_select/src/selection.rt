//! A selection of messages.
ghost use Rattle.bench_select.specs.Selecting as spec;
ghost use Rattle.std.specs.Prelude.{◌≡◌, ◌+◌, true};

use crate::bounds::Bound;
use crate::selectors::{is_of, is_on, selects_commands};
use crate::signals::has_signal;
use ch11_layout::{StampKind, View};
use judge_rules::{Selector, Span};
use mil_word::Line;
use signal_dictionary::Signal;

/// Which messages of a recording are chosen: those that meet all that is said here.
#[derive(Clone, Copy, Debug)]
pub struct Selection<'o> {
    /// Of this channel, 1 to 65,535; `None` for all.
    pub channel: Option<u16>,
    /// On this line of the bus; `None` for both.
    pub line: Option<Line>,
    /// Of these commands; `None` for all.
    pub selector: Option<Selector>,
    /// That have this signal; `None` for all.
    pub signal: Option<&'o Signal>,
    /// Only those with an error: block status bit 12.
    pub errors: bool,
    /// From this one on.
    pub from: Option<Bound>,
    /// Up to this one, which is chosen too.
    pub to: Option<Bound>,
    /// The first time of day of each channel whose stamps are times of day, as `read_stamps` finds them: times count
    /// from there, and from tick 0 in a channel without one.
    pub origins: &'o [Option<u64>],
}

impl<'o> Selection<'o> {
    /// All messages.
    pub fn all() -> Selection<'static>
        ensures { spec.is_all result ≡ true }
    {
        Selection {
            channel: None,
            line: None,
            selector: None,
            signal: None,
            errors: false,
            from: None,
            to: None,
            origins: &[],
        }
    }

    /// The same selection, whose times count from these times of day, one for each channel.
    pub fn counting_from(&self, origins: &'o [Option<u64>]) -> Selection<'o>
        ensures { spec.IsCountedFrom origins.now self.now result }
    {
        Selection {
            channel: self.channel,
            line: self.line,
            selector: self.selector,
            signal: self.signal,
            errors: self.errors,
            from: self.from,
            to: self.to,
            origins,
        }
    }

    /// Whether nothing is asked of a message, so that all are chosen.
    pub fn is_all(&self) -> bool
        ensures { result ≡ spec.is_all self.now }
    {
        self.channel.is_none()
            && self.line.is_none()
            && self.selector.is_none()
            && self.signal.is_none()
            && !self.errors
            && self.from.is_none()
            && self.to.is_none()
    }

    /// Whether a bound is a time.
    pub fn is_timed(&self) -> bool
        ensures { result ≡ spec.is_timed self.now }
    {
        is_time(self.from) || is_time(self.to)
    }

    /// Whether the message of this number of the file, counted from 1, on this channel, is chosen. One whose time is
    /// not known is never chosen by a time.
    pub fn selects(&self, number: u64, channel: u16, view: &View<'_>) -> bool
        ensures { result ≡ spec.selects self.now number channel view.now }
    {
        let origin = origin_by(view.kind(), self.origins, channel);
        is_of(self.channel, channel)
            && is_on(self.line, view)
            && (!self.errors || view.has_error())
            && is_from(self.from, origin, number, view.time())
            && is_up_to(self.to, origin, number, view.time())
            && is_about(self.selector, view)
            && has_chosen(self.signal, channel, view)
    }
}

/// Whether a bound is a time.
fn is_time(bound: Option<Bound>) -> bool
    ensures { result ≡ spec.is_time bound }
{
    matches!(bound, Some(Bound::Time(_)))
}

/// The tick from which times count in a channel.
fn origin_by(kind: StampKind, origins: &[Option<u64>], channel: u16) -> u64
    ensures { result ≡ spec.origin_by kind origins.now channel }
{
    match kind {
        StampKind::TimeOfDay => first_in(origins, usize::from(channel)),
        StampKind::Counter | StampKind::Unknown => 0,
    }
}

/// The first time of day of a channel, 0 where none is known.
fn first_in(origins: &[Option<u64>], place: usize) -> u64
    ensures { result ≡ spec.first_in origins.now place }
{
    if place < origins.len() {
        origins[place].unwrap_or(0)
    } else {
        0
    }
}

/// Whether a time is so many ticks behind an origin, or later.
fn is_behind(origin: u64, first: u64, time: Option<u64>) -> bool
    ensures { result ≡ spec.is_behind (origin + first) time }
{
    match time {
        None => false,
        Some(time) => origin <= time && first <= time - origin,
    }
}

/// Whether a time is so many ticks behind an origin, or earlier.
fn is_before(origin: u64, last: u64, time: Option<u64>) -> bool
    ensures { result ≡ spec.is_before (origin + last) time }
{
    match time {
        None => false,
        Some(time) => time.saturating_sub(origin) <= last,
    }
}

/// Whether the message of a number and a time is the first one of a bound, or behind it.
fn is_from(bound: Option<Bound>, origin: u64, number: u64, time: Option<u64>) -> bool
    ensures { result ≡ spec.is_from bound origin number time }
{
    match bound {
        None => true,
        Some(Bound::Number(first)) => first <= number,
        Some(Bound::Time(first)) => is_behind(origin, first, time),
    }
}

/// Whether it is the last one of a bound, or before it.
fn is_up_to(bound: Option<Bound>, origin: u64, number: u64, time: Option<u64>) -> bool
    ensures { result ≡ spec.is_up_to bound origin number time }
{
    match bound {
        None => true,
        Some(Bound::Number(last)) => number <= last,
        Some(Bound::Time(last)) => is_before(origin, last, time),
    }
}

/// The bound that a time is, where there is one.
fn at_time(tick: Option<u64>) -> Option<Bound>
    ensures { result ≡ spec.at_time tick }
{
    match tick {
        Some(tick) => Some(Bound::Time(tick)),
        None => None,
    }
}

/// Whether a message of a channel began in a span of time. Times count as those of a selection do: from the first time
/// of day of the channel, as `read_stamps` finds it, where stamps are times of day. A message whose time is not known
/// is in no span that has a first or a last time.
pub fn is_in_span(span: Span, origins: &[Option<u64>], channel: u16, view: &View<'_>) -> bool
    ensures { result ≡ spec.is_in_span span origins.now channel view.now }
{
    let origin = origin_by(view.kind(), origins, channel);
    is_from(at_time(span.from), origin, 0, view.time())
        && is_up_to(at_time(span.to), origin, 0, view.time())
}

/// Whether a selector, where there is one, is about a message.
fn is_about(selector: Option<Selector>, view: &View<'_>) -> bool
    ensures { result ≡ spec.is_about selector view.now }
{
    match selector {
        None => true,
        Some(selector) => selects_commands(selector, view),
    }
}

/// Whether a message has a signal, where one is asked for.
fn has_chosen(signal: Option<&Signal>, channel: u16, view: &View<'_>) -> bool
    ensures { result ≡ spec.has_chosen signal.entry channel view.now }
{
    match signal {
        None => true,
        Some(signal) => has_signal(signal, channel, view),
    }
}
