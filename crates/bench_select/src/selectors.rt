//! Which messages a selector is about, and which are of a channel and on a line.
ghost use Rattle.bench_select.specs.Selectors as spec;
ghost use Rattle.std.specs.Prelude.{◌≡◌};

use ch11_layout::View;
use judge_rules::Selector;
use mil_word::{Command, Line};

/// Whether a selector is about a message, by its commands: a message without words has none, and is of `any` alone.
pub fn selects_commands(selector: Selector, view: &View<'_>) -> bool
    ensures { result ≡ spec.selects_commands selector view.now }
{
    let first = Command::of(view.word(0));
    match view.layout().commands {
        0 => matches!(selector, Selector::Any),
        1 => selector.selects(first, None),
        _ => selector.selects(first, Some(Command::of(view.word(1)))),
    }
}

/// Whether a message was on the line of the bus that was chosen; each was where none was.
pub fn is_on(choice: Option<Line>, view: &View<'_>) -> bool
    ensures { result ≡ spec.is_on choice view.now.block }
{
    match choice {
        None => true,
        Some(Line::A) => view.line() == Line::A,
        Some(Line::B) => view.line() == Line::B,
    }
}

/// Whether a channel is the one that was chosen; each is where none was.
pub fn is_of(choice: Option<u16>, channel: u16) -> bool
    ensures { result ≡ spec.is_chosen choice channel }
{
    match choice {
        Some(chosen) => channel == chosen,
        None => true,
    }
}
