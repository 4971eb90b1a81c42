//! The first and the last message of a selection, and how they are written.
ghost use Rattle.bench_select.specs.Bounds as spec;
ghost use Rattle.std.specs.Prelude.{◌≡◌};

use judge_rules::read_time;
use numerals::spelled;

/// A message of a recording by its number, or by its time.
#[derive(Clone, Copy, Debug, PartialEq, Eq)]
pub enum Bound {
    /// Its number, counted from 1 over the file.
    Number(u64),
    /// Its stamp in ticks of 0.1 µs.
    Time(u64),
}

/// How many digits a number of a message has at most.
const DIGITS: usize = 10;

/// The bound that a text spells: the number of a message, one to ten digits and not 0, or a time with its unit, as
/// `1.2s`, `350ms` or `12us`: one to ten digits, and perhaps a point and more of them, down to 0.1 µs. `None` where it
/// spells neither.
#[tactic(auto, unfolding(crate::specs::Bounds::bound_of))]
pub fn read_bound(text: &[u8]) -> Option<Bound>
    ensures { result ≡ spec.bound_of text.now }
{
    match read_time(text) {
        Some(ticks) => Some(Bound::Time(ticks)),
        None => counted(spelled(10, 1, DIGITS, text)),
    }
}

/// The bound of a message of a number, none for 0.
fn counted(number: Option<u64>) -> Option<Bound>
    ensures { result ≡ spec.counted number }
{
    match number {
        None | Some(0) => None,
        Some(number) => Some(Bound::Number(number)),
    }
}
