//! When the words of a recorded message are on the line.
ghost use Rattle.bench_export.specs.Moments as spec;
ghost use Rattle.mil_word.specs.Timing.{contiguous_gap};
ghost use Rattle.std.specs.Prelude.{◌≡◌, ◌-◌, ◌<◌, ◌≤◌, ◌^◌};

use ch11_layout::View;
use mil_word::timing::{CONTIGUOUS_GAP, WORD_TIME};

/// How long a word takes, in ticks of 0.1 µs.
pub(crate) const WORD: u128 = WORD_TIME as u128;

/// What lies between two words with this gap, in ticks.
fn pause(gap: u8) -> u128
    ensures value { result ≡ gap - contiguous_gap }
    ensures small { result ≤ 255 }
{
    u128::from(u16::from(gap).saturating_sub(CONTIGUOUS_GAP))
}

/// What lies in front of the word at a place, because of the status word in front of the data words.
fn front_pause(view: &View<'_>, place: usize) -> u128
    ensures value { result ≡ spec.front_pause view.now place }
    ensures small { result ≤ 255 }
{
    let layout = view.layout();
    if layout.commands < layout.data_start && layout.commands <= place {
        pause(view.first_gap())
    } else {
        0
    }
}

/// What lies in front of the word at a place, because of the status word behind the data words.
fn back_pause(view: &View<'_>, place: usize) -> u128
    ensures value { result ≡ spec.back_pause view.now place }
    ensures small { result ≤ 255 }
{
    let layout = view.layout();
    if layout.data_end < layout.words && layout.data_end <= place {
        pause(view.last_gap())
    } else {
        0
    }
}

/// The tick at which the word at a place begins.
#[tactic(auto, unfolding(crate::specs::Moments::begin_of))]
pub(crate) fn begin_of(view: &View<'_>, place: usize) -> u128
    ensures value { result ≡ spec.begin_of view.now place }
    ensures small { result < 2 ^ 100 }
{
    let behind = u128::from(view.stamp()) + WORD * place as u128;
    behind + front_pause(view, place) + back_pause(view, place)
}
