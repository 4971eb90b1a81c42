//! The figures of the signals of a recording.
ghost use Rattle.bench_signals.specs.Figures.{figures_in, said_by};
ghost use Rattle.ch11_stream.specs.Folding.{FoldsPackets};
ghost use Rattle.std.specs.Prelude.{◌≡◌, ℕ, List, Some, map};

use crate::counting::Counting;
use crate::figures::SignalFigures;
use bench_select::Selection;
use ch11_stream::{Advance, Packets, StreamFault};
use signal_dictionary::Signal;
use std::alloc::Global;

/// The figures of each signal in each channel whose selected messages have it, in the order of the dictionary, those
/// of a signal by rising channel. The recording is read as its packets come, in memory for the largest packet of
/// messages or of time and the figures; one that can't be read is refused with its first fault.
pub fn count_signals<R: Advance + Drop>(
    alloc: Global,
    input: R,
    selection: &Selection,
    signals: &[Signal],
) -> Result<Vec<SignalFigures>, StreamFault>
    ensures { (file : List ℕ) → R.remaining input ≡ Some file
        → FoldsPackets (λ ps figures. map said_by figures.items ≡ figures_in selection.now signals.now ps) result file }
{
    let mut packets = Packets::over(alloc, input)?;
    let mut counting = Counting::begin(alloc);
    'packets: for _made in 0..u64::MAX {
        match packets.next() {
            Ok(Some(packet)) => {
                counting.note_packet(signals, selection, &packet, packets.messages())?;
            }
            Ok(None) => {
                let figures = counting.figures_of(alloc, signals)?;
                return Ok(figures);
            }
            Err(fault) => return Err(fault),
        }
    }
    Err(StreamFault::Device)
}
