//! What misses a rule, looked for once more in a recording that is read anew.
ghost use Rattle.bench_judge.specs.Junit.{told_first};
ghost use Rattle.bench_judge.specs.Streaming.{passed_of};
ghost use Rattle.bench_judge.specs.Verdicts.{passed_in};
ghost use Rattle.ch11_stream.specs.Folding.{FoldsPackets};
ghost use Rattle.std.specs.Prelude.{◌≡◌, ℕ, List, Some, IfOk};

use crate::checks::is_whole;
use crate::pass_fault::PassFault;
use crate::passes::Ruled;
use crate::shown::{write_shown, write_shown_packets};
use crate::telling::{tell_messages, tell_packets};
use bench_decode::TextLine;
use bench_names::ChannelNames;
use bench_watch::Reopen;
use ch11_stream::{Advance, StreamFault};
use std::alloc::Global;
use std::io::Write;

/// What is looked for: the first messages or packets that miss a rule.
#[derive(Clone, Copy)]
pub struct Wanted<'r> {
    /// Where memory is taken.
    pub alloc: Global,
    /// The rule.
    pub ruled: Ruled<'r>,
    /// How many are looked for at most.
    pub most: usize,
}

/// What is told of them: as `tell_messages` tells messages, and as `tell_packets` tells packets where the rule is about
/// these.
pub fn tell_first<S: Reopen>(recording: &S, wanted: Wanted<'_>) -> Result<Vec<u8>, PassFault>
    ensures { (file : List ℕ) → S.bytes recording.now ≡ Some file → IfOk result (λ told.
        told.items ≡ told_first wanted.entry.ruled.skips.now wanted.entry.most wanted.entry.ruled.rule.now
        (passed_of wanted.entry.ruled.origins.now file)) }
{
    match recording.reopen() {
        Ok(input) => Ok(tell_in(input, wanted)?),
        Err(error) => Err(PassFault::Opening(error)),
    }
}

/// What is told of them, of all bytes that a reader has left.
fn tell_in<R: Advance + Drop>(input: R, wanted: Wanted<'_>) -> Result<Vec<u8>, StreamFault>
    ensures { (file : List ℕ) → R.remaining input ≡ Some file
        → FoldsPackets (λ ps told. told.items
        ≡ told_first wanted.entry.ruled.skips.now wanted.entry.most wanted.entry.ruled.rule.now
        (passed_in wanted.entry.ruled.origins.now ps)) result file }
{
    let (alloc, rule, most) = (wanted.alloc, wanted.ruled.rule, wanted.most);
    if is_whole(&rule.check) {
        return tell_packets(alloc, input, rule, most, wanted.ruled.skips);
    }
    tell_messages(alloc, input, rule, wanted.ruled.origins, most)
}

/// Writes them, each message on a line as `bench dump --decode` shows it, behind the name of its channel if it has one,
/// and below it what was there and what was expected.
pub(crate) fn write_first<S: Reopen, W: Write>(
    recording: &S,
    wanted: Wanted<'_>,
    names: ChannelNames<'_>,
    line: &mut TextLine,
    out: &mut W,
) -> Result<(), PassFault> {
    match recording.reopen() {
        Ok(input) => {
            if is_whole(&wanted.ruled.rule.check) {
                write_shown_packets(input, wanted, out)
            } else {
                write_shown(line, input, wanted, names, out)
            }
        }
        Err(error) => Err(PassFault::Opening(error)),
    }
}
