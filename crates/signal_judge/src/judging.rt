//! Verdicts on all rules.
ghost use Rattle.bench_judge.specs.Selection.{Origins};
ghost use Rattle.bench_judge.specs.Streaming.{passed_of};
ghost use Rattle.bench_judge.specs.Tallies.{AreTallies};
ghost use Rattle.bench_judge.specs.Verdicts as others;
ghost use Rattle.bench_select.specs.Viewed.{Viewed, viewed_in};
ghost use Rattle.ch11_stream.specs.Folding.{FoldsPackets};
ghost use Rattle.signal_judge.specs.Tallies.{IsTally};
ghost use Rattle.signal_judge.specs.Verdicts.{AreVerdicts};
ghost use Rattle.std.specs.Prelude.{◌≡◌, ℕ, List, Some, length, reverse, IfOk};

use crate::rules::{AllRules, SignalRule};
use crate::tallies::SignalTally;
use bench_judge::{PassFault, RuleVerdict, judge, no_tallies, note_messages};
use bench_watch::Reopen;
use ch11_stream::{Advance, Packets, StreamFault};
use std::alloc::{AllocError, Global};

/// The verdicts on the rules of a text, each kind in its order.
#[derive(Debug, Drop)]
pub struct Verdicts {
    /// Those on rules about messages.
    pub plain: Vec<RuleVerdict>,
    /// Those on rules about signals.
    pub signals: Vec<RuleVerdict>,
}

impl Verdicts {
    /// All of them, in the order of their lines.
    pub fn in_order(&self, alloc: Global) -> Result<Vec<RuleVerdict>, AllocError> {
        let mut all = Vec::new(alloc);
        let (mut plain, mut signals) = (self.plain.as_slice(), self.signals.as_slice());
        for _ in 0..plain.len().saturating_add(signals.len()) {
            match (plain.split_first(), signals.split_first()) {
                (Some((one, rest)), Some((other, _))) if one.line < other.line => {
                    all.push(*one)?;
                    plain = rest;
                }
                (Some((one, rest)), None) => {
                    all.push(*one)?;
                    plain = rest;
                }
                (_, Some((other, rest))) => {
                    all.push(*other)?;
                    signals = rest;
                }
                (None, None) => return Ok(all),
            }
        }
        Ok(all)
    }
}

/// The verdict of each rule on a recording, which is read anew for a pass of each kind. The times of rules count from
/// these times of day, as those of `bench_judge::judge`.
pub fn judge_all<S: Reopen>(
    alloc: Global,
    recording: &S,
    rules: &AllRules<'_>,
    origins: &[Option<u64>],
) -> Result<Verdicts, PassFault>
    ensures plain { (file : List ℕ) → S.bytes recording.now ≡ Some file → IfOk result (λ verdicts.
        others.AreVerdicts rules.now.plain.items (passed_of origins.now file) verdicts.plain.items) }
    ensures signals { (file : List ℕ) → S.bytes recording.now ≡ Some file → IfOk result (λ verdicts.
        AreVerdicts rules.now.signals.items origins.now (passed_of origins.now file).messages verdicts.signals.items) }
{
    let plain = match recording.reopen() {
        Ok(input) => judge(alloc, input, rules.plain.as_slice(), origins)?,
        Err(error) => return Err(PassFault::Opening(error)),
    };
    let signals = match recording.reopen() {
        Ok(input) => judge_signals(alloc, input, rules.signals.as_slice(), origins)?,
        Err(error) => return Err(PassFault::Opening(error)),
    };
    Ok(Verdicts { plain, signals })
}

/// The verdict of each rule about a signal on the messages of a recording.
fn judge_signals<R: Advance + Drop>(
    alloc: Global,
    input: R,
    rules: &[SignalRule<'_>],
    origins: &[Option<u64>],
) -> Result<Vec<RuleVerdict>, StreamFault>
    ensures many { IfOk result (λ verdicts. length verdicts.items ≡ length rules.now) }
    ensures judged { (file : List ℕ) → R.remaining input ≡ Some file
        → FoldsPackets (λ ps verdicts. AreVerdicts rules.now origins.now (reverse (viewed_in ps)) verdicts.items)
        result file }
{
    let mut packets = Packets::over(alloc, input)?;
    let mut tallies = no_tallies(alloc, rules)?;
    'packets: for _made in 0..u64::MAX {
        match packets.next() {
            Ok(Some(packet)) => note_messages(
                rules,
                origins,
                tallies.as_mut_slice(),
                &packet.header,
                packets.messages(),
            )?,
            Ok(None) => {
                let verdicts = verdicts_of(alloc, rules, tallies.as_slice())?;
                return Ok(verdicts);
            }
            Err(fault) => return Err(fault),
        }
    }
    Err(StreamFault::Device)
}

/// The verdicts of tallies, one for each rule.
fn verdicts_of(
    alloc: Global,
    rules: &[SignalRule<'_>],
    tallies: &[SignalTally],
) -> Result<Vec<RuleVerdict>, AllocError>
    requires { length tallies.now ≡ length rules.now }
    ensures { (origins : Origins) → (history : List Viewed) → AreTallies IsTally rules.now origins history tallies.now
        → IfOk result (λ verdicts. AreVerdicts rules.now origins history verdicts.items) }
{
    let mut verdicts = Vec::with_capacity(alloc, rules.len())?;
    'rules: for place in 0..rules.len() {
        verdicts.push(tallies[place].verdict(&rules[place]))?;
    }
    Ok(verdicts)
}
