//! The words that stand in the lines of a job.
ghost use Rattle.job_file.specs.Lines.{keyword_of, fault_word_of, is_controller, sync_of};
ghost use Rattle.job_file.specs.declared.error.LineFault.TheVariants.{Word};
ghost use Rattle.std.specs.Prelude.{◌≡◌, IfErr};
ghost use Rattle.text_lines.specs.Readings.{IsOkOption};

use crate::error::LineFault;
use FaultWord::{Add, Babble, Drop, Early, Late, Mask, Mute, Pause};
use Keyword::{At, Channel, Fault, Faults, Script, Series, Start, Terminal};
use mil_word::Sync;
use text_lines::meaning;

/// The first word of a line.
#[derive(Clone, Copy)]
pub enum Keyword {
    Channel,
    Start,
    Terminal,
    At,
    Fault,
    Faults,
    Series,
    Script,
}

/// The word for a kind of planned fault.
#[derive(Clone, Copy)]
pub enum FaultWord {
    Mask,
    Drop,
    Add,
    Late,
    Mute,
    Early,
    Pause,
    Babble,
}

/// The first words of lines.
const KEYWORDS: [(&[u8], Keyword); 8] = [
    (b"channel", Channel),
    (b"start", Start),
    (b"terminal", Terminal),
    (b"at", At),
    (b"fault", Fault),
    (b"faults", Faults),
    (b"series", Series),
    (b"script", Script),
];

/// The words for kinds of planned faults.
const FAULT_WORDS: [(&[u8], FaultWord); 8] = [
    (b"mask", Mask),
    (b"drop", Drop),
    (b"add", Add),
    (b"late", Late),
    (b"mute", Mute),
    (b"early", Early),
    (b"pause", Pause),
    (b"babble", Babble),
];

/// The letters of the syncs.
const SYNCS: [(&[u8], Sync); 2] = [(b"c", Sync::CommandSync), (b"d", Sync::DataSync)];

/// The keyword that a word is.
pub fn keyword_in(word: &[u8]) -> Result<Keyword, LineFault>
    ensures value { IsOkOption (λ k. k) result (keyword_of word.now) }
    ensures fault { IfErr result (λ f. f ≡ Word) }
{
    meaning(&KEYWORDS, word).ok_or(LineFault::Word)
}

/// Whether a word names the bus controller.
pub fn is_controller(word: &[u8]) -> bool
    ensures { result ≡ is_controller word.now }
{
    word == b"bc".as_slice()
}

/// The kind of fault that a word names.
pub fn fault_word_in(word: &[u8]) -> Result<FaultWord, LineFault>
    ensures value { IsOkOption (λ k. k) result (fault_word_of word.now) }
    ensures fault { IfErr result (λ f. f ≡ Word) }
{
    meaning(&FAULT_WORDS, word).ok_or(LineFault::Word)
}

/// The sync that `c` (command and status words) or `d` (data words) names.
pub fn sync_in(word: &[u8]) -> Result<Sync, LineFault>
    ensures value { IsOkOption (λ s. s) result (sync_of word.now) }
    ensures fault { IfErr result (λ f. f ≡ Word) }
{
    meaning(&SYNCS, word).ok_or(LineFault::Word)
}
