//! A planned fault, and what it asks at a place of a run.
ghost use Rattle.mil_line.specs.Faults.{mask_at, drops, pause_at, added_at, mutes, reply_gap_by};
ghost use Rattle.mil_line.specs.Ranges.{is_in_range, most_sent};
ghost use Rattle.mil_line.specs.declared.faults.Fault.TheVariants.{Mute};
ghost use Rattle.mil_word.specs.Timing.{contiguous_gap, least_response};
ghost use Rattle.std.specs.Prelude.{◌≡◌, ◌&&◌, nat_le, nat_lt};

use crate::MOST_SENT;
use mil_word::timing::{CONTIGUOUS_GAP, LATEST_RESPONSE, LEAST_RESPONSE};
use mil_word::{Wave, Word, encode};

/// A fault of one message, with numbers as they are asked for: `Plan::add` judges their ranges.
///
/// `run` 0 is the controller's words, 1 and 2 are the replies; `index` counts the words of a run from 0, as its sender
/// gives them. A fault whose place does not occur does nothing. (Own choice, all of it.)
#[derive(Clone, Copy, Debug, PartialEq, Eq)]
pub enum Fault {
    /// Inverts the half bits that the mask has, which is not zero. `run` 0 to 2, `index` 0 to 39. Masks at one place
    /// add up bit by bit.
    Mask {
        run: u32,
        index: u32,
        half_bits: Wave,
    },
    /// Leaves out a word. `run` 0 to 2, `index` 0 to 39.
    Drop {
        run: u32,
        index: u32,
    },
    /// Sends a word contiguously after the one at the place, also where that was dropped. `run` 0 to 2, `index` 0 to
    /// 39.
    Add {
        run: u32,
        index: u32,
        word: Word,
    },
    /// Sets the gap of a reply, 121 to 255 ticks. `run` 1 or 2. Of this and `Early` the last one counts.
    Late {
        run: u32,
        ticks: u32,
    },
    /// Sends nothing of a reply. `run` 1 or 2.
    Mute {
        run: u32,
    },
    /// Sets the gap of a reply, 21 to 39 ticks, which is less than a terminal may take. `run` 1 or 2. Of this and
    /// `Late` the last one counts.
    Early {
        run: u32,
        ticks: u32,
    },
    /// Puts a gap before the word at a place, 21 to 255 ticks, where it comes on the line and is not the first of its
    /// run there; no quiet comes of it. `run` 0 to 2, `index` 1 to 39. The last one at a place counts.
    Pause {
        run: u32,
        index: u32,
        ticks: u32,
    },
    /// Sends so many data words more, 1 to 40, behind the last word that the sender of a run gives and what is added
    /// there, also where that word is dropped. `run` 0 to 2.
    Babble {
        run: u32,
        count: u32,
        word: u16,
    },
}

/// Whether a run and an index are in their ranges.
fn is_place(run: u32, index: u32) -> bool
    ensures { result ≡ (nat_le run 2 && nat_lt index most_sent) }
{
    run <= 2 && index < MOST_SENT as u32
}

/// Whether a number of ticks is more than the gap of words that follow at once, and a byte has it.
fn is_pause(ticks: u32) -> bool
    ensures { result ≡ (nat_lt contiguous_gap ticks && nat_le ticks 255) }
{
    u32::from(CONTIGUOUS_GAP) < ticks && ticks <= 255
}

/// Whether a number of ticks is more than the gap of words that follow at once, and less than a terminal may take.
fn is_early(ticks: u32) -> bool
    ensures { result ≡ (nat_lt contiguous_gap ticks && nat_lt ticks least_response) }
{
    u32::from(CONTIGUOUS_GAP) < ticks && ticks < u32::from(LEAST_RESPONSE)
}

/// Whether a run has a reply or the words of the controller, and so many words fit into a talk.
fn is_babble(run: u32, count: u32) -> bool
    ensures { result ≡ (nat_le run 2 && nat_le 1 count && nat_le count most_sent) }
{
    run <= 2 && 1 <= count && count <= MOST_SENT as u32
}

/// Whether a run is that of a reply.
fn is_reply_run(run: u32) -> bool
    ensures { result ≡ (nat_le 1 run && nat_le run 2) }
{
    1 <= run && run <= 2
}

/// A silenced first reply.
impl Default for Fault {
    ghost use Rattle.mil_line.specs.declared.faults.Fault.TheVariants.{Mute};

    ghost is_default = { λ f. f ≡ Mute 1 };

    fn default() -> Fault
        ensures { result ≡ Mute 1 }
    {
        Fault::Mute { run: 1 }
    }
}

impl Fault {
    /// Whether place and value are in their ranges.
    pub fn is_in_range(&self) -> bool
        ensures { result ≡ is_in_range self.now }
    {
        match self {
            Fault::Mask {
                run,
                index,
                half_bits,
            } => is_place(*run, *index) && half_bits.half_bits() != 0,
            Fault::Drop { run, index } => is_place(*run, *index),
            Fault::Add { run, index, .. } => is_place(*run, *index),
            Fault::Late { run, ticks } => is_reply_run(*run)
                && u32::from(LATEST_RESPONSE) < *ticks
                && *ticks <= 255,
            Fault::Mute { run } => is_reply_run(*run),
            Fault::Early { run, ticks } => is_reply_run(*run) && is_early(*ticks),
            Fault::Pause { run, index, ticks } => is_place(*run, *index)
                && 1 <= *index
                && is_pause(*ticks),
            Fault::Babble { run, count, .. } => is_babble(*run, *count),
        }
    }

    /// Whether this leaves out the word at a place.
    pub fn drops(&self, at_run: u32, at: u32) -> bool
        ensures { result ≡ drops at_run at self.now }
    {
        match self {
            Fault::Drop { run, index } => *run == at_run && *index == at,
            _ => false,
        }
    }

    /// Whether this silences a run.
    pub(crate) fn mutes(&self, at_run: u32) -> bool
        ensures { result ≡ mutes at_run self.now }
    {
        match self {
            Fault::Mute { run } => *run == at_run,
            _ => false,
        }
    }

    /// The half bits that this inverts at a place.
    pub fn mask(&self, at_run: u32, at: u32) -> Option<Wave>
        ensures { result ≡ mask_at at_run at self.now }
    {
        match self {
            Fault::Mask {
                run,
                index,
                half_bits,
            } => {
                if *run == at_run && *index == at {
                    Some(*half_bits)
                } else {
                    None
                }
            }
            _ => None,
        }
    }

    /// The wave that this adds after a place.
    pub fn added(&self, at_run: u32, at: u32) -> Option<Wave>
        ensures { result ≡ added_at at_run at self.now }
    {
        match self {
            Fault::Add { run, index, word } => {
                if *run == at_run && *index == at {
                    Some(encode(*word))
                } else {
                    None
                }
            }
            _ => None,
        }
    }

    /// The gap that this sets for a run, in ticks.
    pub fn reply_gap(&self, at_run: u32) -> Option<u32>
        ensures { result ≡ reply_gap_by at_run self.now }
    {
        match self {
            Fault::Late { run, ticks } | Fault::Early { run, ticks } => {
                if *run == at_run { Some(*ticks) } else { None }
            }
            _ => None,
        }
    }

    /// The gap that this sets for the word at a place, in ticks.
    pub fn pause(&self, at_run: u32, at: u32) -> Option<u32>
        ensures { result ≡ pause_at at_run at self.now }
    {
        match self {
            Fault::Pause { run, index, ticks } => {
                if *run == at_run && *index == at {
                    Some(*ticks)
                } else {
                    None
                }
            }
            _ => None,
        }
    }
}
