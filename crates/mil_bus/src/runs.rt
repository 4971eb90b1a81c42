//! The runs of an exchange: words and quiets, told to all terminals.
ghost use Rattle.mil_bus.specs.Exchange.{words_of_run, runs, most_runs};
ghost use Rattle.mil_bus.specs.Offers.{offered, offer_in, given};
ghost use Rattle.mil_bus.specs.RunWords.{later_words};
ghost use Rattle.mil_bus.specs.Said.{IsSaid};
ghost use Rattle.mil_bus.specs.Wholes.{value_waves};
ghost use Rattle.mil_line.specs.Faults.{altered};
ghost use Rattle.mil_line.specs.Ranges.{is_in_range, most_sent};
ghost use Rattle.mil_word.specs.Words.{command_wave};
ghost use Rattle.std.specs.List.{list_all};
ghost use Rattle.std.specs.Prelude.{◌≡◌, ℕ, ◌+◌, ◌≤◌, true, [], ◌∷◌, ◌++◌, length, nat_lt, take, Some};

use crate::offers::Offered;
use crate::talk_runs::Run;
use crate::terminals::Terminals;
use crate::{Sent, SentWords};
use arrayvec::ArrayVec;
use mil_line::{Fault, LineWord, MOST_SENT, altered, reply_gap};
use mil_message::{Values, Waves};
use mil_word::{Line, Sync, Word};

/// As many runs are enough, since each but the last puts a word on the line.
const MOST_RUNS: u8 = MOST_SENT as u8;

/// Puts words of a run behind others, each with its own gap.
fn put_later(sent: &mut ArrayVec<Sent, MOST_SENT>, run: &Run, words: &[LineWord])
    requires { length sent.old.items + length words.now ≤ most_sent }
    ensures { sent.new.items ≡ sent.old.items ++ later_words run.now.number run.now.source words.now }
{
    for word in words {
        sent.push(Sent {
            wave: word.wave,
            gap: word.gap,
            run: run.number,
            source: run.source,
        });
    }
}

/// The words of a run: the first has the run's gap, each other its own.
fn words_of_run(run: &Run, words: &[LineWord]) -> ArrayVec<Sent, MOST_SENT>
    requires { length words.now ≤ most_sent }
    ensures { result.items ≡ words_of_run run.now.number run.now.source run.now.gap words.now }
{
    let mut sent = ArrayVec::new();
    if let Some((first, others)) = words.split_first() {
        sent.push(Sent {
            wave: first.wave,
            gap: run.gap,
            run: run.number,
            source: run.source,
        });
        put_later(&mut sent, run, others);
    }
    sent
}

/// Puts the wave of a command or a status word behind others.
fn put_command(waves: &mut Waves, value: u16)
    requires { length waves.old + 1 ≤ 34 }
    ensures { waves.new ≡ waves.old ++ command_wave value ∷ [] }
{
    waves.put(Word {
        sync: Sync::CommandSync,
        value,
    });
}

/// The waves of the words that a sender gives.
fn waves_of(values: &Values) -> Waves
    ensures { result ≡ value_waves values.now.commands values.now.words.items }
{
    let count = values.words.len();
    // Named for the proofs alone.
    let _ = count;
    let mut waves = Waves::none();
    let (commands, data) = values.parts();
    for value in commands {
        put_command(&mut waves, *value);
    }
    waves.put_data(data);
    waves
}

/// What the planned faults make of the words of a run, as far as there is room for so many.
#[inline(never)]
fn altered_words(
    faults: &[Fault],
    run: u8,
    values: &Values,
    room: usize,
) -> ArrayVec<LineWord, MOST_SENT>
    requires room { room ≤ most_sent }
    requires in_range { list_all is_in_range faults.now ≡ true }
    ensures { result.items
        ≡ take room (altered faults.now run (value_waves values.now.commands values.now.words.items)) }
{
    let given = waves_of(values);
    altered(faults, u32::from(run), given.as_slice(), room)
}

/// What the planned faults make of a run comes on the line, as far as there is room for it among the words sent, and to
/// all terminals; whether a word does. (What it holds stays out of the way of runs that no fault touches.)
#[inline(never)]
fn say_altered(
    terminals: &mut Terminals,
    sent: &mut SentWords,
    line: Line,
    faults: &[Fault],
    run: &Run,
    values: &Values,
) -> bool
    requires in_range { list_all is_in_range faults.now ≡ true }
    ensures said { IsSaid line faults.now run.now.number (offer_in run.now values.now)
        (record { sent = sent.old.items; stations = terminals.old })
        (record { sent = sent.new.items; stations = terminals.new }) }
    ensures some { result ≡ (nat_lt (length sent.old.items) (length sent.new.items)) }
{
    let room = MOST_SENT - sent.len();
    let altered = Run {
        number: run.number,
        source: run.source,
        gap: reply_gap(faults, u32::from(run.number), run.gap),
    };
    let given = altered_words(faults, run.number, values, room);
    let words = words_of_run(&altered, given.as_slice());
    sent.put_each(words.as_slice());
    terminals.hear_each(line, words.as_slice());
    !words.is_empty()
}

/// What comes on the line of a run, as far as there is room for it among the words sent, comes to all terminals;
/// whether a word does.
fn say_run(
    terminals: &mut Terminals,
    sent: &mut SentWords,
    line: Line,
    faults: &[Fault],
    run: &Run,
    values: &Values,
) -> bool
    requires in_range { list_all is_in_range faults.now ≡ true }
    ensures said { IsSaid line faults.now run.now.number (offer_in run.now values.now)
        (record { sent = sent.old.items; stations = terminals.old })
        (record { sent = sent.new.items; stations = terminals.new }) }
    ensures some { result ≡ (nat_lt (length sent.old.items) (length sent.new.items)) }
{
    if faults.is_empty() && sent.put_whole(run, values) {
        terminals.hear_whole(line, run, values);
        true
    } else {
        say_altered(terminals, sent, line, faults, run, values)
    }
}

/// A run, and what all that follow make of it: its words come on the line and to all terminals, then a quiet does, and
/// the first to answer is taken; whether one answers.
fn turn(
    terminals: &mut Terminals,
    sent: &mut SentWords,
    line: Line,
    faults: &[Fault],
    number: u8,
    offer: &mut Offered,
) -> bool
    requires in_range { list_all is_in_range faults.now ≡ true }
    ensures { (left : ℕ) → runs left line faults.now (number + 1) (given result offer.new)
        (record { sent = sent.new.items; stations = terminals.new })
        ≡ runs (left + 1) line faults.now number (Some (offered offer.old))
        (record { sent = sent.old.items; stations = terminals.old }) }
{
    let run = Run {
        number,
        source: offer.source,
        gap: offer.gap,
    };
    if !say_run(terminals, sent, line, faults, &run, &offer.values) {
        return false;
    }
    terminals.quiet(line, offer)
}

/// All runs of an exchange, from what the controller offers.
pub fn all_runs(
    terminals: &mut Terminals,
    sent: &mut SentWords,
    line: Line,
    faults: &[Fault],
    offer: &mut Offered,
)
    requires in_range { list_all is_in_range faults.now ≡ true }
    ensures { record { sent = sent.new.items; stations = terminals.new }
        ≡ runs most_runs line faults.now 0 (Some (offered offer.old))
        (record { sent = sent.old.items; stations = terminals.old }) }
{
    for run in 0..MOST_RUNS {
        if !turn(terminals, sent, line, faults, run, offer) {
            return;
        }
    }
}
