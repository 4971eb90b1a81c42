//! An undecided window, by a small state for each word.
ghost use Rattle.mil_terminal.specs.Phases as phases;
ghost use Rattle.mil_terminal.specs.Registers.{value_of};
ghost use Rattle.mil_terminal.specs.Runs.{AreSmall};
ghost use Rattle.mil_terminal.specs.Verdicts as verdicts;
ghost use Rattle.mil_terminal.specs.Windows as windows;
ghost use Rattle.mil_terminal.specs.declared.events.Event.TheVariants.{Heard, Quiet};
ghost use Rattle.mil_terminal.specs.declared.events.Event.{Event};
ghost use Rattle.mil_word.specs.Fields.{most_words};
ghost use Rattle.mil_word.specs.Words.{same_line as same, command_in, data_wave};
ghost use Rattle.std.specs.List.{filter_map};
ghost use Rattle.std.specs.Prelude.{Some, None, IfSome, IfNone, true, false, if◌then◌else◌};
ghost use Rattle.std.specs.Prelude.{◌≡◌, ℕ, ◌≤◌, List, [], ◌∷◌, ◌++◌, map};

use crate::addresses::Address;
use crate::sounds::Sound;
use arrayvec::ArrayVec;
use mil_line::Gap;
use mil_mode::codes::FIRST_WITH_WORD;
use mil_word::timing::{CONTIGUOUS_GAP, SYNC_TO_PARITY, TRANSFER_TIME_OUT};
use mil_word::{Command, Line, Sync, Word, copied, encode};

/// The latest gap of the status of the sender of a transfer, so that the first data word comes to the receiver in time.
const LATEST_ANSWER: u16 = TRANSFER_TIME_OUT - 2 * (SYNC_TO_PARITY + CONTIGUOUS_GAP);

/// What was heard in a window so far.
#[derive(Clone, Copy, Debug)]
pub enum Phase {
    /// Nothing was heard yet.
    Start,
    /// Due words so far, and nothing else.
    Taking,
    /// Another terminal was told to send.
    Called(u8),
    /// What it sends is due.
    Waiting(u8),
    /// The shape is lost, with two quiets to come.
    LostTransfer,
    /// The shape is lost, with one quiet to come.
    Lost,
}

/// A window that is not decided yet, and its due words so far.
#[derive(Drop)]
pub struct Pending {
    pub line: Line,
    pub command: Command,
    pub phase: Phase,
    pub words: ArrayVec<u16, 32>,
}

/// Whether two lines are one.
#[inline]
pub fn same_line(one: Line, other: Line) -> bool
    ensures { result ≡ same one other }
{
    match (one, other) {
        (Line::A, Line::A) | (Line::B, Line::B) => true,
        (Line::A, Line::B) | (Line::B, Line::A) => false,
    }
}

/// The data words that a command announces, 0 to 32.
#[inline]
pub fn words_due(command: Command) -> usize
    ensures value { result ≡ verdicts.words_due command }
    ensures few { result ≤ most_words }
{
    if command.is_receive() {
        command.count() as usize
    } else if command.is_mode() && !command.is_transmit() && FIRST_WITH_WORD <= command.code() {
        1
    } else {
        0
    }
}

/// The terminal that is to send, where the first word of a receive window is a command to it.
fn sender_called(own: Address, command: Command, sound: &Sound, gap: Gap) -> Option<u8>
    ensures { result ≡ windows.sender_called own command sound.now gap }
{
    match sound.command() {
        Some(called) => {
            if command.is_receive()
                && gap.is_contiguous()
                && called.is_transmit()
                && !called.is_mode()
                && called.address() != own.value()
                && !called.is_broadcast()
            {
                Some(called.address())
            } else {
                None
            }
        }
        None => None,
    }
}

/// Whether the word is the status of the sender, no later than is allowed.
fn is_answer(sender: u8, sound: &Sound, gap: Gap) -> bool
    ensures { result ≡ phases.is_answer sender sound.now gap }
{
    match sound.command() {
        Some(status) => status.address() == sender && gap.ticks() <= LATEST_ANSWER,
        None => false,
    }
}

impl Pending {
    ghost use Rattle.mil_terminal.specs.Phases.{phase_after_quiet, window_of, IsPending};
    ghost use Rattle.mil_terminal.specs.Phases.{with_due, due_value, after_word, after_run, decides, shape_now};

    /// A window that was just opened.
    pub fn open(line: Line, command: Command) -> Pending
        ensures { result ≡ record {
          line = line;
          command = command;
          phase = Phase.Start;
          words = record { items = [] };
        } }
    {
        Pending {
            line,
            command,
            phase: Phase::Start,
            words: ArrayVec::new(),
        }
    }

    /// The same window.
    pub fn copy(&self) -> Pending
        ensures { result ≡ self.now }
    {
        Pending {
            line: self.line,
            command: self.command,
            phase: self.phase,
            words: copied(&self.words),
        }
    }

    /// A word in a place where a due word may stand.
    #[inline]
    fn take_due(&mut self, sound: &Sound, gap: Gap)
        ensures { self.new ≡ with_due (due_value self.old sound.now gap) self.old }
    {
        let value = if gap.is_contiguous() && self.words.len() < words_due(self.command) {
            sound.data()
        } else {
            None
        };
        match value {
            Some(value) => {
                self.words.push(value);
                self.phase = Phase::Taking;
            }
            None => self.phase = Phase::Lost,
        }
    }

    /// One more word on the line.
    pub fn take_word(&mut self, own: Address, sound: &Sound, gap: Gap)
        ensures pending { (items : List Event) → IsPending own self.old items
            → IsPending own self.new (items ++ Heard self.old.line sound.now gap ∷ []) }
        ensures line { self.new.line ≡ self.old.line }
        ensures command { self.new.command ≡ self.old.command }
    {
        self.follow_word(own, sound, gap);
    }

    /// More data words on the line, by their values: the first has this gap, and the others follow at once.
    #[inline]
    pub fn take_values(&mut self, own: Address, gap: Gap, values: &[u16])
        requires { AreSmall values.now }
        ensures { self.new ≡ after_run own self.old gap (map data_wave values.now) }
    {
        match self.phase {
            Phase::Start | Phase::Taking => {
                let room = words_due(self.command).saturating_sub(self.words.len());
                if gap.is_contiguous() && values.len() <= room && !values.is_empty() {
                    // There is room for all of them.
                    let _ = self.words.try_extend_from_slice(values);
                    self.phase = Phase::Taking;
                    return;
                }
            }
            _ => {}
        }
        self.take_each_value(own, gap, values);
    }

    /// The same, one after the other.
    #[inline(never)]
    fn take_each_value(&mut self, own: Address, gap: Gap, values: &[u16])
        ensures { self.new ≡ after_run own self.old gap (map data_wave values.now) }
    {
        let mut gap = gap;
        for value in values {
            self.follow_value(own, gap, *value);
            gap = Gap::contiguous();
        }
    }

    /// A quiet on the line: the shape of the window, where it decides it.
    pub fn take_quiet(&mut self) -> Option<bool>
        ensures decided { (own : ℕ) (items : List Event) → IsPending own self.old items → IfSome result (λ shape.
            (windows.is_decided own (window_of self.old (items ++ Quiet self.old.line ∷ [])) ≡ true)
            × (verdicts.has_good_shape own (window_of self.old (items ++ Quiet self.old.line ∷ [])) ≡ shape)
            × (shape ≡ true → filter_map value_of (items ++ Quiet self.old.line ∷ []) ≡ self.old.words.items)) }
        ensures pending { (own : ℕ) (items : List Event) → IsPending own self.old items → IfNone result (
            (windows.is_decided own (window_of self.old (items ++ Quiet self.old.line ∷ [])) ≡ false)
            × IsPending own self.new (items ++ Quiet self.old.line ∷ [])) }
        ensures words { self.new.words ≡ self.old.words }
        ensures line { self.new.line ≡ self.old.line }
        ensures command { self.new.command ≡ self.old.command }
    {
        self.follow_quiet()
    }

    fn follow_quiet(&mut self) -> Option<bool>
        ensures result { result ≡ (if decides self.old.phase then Some (shape_now self.old self.old.phase) else None) }
        ensures after { self.new ≡ record self.old { phase = phase_after_quiet self.old.phase } }
    {
        match self.phase {
            Phase::Start => Some(words_due(self.command) == 0),
            Phase::Taking => Some(words_due(self.command) == self.words.len()),
            Phase::Called(sender) => {
                self.phase = Phase::Waiting(sender);
                None
            }
            Phase::Waiting(_) => Some(false),
            Phase::LostTransfer => {
                self.phase = Phase::Lost;
                None
            }
            Phase::Lost => Some(false),
        }
    }

    #[inline]
    fn follow_data(&mut self, own: Address, sound: &Sound, gap: Gap)
        requires { command_in sound.now ≡ None }
        ensures { self.new ≡ after_word own self.old self.old.phase sound.now gap }
    {
        // Named for the proofs alone.
        let _ = own;
        match self.phase {
            Phase::Start | Phase::Taking => self.take_due(sound, gap),
            Phase::Called(_) => self.phase = Phase::LostTransfer,
            Phase::Waiting(_) => self.phase = Phase::Lost,
            Phase::LostTransfer | Phase::Lost => {}
        }
    }

    /// One more data word, by its value.
    fn follow_value(&mut self, own: Address, gap: Gap, value: u16)
        ensures { self.new ≡ after_word own self.old self.old.phase (data_wave value) gap }
    {
        let word = Word {
            sync: Sync::DataSync,
            value,
        };
        self.follow_data(own, &Sound::of(encode(word), Some(word)), gap);
    }

    fn follow_word(&mut self, own: Address, sound: &Sound, gap: Gap)
        ensures { self.new ≡ after_word own self.old self.old.phase sound.now gap }
    {
        match self.phase {
            Phase::Start => match sender_called(own, self.command, sound, gap) {
                Some(sender) => self.phase = Phase::Called(sender),
                None => self.take_due(sound, gap),
            },
            Phase::Taking => self.take_due(sound, gap),
            Phase::Called(_) => self.phase = Phase::LostTransfer,
            Phase::Waiting(sender) => {
                self.phase = if is_answer(sender, sound, gap) {
                    Phase::Taking
                } else {
                    Phase::Lost
                };
            }
            Phase::LostTransfer | Phase::Lost => {}
        }
    }
}
