//! What one pass over the words of a talk counts.
ghost use Rattle.mil_bus.specs.Counts.{counts_of, takes_command, differs};
ghost use Rattle.mil_bus.specs.Lengthened.{is_data, AreLike, longer, goes_on, lengthened};
ghost use Rattle.mil_bus.specs.Pass.{noted, one_more, words_in, place_in, breaks};
ghost use Rattle.mil_line.specs.Ranges.{most_sent};
ghost use Rattle.mil_word.specs.Words.{is_command_sync};
ghost use Rattle.std.specs.Prelude.{◌≡◌, ℕ, ◌+◌, ◌<◌, ◌≤◌, [], length};

use crate::Sent;
use mil_line::{Gap, MOST_SENT};
use mil_word::{Sync, Word, decode};

/// A reply that came.
#[derive(Clone, Copy, Debug, PartialEq, Eq)]
pub struct Came {
    /// The gap of its first word.
    pub gap: Gap,
    /// Its first word where that is sound.
    pub first: Option<Word>,
    /// How many words it had, 1 to 40.
    pub count: u8,
}

/// What is seen of a talk.
#[derive(Clone, Copy, Debug, PartialEq, Eq)]
pub struct TalkCounts {
    /// How many words the controller sent.
    pub controllers: u8,
    /// The first reply.
    pub one: Option<Came>,
    /// The second reply.
    pub two: Option<Came>,
    /// Whether a reply came beyond those due.
    pub beyond: bool,
    /// Whether a word was unsound.
    pub unsound: bool,
    /// Whether a sound word had the wrong sync for its place.
    pub other_sync: bool,
    /// Whether a word of the controller or of a due reply, but the first of its run, did not follow the one before at
    /// once.
    pub paused: bool,
}

/// Whether a place takes command sync.
fn takes_command(commands: u8, due: u8, run: u8, place: u8) -> bool
    ensures { result ≡ takes_command commands due run place }
{
    if run == 0 {
        place < commands
    } else {
        run - 1 < due && place == 0
    }
}

/// Whether a word has command sync.
pub fn is_command(word: Word) -> bool
    ensures { result ≡ is_command_sync word.sync }
{
    match word.sync {
        Sync::CommandSync => true,
        Sync::DataSync => false,
    }
}

/// Whether the word, where it is sound, has the other sync.
fn differs(command: bool, word: Option<Word>) -> bool
    ensures { result ≡ differs command word }
{
    match word {
        None => false,
        Some(word) => {
            if command {
                !is_command(word)
            } else {
                is_command(word)
            }
        }
    }
}

/// Whether this is a sound data word.
#[inline]
fn is_data(word: Option<Word>) -> bool
    ensures { result ≡ is_data word }
{
    match word {
        None => false,
        Some(word) => !is_command(word),
    }
}

/// A reply with so many words more.
fn longer(came: Option<Came>, more: u8) -> Option<Came>
    requires { words_in came + more < 256 }
    ensures { result ≡ longer came more }
{
    match came {
        None => None,
        Some(came) => Some(Came {
            gap: came.gap,
            first: came.first,
            count: came.count + more,
        }),
    }
}

/// A reply with one more word.
fn one_more(came: Option<Came>, gap: Gap, word: Option<Word>) -> Option<Came>
    requires { words_in came < 100 }
    ensures { result ≡ one_more came gap word }
{
    match came {
        None => Some(Came {
            gap,
            first: word,
            count: 1,
        }),
        Some(came) => Some(Came {
            gap: came.gap,
            first: came.first,
            count: came.count + 1,
        }),
    }
}

/// How many words a reply has.
fn words_in(came: Option<Came>) -> u8
    ensures { result ≡ words_in came }
{
    match came {
        None => 0,
        Some(came) => came.count,
    }
}

impl TalkCounts {
    /// What is seen where no word was sent.
    #[tactic(auto, unfolding(crate::specs::Counts::counts_of))]
    pub fn none() -> TalkCounts
        ensures { (commands due : ℕ) → result ≡ counts_of commands due [] }
    {
        TalkCounts {
            controllers: 0,
            one: None,
            two: None,
            beyond: false,
            unsound: false,
            other_sync: false,
            paused: false,
        }
    }

    /// Where the next word of a run stands in it, as far as that matters.
    fn place(&self, run: u8) -> u8
        ensures { result ≡ place_in self.now run }
    {
        if run == 0 {
            self.controllers
        } else if run == 1 {
            words_in(self.one)
        } else {
            words_in(self.two)
        }
    }

    /// Whether a pause stands before the next word of a run, which has one before it, and counts.
    fn breaks(&self, due: u8, sent: &Sent) -> bool
        ensures { result ≡ breaks due self.now sent.now }
    {
        !sent.gap.is_contiguous() && (!(due < sent.run) && 0 < self.place(sent.run))
    }

    /// Whether a further data word of a run is in its place.
    pub(crate) fn goes_on(&self, commands: u8, due: u8, run: u8) -> bool
        ensures { result ≡ goes_on commands due self.now run }
    {
        if run == 0 {
            !(self.controllers < commands)
        } else if run == 1 {
            0 < words_in(self.one) && (self.beyond || !(due < 1))
        } else if run == 2 {
            0 < words_in(self.two) && (self.beyond || !(due < 2))
        } else {
            false
        }
    }

    /// Counts so many data words more, each in its place.
    pub(crate) fn lengthen(&mut self, run: u8, more: u8)
        requires controllers { self.old.controllers + more < 256 }
        requires one { words_in self.old.one + more < 256 }
        requires two { words_in self.old.two + more < 256 }
        ensures { self.new ≡ lengthened self.old run more }
    {
        if run == 0 {
            self.controllers += more;
        } else if run == 1 {
            self.one = longer(self.one, more);
        } else if run == 2 {
            self.two = longer(self.two, more);
        }
    }

    /// Counts one more word.
    pub(crate) fn note(&mut self, commands: u8, due: u8, sent: &Sent)
        requires controllers { self.old.controllers < 100 }
        requires one { words_in self.old.one < 100 }
        requires two { words_in self.old.two < 100 }
        ensures { self.new ≡ noted commands due self.old sent.now }
    {
        let word = decode(sent.wave);
        self.unsound = self.unsound || word.is_none();
        self.paused = self.paused || self.breaks(due, sent);
        if sent.run == 0 {
            self.other_sync = self.other_sync || differs(self.controllers < commands, word);
            self.controllers += 1;
            return;
        }
        self.other_sync = self.other_sync
            || differs(
                takes_command(commands, due, sent.run, self.place(sent.run)),
                word,
            );
        self.beyond = self.beyond || due < sent.run;
        if sent.run == 1 {
            self.one = one_more(self.one, sent.gap, word);
        } else if sent.run == 2 {
            self.two = one_more(self.two, sent.gap, word);
        }
    }
}

/// How many words at the beginning of these are sound data words of a run that follow the one before at once.
#[inline(never)]
fn count_like(run: u8, words: &[Sent]) -> usize
    ensures within { result ≤ length words.now }
    ensures like { AreLike run result words.now }
{
    for i in 0..words.len() {
        if words[i].run != run || !words[i].gap.is_contiguous() || !is_data(decode(words[i].wave)) {
            return i;
        }
    }
    words.len()
}

/// One pass over the words of a talk, where so many commands are sent and so many replies are due. The data words of a
/// run, once the first is in its place, are counted together.
pub fn counted(commands: u8, due: u8, sent: &[Sent]) -> TalkCounts
    requires few { length sent.now ≤ most_sent }
    requires two { due ≤ 2 }
    ensures { result ≡ counts_of commands due sent.now }
{
    let mut seen = TalkCounts::none();
    let mut from = 0;
    for _step in 0..MOST_SENT {
        if from == sent.len() {
            return seen;
        }
        let run = sent[from].run;
        seen.note(commands, due, &sent[from]);
        from += 1;
        if seen.goes_on(commands, due, run) {
            let more = count_like(run, &sent[from..]);
            seen.lengthen(run, more as u8);
            from += more;
        }
    }
    seen
}
