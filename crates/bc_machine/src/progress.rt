//! How far a controller has come.
ghost use Rattle.std.specs.Prelude.{◌≡◌, ◌<◌, ◌+◌, ◌^◌, Some};

use crate::stack::Stack;
use mil_bus::Outcome;
use mil_line::Gap;
use mil_word::Line;

/// What steps change of a controller, but for its bus.
#[derive(Drop)]
pub struct Progress {
    /// How many steps it took.
    pub taken: u32,
    pub place: u16,
    pub counters: Stack<u16, 17>,
    pub returns: Stack<u16, 32>,
    /// The tick at which each frame that is open began.
    pub frames: Stack<u64, 16>,
    pub flag: bool,
    pub line: Line,
    pub gap: Gap,
    /// What the last message of the script came to.
    pub last: Option<Outcome>,
    /// What the latest message came to.
    pub latest: Option<Outcome>,
}

impl Progress {
    /// A step has sent a message of the script on this line, and this is what it came to.
    pub(crate) fn note_sent(&mut self, line: Line, outcome: Outcome)
        requires taken { self.old.taken < 2 ^ 31 }
        requires place { self.old.place < 4096 }
        ensures { self.new ≡ record self.old {
          taken = self.old.taken + 1;
          place = self.old.place + 1;
          line = line;
          last = Some outcome;
          latest = Some outcome;
        } }
    {
        self.last = Some(outcome);
        self.latest = Some(outcome);
        self.line = line;
        self.place += 1;
        self.taken += 1;
    }

    /// The same once more.
    pub fn copy(&self) -> Progress
        ensures { result ≡ self.now }
    {
        Progress {
            taken: self.taken,
            place: self.place,
            counters: self.counters.copy(),
            returns: self.returns.copy(),
            frames: self.frames.copy(),
            flag: self.flag,
            line: self.line,
            gap: self.gap,
            last: self.last,
            latest: self.latest,
        }
    }
}
