//! What the host has set.
ghost use Rattle.mil_terminal.specs.History.{History};
ghost use Rattle.mil_terminal.specs.declared.events.Event.TheVariants.{Host as host_event};
ghost use Rattle.std.specs.Prelude.{◌≡◌, ℕ, [], ◌∷◌, Some, None, if◌then◌else◌};

use crate::by_lines::ByLine;
use crate::marks::Marks;
use mil_host::Action;
use mil_line::Gap;

/// The response time before a host sets one, in ticks of 0.1 µs (own choice, within MIL-STD-1553B 4.3.3.8).
const FIRST_RESPONSE: u16 = 80;

/// The latest setting of each kind, the words that are put up excepted.
#[derive(Drop)]
pub struct Settings {
    pub busy: bool,
    pub service: bool,
    pub subsystem: bool,
    pub fault: bool,
    pub control: bool,
    pub vector: u16,
    pub self_test: u16,
    pub response: Gap,
    /// The BIT word that the host set.
    pub bit: u16,
    /// Whether the response was set as a gap apart from the response time.
    pub by_gap: bool,
    /// Whether service is requested until a reply has the vector word.
    pub once: bool,
    pub broadcast: bool,
    pub off: bool,
    pub marks: Marks,
    pub deaf: ByLine,
    pub mute: ByLine,
}

impl Settings {
    ghost use Rattle.mil_terminal.specs.StandsFor.{AreSettings};
    ghost use Rattle.mil_terminal.specs.Updates.{served};

    /// The settings before any action.
    pub fn at_first() -> Settings
        ensures { (own : ℕ) → AreSettings own result [] }
    {
        Settings {
            busy: false,
            service: false,
            subsystem: false,
            fault: false,
            control: false,
            vector: 0,
            self_test: 0,
            response: Gap::of(FIRST_RESPONSE),
            bit: 0,
            by_gap: false,
            once: false,
            broadcast: true,
            off: false,
            marks: Marks::none(),
            deaf: ByLine::none(),
            mute: ByLine::none(),
        }
    }

    /// One more action.
    pub fn set(&mut self, action: &Action)
        ensures { (own : ℕ) (h : History) → AreSettings own self.old h
            → AreSettings own self.new (host_event action.now ∷ h) }
    {
        match action {
            Action::Transmit(_) => {}
            Action::Ramp(_) => {}
            Action::Busy(on) => self.busy = *on,
            Action::Service(on) => {
                self.service = *on;
                self.once = false;
            }
            Action::ServiceOnce => {
                self.service = true;
                self.once = true;
            }
            Action::Subsystem(on) => self.subsystem = *on,
            Action::Fault(on) => self.fault = *on,
            Action::Control(on) => self.control = *on,
            Action::Vector(word) => self.vector = *word,
            Action::SelfTest(word) => self.self_test = *word,
            Action::Illegal(mark) => self.marks.set(*mark, true),
            Action::Legal(mark) => self.marks.set(*mark, false),
            Action::Response(gap) => {
                self.response = Gap::of(u16::from(gap.ticks()));
                self.by_gap = false;
            }
            Action::Gap(gap) => {
                self.response = Gap::of(u16::from(gap.ticks()));
                self.by_gap = true;
            }
            Action::Deaf { line, on } => self.deaf.set(*line, *on),
            Action::Mute { line, on } => self.mute.set(*line, *on),
            Action::IllegalMode(mark) => self.marks.set_mode(*mark, true),
            Action::LegalMode(mark) => self.marks.set_mode(*mark, false),
            Action::Broadcast(on) => self.broadcast = *on,
            Action::Power(on) => self.off = !*on,
            Action::BitWord(word) => self.bit = *word,
        }
    }

    /// The gap before replies in ticks of 0.1 µs, where it was set apart from the response time.
    pub fn gap(&self) -> Option<u16>
        ensures { result ≡ (if self.now.by_gap then Some self.now.response else None) }
    {
        if self.by_gap {
            Some(self.response.ticks())
        } else {
            None
        }
    }

    /// A reply had the vector word, which ends a service request that was asked for once.
    pub fn serve(&mut self)
        ensures { self.new ≡ served self.old }
    {
        if self.once {
            self.service = false;
            self.once = false;
        }
    }

    /// The same settings.
    pub fn copy(&self) -> Settings
        ensures { result ≡ self.now }
    {
        self.save().settings(self.marks.copy())
    }
}
