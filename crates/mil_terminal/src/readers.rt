//! What the host of a terminal has set, as it is read.
ghost use Rattle.mil_terminal.specs.History.{History};
ghost use Rattle.mil_terminal.specs.Host as host;
ghost use Rattle.mil_terminal.specs.PutUp.{ramp_at};
ghost use Rattle.mil_terminal.specs.Service.{requests_service, waits_once};
ghost use Rattle.mil_word.specs.Fields.{field_values};
ghost use Rattle.std.specs.Prelude.{◌≡◌, ◌<◌};

use crate::registers::Registers;

/// What the host of a terminal has set on or off, its lines and its marks of commands excepted.
#[derive(Clone, Copy, Debug)]
pub struct HostConditions {
    pub busy: bool,
    /// Whether service is requested.
    pub service: bool,
    pub subsystem: bool,
    pub fault: bool,
    pub control: bool,
    /// Whether service is requested until a reply has the vector word.
    pub once: bool,
    /// Whether commands to all terminals are commands for it.
    pub broadcast: bool,
    /// The gap before replies in ticks of 0.1 µs, where it was set apart from the response time.
    pub gap: Option<u16>,
}

impl Registers {
    ghost use Rattle.mil_terminal.specs.StandsFor.{StandsFor};

    /// Whether the terminal is off.
    #[inline]
    pub fn is_off(&self) -> bool
        ensures { (h : History) → StandsFor self.now h → result ≡ host.is_off h }
    {
        self.host.off
    }

    /// What the host has set on or off.
    pub fn conditions_set(&self) -> HostConditions
        ensures { (h : History) → StandsFor self.now h → result ≡ record {
          busy = host.is_busy h;
          service = requests_service self.now.own h;
          subsystem = host.has_subsystem_fault h;
          fault = host.has_fault h;
          control = host.accepts_control h;
          once = waits_once self.now.own h;
          broadcast = host.takes_broadcast h;
          gap = host.set_gap h;
        } }
    {
        let set = &self.host;
        HostConditions {
            busy: set.busy,
            service: set.service,
            subsystem: set.subsystem,
            fault: set.fault,
            control: set.control,
            once: set.once,
            broadcast: set.broadcast,
            gap: set.gap(),
        }
    }

    /// Whether it has marked mode commands of this T/R bit and mode code as illegal.
    pub fn marks_mode(&self, transmit: bool, code: u8) -> bool
        requires { code < field_values }
        ensures { (h : History) → StandsFor self.now h → result ≡ host.is_mode_marked transmit code h }
    {
        self.host.marks.has_mode(transmit, code)
    }

    /// What the ramp at a place, counted from 0, of a subaddress adds, if there is one.
    pub fn ramp(&self, sub: u8, place: u8) -> Option<u16>
        requires { sub < field_values }
        ensures { (h : History) → StandsFor self.now h → result ≡ ramp_at sub place h }
    {
        self.block.ramp(sub, usize::from(place))
    }
}
