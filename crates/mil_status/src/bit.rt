//! One bit of a status word.
ghost use Rattle.mil_status.specs.Status as table;
ghost use Rattle.std.specs.Prelude.{◌≡◌, IfSome};

/// A bit of a status word that has a meaning (MIL-STD-1553B 4.3.3.5.3).
#[derive(Clone, Copy, Debug, PartialEq, Eq)]
pub enum StatusBit {
    /// The last message was not valid, or its command was illegal (4.3.3.5.3.3).
    MessageError,
    /// Tells a status word from a command word, where it is used (4.3.3.5.3.4).
    Instrumentation,
    /// The terminal asks for service (4.3.3.5.3.5).
    ServiceRequest,
    /// The last valid command was a broadcast (4.3.3.5.3.7).
    Broadcast,
    /// The terminal cannot move data now (4.3.3.5.3.8).
    Busy,
    /// A fault in the subsystem (4.3.3.5.3.9).
    Subsystem,
    /// The terminal accepts control of the bus (4.3.3.5.3.10).
    Control,
    /// A fault in the terminal (4.3.3.5.3.11).
    Terminal,
}

impl StatusBit {
    /// The bits that have a meaning, the first on the line first.
    const EVERY: [StatusBit; 8] = [
        StatusBit::MessageError,
        StatusBit::Instrumentation,
        StatusBit::ServiceRequest,
        StatusBit::Broadcast,
        StatusBit::Busy,
        StatusBit::Subsystem,
        StatusBit::Control,
        StatusBit::Terminal,
    ];

    /// Its place in a status word, 0 (terminal flag) to 4 (broadcast) or 8 (service request) to 10 (message error).
    pub fn place(self) -> u8
        ensures { result ≡ table.place_of self }
    {
        match self {
            StatusBit::MessageError => 10,
            StatusBit::Instrumentation => 9,
            StatusBit::ServiceRequest => 8,
            StatusBit::Broadcast => 4,
            StatusBit::Busy => 3,
            StatusBit::Subsystem => 2,
            StatusBit::Control => 1,
            StatusBit::Terminal => 0,
        }
    }

    /// The bit at this place, if one with a meaning stands there: none at 5, 6, 7 and from 11 on.
    pub fn at(place: u16) -> Option<StatusBit>
        ensures answer { result ≡ table.bit_at place }
        ensures place { IfSome result (λ b. table.place_of b ≡ place) }
    {
        match place {
            10 => Some(StatusBit::MessageError),
            9 => Some(StatusBit::Instrumentation),
            8 => Some(StatusBit::ServiceRequest),
            4 => Some(StatusBit::Broadcast),
            3 => Some(StatusBit::Busy),
            2 => Some(StatusBit::Subsystem),
            1 => Some(StatusBit::Control),
            0 => Some(StatusBit::Terminal),
            _ => None,
        }
    }

    /// Its name, as scripts write it: `message_error`, `instrumentation`, `service_request`, `broadcast`, `busy`,
    /// `subsystem`, `control` or `terminal`.
    pub fn name(self) -> &'static str
        ensures { result.now ≡ table.name_of self }
    {
        match self {
            StatusBit::MessageError => "message_error",
            StatusBit::Instrumentation => "instrumentation",
            StatusBit::ServiceRequest => "service_request",
            StatusBit::Broadcast => "broadcast",
            StatusBit::Busy => "busy",
            StatusBit::Subsystem => "subsystem",
            StatusBit::Control => "control",
            StatusBit::Terminal => "terminal",
        }
    }

    /// The bit of this name, if it has one; only the eight names have.
    pub fn named(name: &[u8]) -> Option<StatusBit>
        ensures { result ≡ table.bit_named name.now }
    {
        for bit in StatusBit::EVERY {
            if name == bit.name().as_bytes() {
                return Some(bit);
            }
        }
        None
    }
}
