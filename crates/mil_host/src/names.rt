//! The names of actions.
ghost use Rattle.mil_host.specs.Reading.{name_of};
ghost use Rattle.std.specs.Prelude.{◌≡◌};

/// The first word of an action's text.
#[derive(Clone, Copy, Debug)]
pub enum Name {
    TransmitName,
    BusyName,
    ServiceName,
    SubsystemName,
    FaultName,
    ControlName,
    VectorName,
    SelfTestName,
    IllegalName,
    LegalName,
    ResponseName,
    DeafName,
    MuteName,
    BroadcastName,
    PowerName,
    BitName,
    GapName,
    RampName,
}

/// The name that a word spells.
pub fn name_in(word: &[u8]) -> Option<Name>
    ensures { result ≡ name_of word.now }
{
    if word == b"transmit".as_slice() {
        Some(Name::TransmitName)
    } else if word == b"busy".as_slice() {
        Some(Name::BusyName)
    } else if word == b"service".as_slice() {
        Some(Name::ServiceName)
    } else if word == b"subsystem".as_slice() {
        Some(Name::SubsystemName)
    } else if word == b"fault".as_slice() {
        Some(Name::FaultName)
    } else if word == b"control".as_slice() {
        Some(Name::ControlName)
    } else if word == b"vector".as_slice() {
        Some(Name::VectorName)
    } else if word == b"selftest".as_slice() {
        Some(Name::SelfTestName)
    } else if word == b"illegal".as_slice() {
        Some(Name::IllegalName)
    } else if word == b"legal".as_slice() {
        Some(Name::LegalName)
    } else if word == b"response".as_slice() {
        Some(Name::ResponseName)
    } else if word == b"deaf".as_slice() {
        Some(Name::DeafName)
    } else if word == b"mute".as_slice() {
        Some(Name::MuteName)
    } else if word == b"broadcast".as_slice() {
        Some(Name::BroadcastName)
    } else if word == b"power".as_slice() {
        Some(Name::PowerName)
    } else if word == b"bit".as_slice() {
        Some(Name::BitName)
    } else if word == b"gap".as_slice() {
        Some(Name::GapName)
    } else if word == b"ramp".as_slice() {
        Some(Name::RampName)
    } else {
        None
    }
}
