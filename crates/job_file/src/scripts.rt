//! The script of a job as its text, which contracts alone see.
ghost use Rattle.std.specs.Prelude.{◌≡◌};

use history::History;

/// The bytes of a script, of which none is kept.
#[derive(Drop)]
pub struct Script {
    pub text: History<u8>,
}

impl Script {
    /// The script of these bytes.
    pub fn of(text: &[u8]) -> Script
        ensures { result.text ≡ text.now }
    {
        let mut seen = History::none();
        for byte in text {
            seen = seen.put_behind(byte);
        }
        Script { text: seen }
    }
}
