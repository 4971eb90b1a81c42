//! What is wrong with a text, and where.

use mil_message::BadMessage;
use std::fmt::{self, Display, Formatter, Write};

/// What is wrong with a text. Faults are found from left to right, and the first one counts.
#[derive(Clone, Copy, Debug, PartialEq, Eq)]
pub enum Cause {
    /// S1: a byte that is in no token of the language.
    Byte,
    /// S2: a token that may not stand there, or an unknown name of a status bit.
    Token,
    /// S3: a word that is no number of one to seven digits, or no data word of four hexadecimal digits.
    Number,
    /// S4: numbers that no message has, at the first word of the message, once it is read.
    Message(BadMessage),
    /// S5: the text ends inside a frame or a block, at the place directly after its last byte.
    End,
    /// S6: more than 16 blocks in one another, at the opening brace, or at the `call` whose body would bring them over
    /// 16; the braces of a definition are no block. Or more than 16 operators above a test of a condition, at the
    /// operator.
    Depth,
    /// S7: a number out of its range: a repeat or an until outside 1 to 10,000, a retry outside 1 to 8, a gap outside
    /// 40 to 65,535, a period of a frame that is no multiple of 100 µs from 100 to 6,553,500.
    Range,
    /// S10: a definition of a name that was defined before, or a call of one that was not, at the name.
    Name,
    /// S11: a thirty-third definition, at its `define`.
    Definitions,
    /// S8: more than 1,000,000 messages at worst, at line 1 column 1, once the text is read to its end.
    Messages,
}

/// A place in a text: lines count from 1 by LF, columns from 1 by bytes.
#[derive(Clone, Copy, Debug, PartialEq, Eq)]
pub struct Place {
    pub line: u64,
    pub column: u64,
}

/// Why a text is refused.
#[derive(Clone, Copy, Debug, PartialEq, Eq)]
pub enum ScriptError {
    /// What is wrong with the text, and where: at the token, where the cause says no other place.
    Text { cause: Cause, place: Place },
    /// S9: memory was refused, at the token that was being read.
    Memory { place: Place },
}

/// A fault of a text that is being read.
#[derive(Clone, Copy, Debug, PartialEq, Eq)]
pub enum TextFault {
    /// What is wrong, and how many tokens are left from its place on, none at the end of the text.
    Text(Cause, usize),
    /// Memory was refused when this many bytes behind the token were left.
    Memory(usize),
}

impl Cause {
    ghost use Rattle.frame_text.specs.Codes.{fault_code};
    ghost use Rattle.std.specs.Prelude.{◌≡◌};

    /// `S1` to `S8`, `S10` and `S11`.
    fn code(&self) -> &'static str
        ensures { result.now ≡ fault_code self.now }
    {
        match self {
            Cause::Byte => "S1",
            Cause::Token => "S2",
            Cause::Number => "S3",
            Cause::Message(_) => "S4",
            Cause::End => "S5",
            Cause::Depth => "S6",
            Cause::Range => "S7",
            Cause::Messages => "S8",
            Cause::Name => "S10",
            Cause::Definitions => "S11",
        }
    }
}

/// `S1` to `S8`, `S10`, `S11`, and `S4 M1` to `S4 M5`.
impl Display for Cause {
    ghost use Rattle.frame_text.specs.Codes.{cause_text};
    ghost use Rattle.std.specs.Prelude.{Some};

    ghost output = { λ c. Some (cause_text c) };

    fn fmt<W: Write>(&self, f: &mut Formatter<W>) -> fmt::Result {
        match self {
            Cause::Message(bad) => write!(f, "S4 {bad}"),
            _ => f.write_str(self.code()),
        }
    }
}

/// `line 1 column 8`.
impl Display for Place {
    ghost use Rattle.frame_text.specs.Codes.{place_text};
    ghost use Rattle.std.specs.Prelude.{Some};

    ghost output = { λ p. Some (place_text p) };

    fn fmt<W: Write>(&self, f: &mut Formatter<W>) -> fmt::Result {
        write!(f, "line {} column {}", self.line, self.column)
    }
}

/// `S7 line 1 column 8`, `S4 line 1 column 8 M3`, and `memory`.
impl Display for ScriptError {
    ghost use Rattle.frame_text.specs.Codes.{error_text};
    ghost use Rattle.std.specs.Prelude.{Some};

    ghost output = { λ e. Some (error_text e) };

    fn fmt<W: Write>(&self, f: &mut Formatter<W>) -> fmt::Result {
        match self {
            ScriptError::Text {
                cause: Cause::Message(bad),
                place,
            } => write!(f, "S4 {place} {bad}"),
            ScriptError::Text { cause, place } => write!(f, "{} {place}", cause.code()),
            ScriptError::Memory { .. } => f.write_str("memory"),
        }
    }
}
