//! The text of what the host of a controller asks for.
ghost use Rattle.controller_host.specs.Ranges.{IsControl};
ghost use Rattle.controller_text.specs.Printing.{control_text};
ghost use Rattle.controller_text.specs.Reading.{control_in};
ghost use Rattle.std.specs.Prelude.{◌≡◌, ◌≤◌, All, Ok};
ghost use Rattle.text_lines.specs.Words.{words};

use controller_host::{Control, Destination, Insertion};
use frame_text::SendText;
use mil_host::{DataWord, DataWords};
use std::fmt::{self, Display, Formatter, Write};

/// A destination that prints as its command: `rx A S`, `brx S`, `mode A C` or `bmode C`.
#[derive(Clone, Copy)]
pub struct DestinationText(pub Destination);

impl Display for DestinationText {
    ghost use Rattle.controller_text.specs.Printing.{destination_text};
    ghost use Rattle.std.specs.Prelude.{Some};

    ghost output = { λ d. Some (destination_text d.0) };

    fn fmt<W: Write>(&self, f: &mut Formatter<W>) -> fmt::Result {
        match self.0 {
            Destination::Terminal {
                address,
                subaddress,
            } => write!(f, "rx {address} {subaddress}"),
            Destination::All { subaddress } => write!(f, "brx {subaddress}"),
            Destination::Mode { address, code } => write!(f, "mode {address} {code}"),
            Destination::ModeToAll { code } => write!(f, "bmode {code}"),
        }
    }
}

/// A message that stands in no frame, as its text.
#[derive(Clone, Copy)]
struct InsertionText<'a>(&'a Insertion);

impl Display for InsertionText<'_> {
    ghost use Rattle.controller_text.specs.Printing.{insertion_text};
    ghost use Rattle.std.specs.Prelude.{Some};

    ghost output = { λ x. Some (insertion_text x.0.now) };

    fn fmt<W: Write>(&self, f: &mut Formatter<W>) -> fmt::Result {
        let tick = self.0.tick();
        let send = SendText {
            line: self.0.line(),
            message: self.0.message(),
        };
        if tick == 0 {
            write!(f, "insert {send}")
        } else {
            write!(f, "insert at {tick} {send}")
        }
    }
}

/// What the host of a controller asks for as its text: single spaces, data words in upper case, and a message as a
/// script prints it.
#[derive(Clone, Copy)]
pub struct ControlText<'a>(pub &'a Control);

impl Display for ControlText<'_> {
    ghost use Rattle.controller_text.specs.Printing.{control_text};
    ghost use Rattle.std.specs.Prelude.{Some};

    ghost output = { λ c. Some (control_text c.0.now) };

    #[tactic(auto, unfolding(crate::specs::Printing::control_text))]
    fn fmt<W: Write>(&self, f: &mut Formatter<W>) -> fmt::Result {
        match self.0 {
            Control::Data(new) => {
                let destination = DestinationText(new.destination());
                let words = DataWords(new.words());
                write!(f, "data {destination}{words}")
            }
            Control::Ramp(ramp) => {
                let destination = DestinationText(ramp.destination());
                let place = ramp.place();
                let start = DataWord(ramp.start());
                let add = DataWord(ramp.add());
                write!(f, "ramp {destination} {place} {start} {add}")
            }
            Control::Insert(insertion) => write!(f, "{}", InsertionText(insertion)),
        }
    }
}

/// Law: what is printed is read back as the same, and stands on one line, with no control character.
pub fn reads_back(control: &Control)
    ensures range { IsControl control.now }
    ensures back { control_in (words (control_text control.now)) ≡ Ok control.now }
    ensures one_line { All (λ b. 32 ≤ b) (control_text control.now) }
{
    control.keeps_ranges();
}
