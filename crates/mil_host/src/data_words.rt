//! Data words as text.
use std::fmt::{self, Display, Formatter, Write};

/// A data word that prints as four upper-case hexadecimal digits.
#[derive(Clone, Copy, Debug)]
pub struct DataWord(pub u16);

impl Display for DataWord {
    ghost use Rattle.mil_host.specs.Printing.{data_text};
    ghost use Rattle.std.specs.Prelude.{Some};

    ghost output = { λ w. Some (data_text w.0) };

    fn fmt<W: Write>(&self, f: &mut Formatter<W>) -> fmt::Result {
        let high = self.0 / 256;
        let low = self.0 % 256;
        write!(f, "{high:02X}{low:02X}")
    }
}

/// Data words that print each with a space before it.
#[derive(Clone, Copy)]
pub struct DataWords<'a>(pub &'a [u16]);

impl Display for DataWords<'_> {
    ghost use Rattle.mil_host.specs.Printing.{spaced_data};
    ghost use Rattle.std.specs.List.{flat_map};
    ghost use Rattle.std.specs.Prelude.{Some};

    ghost output = { λ ws. Some (flat_map spaced_data ws.0.now) };

    fn fmt<W: Write>(&self, f: &mut Formatter<W>) -> fmt::Result {
        for word in self.0 {
            write!(f, " {}", DataWord(*word))?;
        }
        Ok(())
    }
}
