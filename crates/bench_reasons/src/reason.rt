//! Why a text is refused, in words, and which of its words is at fault.

use crate::places::Place;

/// Why a text is refused: the words at fault, and what to do.
#[derive(Clone, Copy, Debug, PartialEq, Eq)]
pub struct Reason {
    /// Where the words at fault begin.
    pub place: Place,
    /// How many bytes of the line they have.
    pub width: usize,
    /// What is wrong.
    pub why: &'static str,
    /// What may stand there, or what to do.
    pub remedy: &'static str,
    /// Another place that has to do with it.
    pub other: Option<Other>,
}

/// A place that has to do with a fault at another.
#[derive(Clone, Copy, Debug, PartialEq, Eq)]
pub struct Other {
    /// Where it is.
    pub place: Place,
    /// How many bytes of the line it has.
    pub width: usize,
    /// What it has to do with the fault.
    pub why: &'static str,
}

impl Reason {
    /// A reason at one place.
    pub fn at(place: Place, width: usize, why: &'static str, remedy: &'static str) -> Reason {
        Reason {
            place,
            width,
            why,
            remedy,
            other: None,
        }
    }

    /// A reason of a whole line, which has this number.
    pub(crate) fn of_line(
        number: u64,
        line: &[u8],
        why: &'static str,
        remedy: &'static str,
    ) -> Reason {
        let place = Place {
            line: number,
            column: 1,
        };
        Reason::at(place, line.len(), why, remedy)
    }

    /// The reason of a text of one line, where that is the line of this number of a text.
    pub fn in_line(self, number: u64) -> Reason {
        let place = |place: Place| Place {
            line: number,
            ..place
        };
        Reason {
            place: place(self.place),
            other: match self.other {
                None => None,
                Some(other) => Some(Other {
                    place: place(other.place),
                    ..other
                }),
            },
            ..self
        }
    }
}
