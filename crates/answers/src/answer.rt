ghost use Rattle.std.specs.Prelude.{Some};
ghost use Rattle.answers.specs.Line.{report};

use std::fmt;

/// The answer to a listing's text, as it is reported: a fault by its number.
// Kept: numbers, since a report is what its line prints; what is at fault stands in the fault's enum.
#[derive(Clone, Copy, Debug, PartialEq, Eq)]
pub enum Answer {
    /// accepted, with the number of its process rows
    Accepted {
        rows: usize,
    },
    /// a process row is refused: the number, the row and the place of its first byte
    Row {
        number: u16,
        row: usize,
        place: usize,
    },
    /// a type is refused: the number and the row
    Types {
        number: u16,
        row: usize,
    },
    /// the text is refused: the number and the place
    Text {
        number: u16,
        place: usize,
    },
}

impl fmt::Display for Answer {
    ghost output = { λ answer. Some (report answer) };

    fn fmt<W: fmt::Write>(&self, f: &mut fmt::Formatter<W>) -> fmt::Result {
        match self {
            Answer::Accepted { rows } => write!(f, "accepted {rows}"),
            Answer::Row { number, row, place } => {
                write!(f, "refused {number} row {row} at {place}")
            }
            Answer::Types { number, row } => write!(f, "refused {number} type {row}"),
            Answer::Text { number, place } => write!(f, "refused {number} at {place}"),
        }
    }
}
