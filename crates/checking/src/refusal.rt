ghost use Rattle.std.specs.Prelude.{◌≡◌};
ghost use Rattle.checking.specs.Refusal.{refusal_number, refusal_row};
ghost use Rattle.checking.specs.declared.refusal.Refusal.TheVariants.{Shape as OutOfShape};

use shape::ShapeFault;
use typing::Misuse;

/// Why a listing is refused.
#[derive(Clone, Copy, Debug, PartialEq, Eq)]
pub enum Refusal {
    /// its tables are out of shape
    Shape(ShapeFault),
    /// a process row, or a term of it, breaks a typing rule
    Typing(Misuse, usize),
}

impl From<ShapeFault> for Refusal {
    ghost from_gives = { λ f r. r ≡ OutOfShape f };

    fn from(found: ShapeFault) -> Refusal {
        Refusal::Shape(found)
    }
}

impl Refusal {
    /// The number by which the refusal is reported.
    pub fn number(self) -> u16
        ensures { result ≡ refusal_number self }
    {
        match self {
            Refusal::Shape(fault) => fault.number(),
            Refusal::Typing(misuse, _) => misuse.number(),
        }
    }

    /// The row at fault.
    pub fn row(self) -> usize
        ensures { result ≡ refusal_row self }
    {
        match self {
            Refusal::Shape(fault) => fault.row(),
            Refusal::Typing(_, row) => row,
        }
    }
}
