ghost use Rattle.std.specs.Prelude.{◌≡◌};
ghost use Rattle.checker.specs.Answering.{answer, of_fault};

use crate::fault::CheckFault;
use answers::Answer;
use checking::Refusal;
use shape::ShapeFault;

/// A fault as it is reported: by its kind.
impl From<CheckFault> for Answer {
    ghost from_gives = { λ fault reported. reported ≡ of_fault fault };

    fn from(fault: CheckFault) -> Answer {
        let number = fault.number();
        match fault {
            CheckFault::Listing(fault) => Answer::Text {
                number,
                place: fault.place(),
            },
            CheckFault::Refused(Refusal::Shape(ShapeFault::Types(row)), _) => {
                Answer::Types { number, row }
            }
            CheckFault::Refused(refusal, place) => Answer::Row {
                number,
                row: refusal.row(),
                place,
            },
        }
    }
}

/// The answer that is reported: the process rows of an accepted text, or the fault by its kind.
pub fn answer_of(verdict: Result<usize, CheckFault>) -> Answer
    ensures { result ≡ answer verdict }
{
    match verdict {
        Ok(rows) => Answer::Accepted { rows },
        Err(fault) => fault.into(),
    }
}
