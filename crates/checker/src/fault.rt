ghost use Rattle.std.specs.Prelude.{◌≡◌};
ghost use Rattle.checker.specs.Fault.{fault_layer, fault_number, fault_row, fault_place};
ghost use Rattle.checker.specs.declared.fault.CheckFault.TheVariants.{Listing as NoListing};

use checking::Refusal;
use scanning::ListingFault;

/// The layer that found a fault.
#[derive(Clone, Copy, Debug, PartialEq, Eq)]
pub enum Layer {
    /// the words of the text
    Words,
    /// the listing's grammar, names and limits
    Listing,
    /// the shape of its tables
    Shape,
    /// the typing rules
    Typing,
}

/// Why a text is refused.
#[derive(Clone, Copy, Debug, PartialEq, Eq)]
pub enum CheckFault {
    /// it is no listing
    Listing(ListingFault),
    /// the listing is refused; with the place where the text of its row begins, or 0 where the fault
    /// is of no process row
    // Kept: 0 and no `Option`, by a rule of the project: a fault names plain places.
    Refused(Refusal, usize),
}

impl From<ListingFault> for CheckFault {
    ghost from_gives = { λ f r. r ≡ NoListing f };

    fn from(found: ListingFault) -> CheckFault {
        CheckFault::Listing(found)
    }
}

impl CheckFault {
    /// The layer that found the fault.
    pub fn layer(self) -> Layer
        ensures { result ≡ fault_layer self }
    {
        match self {
            CheckFault::Listing(ListingFault::Word(_)) => Layer::Words,
            CheckFault::Listing(_) => Layer::Listing,
            CheckFault::Refused(Refusal::Shape(_), _) => Layer::Shape,
            CheckFault::Refused(Refusal::Typing(_, _), _) => Layer::Typing,
        }
    }

    /// The number by which the fault is reported.
    pub fn number(self) -> u16
        ensures { result ≡ fault_number self }
    {
        match self {
            CheckFault::Listing(fault) => fault.number(),
            CheckFault::Refused(refusal, _) => refusal.number(),
        }
    }

    /// The row at fault; 0 where the text is no listing.
    // Kept: 0 and no `Option`, by a rule of the project: a fault names plain rows.
    pub fn row(self) -> usize
        ensures { result ≡ fault_row self }
    {
        match self {
            CheckFault::Listing(_) => 0,
            CheckFault::Refused(refusal, _) => refusal.row(),
        }
    }

    /// The place in the text where the fault begins.
    pub fn place(self) -> usize
        ensures { result ≡ fault_place self }
    {
        match self {
            CheckFault::Listing(fault) => fault.place(),
            CheckFault::Refused(_, place) => place,
        }
    }
}
