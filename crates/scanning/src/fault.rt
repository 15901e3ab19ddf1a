ghost use Rattle.std.specs.Prelude.{◌≡◌};
ghost use Rattle.scanning.specs.declared.fault.ListingFault.TheVariants.{Word as FromWord};
ghost use Rattle.scanning.specs.Faults.{listing_number, listing_place};

use words::WordFault;

/// Why a text is no listing, with the place where the fault begins.
#[derive(Clone, Copy, Debug, PartialEq, Eq)]
pub enum ListingFault {
    /// a text over 32,768 bytes
    TooLong,
    /// a fault of the words
    Word(WordFault),
    /// the grammar wants another word, or two types or two free names share a word
    Grammar(usize),
    /// a name that is not in scope
    Name(usize),
    /// a limit, or a lent table, is passed
    Limit(usize),
}

impl From<WordFault> for ListingFault {
    ghost from_gives = { λ w r. r ≡ FromWord w };

    fn from(found: WordFault) -> ListingFault {
        ListingFault::Word(found)
    }
}

impl ListingFault {
    /// The number by which the fault is reported.
    // Kept: a match, since `as` takes no enum whose cases carry values.
    pub fn number(self) -> u16
        ensures { result ≡ listing_number self }
    {
        match self {
            ListingFault::TooLong => 10,
            ListingFault::Word(w) => w.number(),
            ListingFault::Grammar(_) => 13,
            ListingFault::Name(_) => 14,
            ListingFault::Limit(_) => 15,
        }
    }

    /// Where the fault begins.
    pub fn place(self) -> usize
        ensures { result ≡ listing_place self }
    {
        match self {
            ListingFault::TooLong => 32768,
            ListingFault::Word(w) => w.place(),
            ListingFault::Grammar(place) | ListingFault::Name(place) | ListingFault::Limit(place) =>
                place,
        }
    }
}
