ghost use Rattle.std.specs.Prelude.{◌≡◌, ℕ, ◌-◌, ◌^◌, ◌≤◌};
ghost use Rattle.levels.specs.Masks.{within};
ghost use Rattle.levels.specs.Party.{fault_number, MadeOf, party_level, party_below, party_meet, party_open, readers, writers};
ghost use Rattle.levels.specs.PartyLaws.{party_laws};

use crate::parties::{Parties, SchemeFault};
use crate::scheme::Scheme;

impl SchemeFault {
    /// The number by which the fault is reported.
    pub fn number(self) -> u16
        ensures { result ≡ fault_number self }
    {
        self as u16
    }
}

impl Parties {
    /// The scheme of so many parties; it refuses any number but 1 to 8.
    pub fn new(count: u16) -> Result<Parties, SchemeFault>
        ensures { MadeOf count result }
    {
        if !(1..=8).contains(&count) {
            return Err(SchemeFault::PartyCount);
        }
        Ok(Parties { count })
    }

    // The set of readers stands in the upper bits.
    fn reader_mask(&self, a: u16) -> u16
        ensures { result ≡ readers self.now.count a }
    {
        a >> self.count
    }

    // The set of writers stands in the lower bits.
    fn writer_mask(&self, a: u16) -> u16
        ensures { result ≡ writers self.now.count a }
    {
        a & self.everybody()
    }

    fn everybody(&self) -> u16
        ensures { result ≡ 2 ^ self.now.count - 1 }
    {
        (1 << self.count) - 1
    }
}

// Every bit of the one is in the other.
fn is_within(a: u16, b: u16) -> bool
    ensures { result ≡ within a b }
{
    a & b == a
}

impl Scheme for Parties {
    ghost levels = { λ p. party_level p.count };

    ghost order = { λ p. party_below p.count };

    ghost infimum = { λ p. party_meet p.count };

    ghost opened = { λ p. party_open p.count };

    ghost bounded = { λ s. (party_laws s.count s.few).bounded };

    ghost open_is_level = { λ s. (party_laws s.count s.few).open_is_level };

    ghost below_levels = { λ s. (party_laws s.count s.few).below_levels };

    ghost reflexive = { λ s. (party_laws s.count s.few).reflexive };

    ghost antisymmetric = { λ s. (party_laws s.count s.few).antisymmetric };

    ghost transitive = { λ s. (party_laws s.count s.few).transitive };

    ghost meet_below = { λ s. (party_laws s.count s.few).meet_below };

    ghost meet_greatest = { λ s. (party_laws s.count s.few).meet_greatest };

    ghost meet_outside = { λ s. (party_laws s.count s.few).meet_outside };

    fn is_level(&self, a: u16) -> bool {
        // two shifts: one by twice the count would pass the sixteen bits at eight parties
        self.reader_mask(a) >> self.count == 0
    }

    fn below(&self, a: u16, b: u16) -> bool {
        self.is_level(a)
            && self.is_level(b)
            && is_within(self.reader_mask(b), self.reader_mask(a))
            && is_within(self.writer_mask(a), self.writer_mask(b))
    }

    fn meet(&self, a: u16, b: u16) -> u16 {
        if self.is_level(a) && self.is_level(b) {
            let readers = self.reader_mask(a) | self.reader_mask(b);
            let writers = self.writer_mask(a) & self.writer_mask(b);
            readers << self.count | writers
        } else {
            self.open()
        }
    }

    fn open(&self) -> u16 {
        self.everybody() << self.count | self.everybody()
    }
}
