ghost use Rattle.std.specs.Prelude.{◌≡◌};
ghost use Rattle.levels.specs.Four.{four_level, four_below, four_meet};
ghost use Rattle.levels.specs.FourLaws.{four_laws};

use crate::scheme::Scheme;

// low confidentiality and low integrity
const OPEN: u16 = 1;

/// The four levels: 2 stands for high confidentiality, and 1 more for low integrity.
#[derive(Clone, Copy, Debug, PartialEq, Eq)]
pub struct FourLevels;

impl Scheme for FourLevels {
    ghost levels = { λ _. four_level };

    ghost order = { λ _. four_below };

    ghost infimum = { λ _. four_meet };

    ghost opened = { λ _. 1 };

    ghost bounded = { λ s. four_laws.bounded };

    ghost open_is_level = { λ s. four_laws.open_is_level };

    ghost below_levels = { λ s. four_laws.below_levels };

    ghost reflexive = { λ s. four_laws.reflexive };

    ghost antisymmetric = { λ s. four_laws.antisymmetric };

    ghost transitive = { λ s. four_laws.transitive };

    ghost meet_below = { λ s. four_laws.meet_below };

    ghost meet_greatest = { λ s. four_laws.meet_greatest };

    ghost meet_outside = { λ s. four_laws.meet_outside };

    fn is_level(&self, a: u16) -> bool {
        a < 4
    }

    fn below(&self, a: u16, b: u16) -> bool {
        self.is_level(a) && self.is_level(b) && a & b == a
    }

    fn meet(&self, a: u16, b: u16) -> u16 {
        if self.is_level(a) && self.is_level(b) {
            a & b
        } else {
            self.open()
        }
    }

    fn open(&self) -> u16 {
        OPEN
    }
}
