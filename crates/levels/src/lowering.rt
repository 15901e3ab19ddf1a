ghost use Rattle.std.specs.Prelude.{◌≡◌};
ghost use Rattle.levels.specs.Meaning.{public, tainted, guarded, Lowers};
ghost use Rattle.levels.specs.Means.{means};

use crate::scheme::Scheme;

/// Whether a level is public: below the open level.
pub fn is_public<S: Scheme>(s: &S, a: u16) -> bool
    ensures { result ≡ public (means S.Scheme s.now) a }
{
    s.below(a, s.open())
}

/// Whether a level is tainted: the open level is below it.
pub fn is_tainted<S: Scheme>(s: &S, a: u16) -> bool
    ensures { result ≡ tainted (means S.Scheme s.now) a }
{
    s.below(s.open(), a)
}

/// Whether a number is a level that is neither public nor tainted.
pub fn is_guarded<S: Scheme>(s: &S, a: u16) -> bool
    ensures { result ≡ guarded (means S.Scheme s.now) a }
{
    s.is_level(a) && !is_public(s, a) && !is_tainted(s, a)
}

/// The meet with the open level. Of a guarded level it is public and not tainted, so that what is
/// derived from a key at this level keeps the shape of a derived key's type.
pub fn lowered<S: Scheme>(s: &S, a: u16) -> u16
    ensures is { result ≡ (means S.Scheme s.now).meet a (means S.Scheme s.now).opened }
    ensures lowers { Lowers (means S.Scheme s.now) }
{
    s.meet(a, s.open())
}
