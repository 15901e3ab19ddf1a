ghost use Rattle.std.specs.Prelude.{◌≡◌, map, take};
ghost use Rattle.levels.specs.Means.{means};
ghost use Rattle.rows.specs.Types.{type_at};
ghost use Rattle.typing.specs.Fits.{fits_in, Transitive, all_fit, all_public, number_at};

use crate::rules::Rules;
use arrayvec::ArrayVec;
use levels::{Scheme, is_public};
use rows::{TypeKind, TypeRow};

/// Whether one type fits another: they are equal, or the other is a plain level and the one's level is
/// below it. Fitting is transitive under every scheme.
pub fn fits<S: Scheme>(s: &S, t: &TypeRow, u: &TypeRow) -> bool
    ensures is { result ≡ fits_in (means S.Scheme s.now) t.now u.now }
    ensures transitive { Transitive (means S.Scheme s.now) }
{
    t == u || u.kind == TypeKind::Level && s.below(t.level, u.level)
}

impl<S: Scheme> Rules<'_, S> {
    // Each part fits the payload type at its place.
    pub(crate) fn parts_fit(&self, payload: [u16; 4], parts: &[TypeRow]) -> bool
        ensures { result ≡ all_fit (means S.Scheme self.now.scheme.now) self.now.types.now payload parts.now }
    {
        payload.iter().zip(parts).all(|(x, part)| fits(
            self.scheme,
            part,
            &TypeRow::at(self.types, *x),
        ))
    }

    // The level of each part is public.
    pub(crate) fn parts_public(&self, parts: &[TypeRow]) -> bool
        ensures { result ≡ all_public (means S.Scheme self.now.scheme.now) parts.now }
    {
        parts.iter().all(|part| is_public(self.scheme, part.level))
    }
}

// The types in the first `count` of four rows of a table.
pub(crate) fn types_at(table: &[TypeRow], rows: [u16; 4], count: u16) -> ArrayVec<TypeRow, 4>
    ensures { result.items ≡ take count (map (type_at table.now) rows) }
{
    let mut types = ArrayVec::from(rows.map(|x| TypeRow::at(table, x)));
    types.truncate(count as usize);
    types
}

// The number at a place, and 0 past the end.
pub(crate) fn number_at(numbers: &[u16], place: u16) -> u16
    ensures { result ≡ number_at numbers.now place }
{
    numbers.get(place as usize).copied().unwrap_or(0)
}
