ghost use Rattle.std.specs.Prelude.{◌≡◌, ◌<◌, length};
ghost use Rattle.levels.specs.Means.{means};
ghost use Rattle.shape.specs.Types.{level_ok, type_count_ok, type_ok, types_shape};

use crate::fault::ShapeFault;
use crate::first::all_fit;
use crate::numbers::{is_one_to_four, numbers_fit};
use levels::{Scheme, is_guarded, is_public, is_tainted};
use rows::{TypeKind, TypeRow};

// Channels and private keys have a guarded level, derived keys a public one that is not tainted.
fn level_fits<S: Scheme>(s: &S, kind: TypeKind, level: u16) -> bool
    ensures { result ≡ level_ok (means S.Scheme s.now) kind level }
{
    match kind {
        TypeKind::Level => s.is_level(level),
        TypeKind::Chan | TypeKind::Sym | TypeKind::Dec | TypeKind::Sig => is_guarded(s, level),
        TypeKind::Enc | TypeKind::Ver => is_public(s, level) && !is_tainted(s, level),
    }
}

fn count_fits(kind: TypeKind, count: u16) -> bool
    ensures { result ≡ type_count_ok kind count }
{
    if kind == TypeKind::Level {
        count == 0
    } else {
        is_one_to_four(count)
    }
}

// Kept: scheme and types meet in these two functions alone; the typing rules' struct of both stands above this crate, and one for two functions is no plainer.
fn type_fits<S: Scheme>(s: &S, types: &[TypeRow], i: usize) -> bool
    requires { i < length types.now }
    ensures { result ≡ type_ok (means S.Scheme s.now) types.now i }
{
    let t = types[i];
    if i == 0 {
        return t == TypeRow::plain(s.open());
    }
    level_fits(s, t.kind, t.level)
        && count_fits(t.kind, t.count)
        && numbers_fit(&t.payload, t.count as usize, i)
        && !types[..i].contains(&t)
}

pub(crate) fn types_in_shape<S: Scheme>(s: &S, types: &[TypeRow]) -> Result<(), ShapeFault>
    ensures { result ≡ types_shape (means S.Scheme s.now) types.now }
{
    all_fit(types.len(), |i| type_fits(s, types, i)).map_err(ShapeFault::Types)
}
