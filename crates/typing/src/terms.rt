ghost use Rattle.std.specs.Prelude.{◌≡◌, [], length, take};
ghost use Rattle.levels.specs.Means.{means};
ghost use Rattle.rows.specs.Types.{plain};
ghost use Rattle.typing.specs.Usage.{used};
ghost use Rattle.typing.specs.Terms.{low, signature_level, parts_of, made, derived, type_of_term, types_of_run, types_before, over, told};

use crate::fitting::{number_at, types_at};
use crate::misuse::Misuse;
use crate::rules::Rules;
use levels::{Scheme, lowered};
use rows::{TermKind, TermRow, TypeKind, TypeRow};

impl<S: Scheme> Rules<'_, S> {
    // The meet of a key's level with open.
    fn low(&self, key: TypeRow) -> u16
        ensures { result ≡ low (means S.Scheme self.now.scheme.now) key }
    {
        lowered(self.scheme, key.level)
    }

    // The key of a kind that is derived from another, which has the kind asked.
    fn derive_key(&self, key: TypeRow, asked: TypeKind, kind: TypeKind) -> Result<TypeRow, Misuse>
        ensures { result ≡ derived (means S.Scheme self.now.scheme.now) self.now.types.now key asked kind }
    {
        let usage = self.use_key(key, asked, key.count, &[])?;
        let level = self.low(key);
        let t = TypeRow { kind, level, ..key };
        Ok(usage.choose(t, TypeRow::plain(self.scheme.open())))
    }

    // A term under a key, from the types of the earlier terms of its run: a declared use makes it
    // plain at the level, an open use at the open one.
    fn compose(
        &self,
        key: TypeRow,
        asked: TypeKind,
        earlier: &[TypeRow],
        t: TermRow,
        level: u16,
    ) -> Result<TypeRow, Misuse>
        ensures { result ≡ made (means S.Scheme self.now.scheme.now) (used (means S.Scheme self.now.scheme.now) self.now.types.now key asked t.count (parts_of earlier.now t)) (plain level) }
    {
        let parts = types_at(earlier, t.parts, t.count);
        let usage = self.use_key(key, asked, t.count, &parts)?;
        Ok(TypeRow::plain(usage.choose(level, self.scheme.open())))
    }

    // A signature is lowered only if all that its key signs is public.
    fn signature_level(&self, key: TypeRow) -> u16
        ensures { result ≡ signature_level (means S.Scheme self.now.scheme.now) self.now.types.now key }
    {
        if self.parts_public(&types_at(self.types, key.payload, key.count)) {
            self.low(key)
        } else {
            key.level
        }
    }

    /// The type of a term, from the type rows of the slots in scope and the types of the earlier terms
    /// of its run.
    pub fn type_term(&self, env: &[u16], earlier: &[TypeRow], t: TermRow) -> Result<TypeRow, Misuse>
        ensures { result ≡ type_of_term (means S.Scheme self.now.scheme.now) self.now.types.now env.now earlier.now t }
    {
        let key = TypeRow::at(earlier, t.key);
        match t.kind {
            TermKind::Slot => Ok(TypeRow::at(self.types, number_at(env, t.slot))),
            TermKind::Ek => self.derive_key(key, TypeKind::Dec, TypeKind::Enc),
            TermKind::Vk => self.derive_key(key, TypeKind::Sig, TypeKind::Ver),
            TermKind::Senc => self.compose(key, TypeKind::Sym, earlier, t, self.low(key)),
            TermKind::Aenc => self.compose(key, TypeKind::Enc, earlier, t, self.low(key)),
            TermKind::Sign => {
                let level = self.signature_level(key);
                self.compose(key, TypeKind::Sig, earlier, t, level)
            }
        }
    }

    /// Writes the types of a run's terms into the front of `seen`, as far as there is room; or says
    /// what is wrong with the first term that has none.
    pub fn type_run(&self, env: &[u16], run: &[TermRow], seen: &mut [TypeRow]) -> Result<(), Misuse>
        ensures says { told result (take (length run.now) seen.new) ≡ types_of_run (means S.Scheme self.now.scheme.now) self.now.types.now env.now (take (length seen.old) run.now) [] }
        ensures wrote { seen.new ≡ over (types_before (means S.Scheme self.now.scheme.now) self.now.types.now env.now (take (length seen.old) run.now) []) seen.old }
    {
        let fitting = &run[..run.len().min(seen.len())];
        for (k, term) in fitting.iter().enumerate() {
            seen[k] = self.type_term(env, &seen[..k], *term)?;
        }
        Ok(())
    }
}
