ghost use Rattle.std.specs.Prelude.{◌≡◌, [], length, take};
ghost use Rattle.levels.specs.Means.{means};
ghost use Rattle.rows.specs.Processes.{run_of};
ghost use Rattle.typing.specs.Terms.{types_before, over};
ghost use Rattle.typing.specs.Judging.{judge, reading};
ghost use Rattle.rows.specs.declared.process.ProcessKind.TheVariants.{Out};

use crate::fitting::types_at;
use crate::misuse::Misuse;
use crate::rules::Rules;
use levels::Scheme;
use rows::{ProcessKind, ProcessRow, TermRow, TypeKind, TypeRow};

/// What a process row comes to, under the types of the slots in scope. Bound types are type rows, in
/// the order of the slots; entries past the row's own count are not used.
// Kept: a payload is handed on as a type row lays it out, by a rule of the project (a count, and four
// numbers with zeros), and the row that binds has the count.
// An aopen has two cases and no `Option`: with its tag before the types they lie in another place than
// in `Binds`, and the walk then takes each judgement apart by bytes (half as much time again).
#[derive(Clone, Copy, Debug, PartialEq, Eq)]
pub enum Judgement {
    /// nothing follows
    Done,
    /// what follows has these types in the new slots
    Binds([u16; 4]),
    /// two processes follow
    Splits,
    /// an aopen under a declared key: what follows is read with these types in the new slots, and then
    /// once more with type 0 in each
    Opens([u16; 4]),
    /// an aopen under an open key: what follows is read once, with type 0 in each new slot
    OpensOnce,
}

impl<S: Scheme> Rules<'_, S> {
    // An output: the channel and its parts are operands.
    fn judge_out(&self, seen: &[TypeRow], p: ProcessRow) -> Result<Judgement, Misuse>
        ensures { result ≡ judge (means S.Scheme self.now.scheme.now) self.now.types.now seen.now p Out }
    {
        let [channel, a, b, c, d] = p.operands;
        let channel = TypeRow::at(seen, channel);
        let parts = types_at(seen, [a, b, c, d], p.count);
        self.use_key(channel, TypeKind::Chan, p.count, &parts)?;
        Ok(Judgement::Binds([0, 0, 0, 0]))
    }

    // What a row comes to, from the types of its terms.
    fn judge_kind(&self, seen: &[TypeRow], p: ProcessRow) -> Result<Judgement, Misuse>
        ensures { result ≡ judge (means S.Scheme self.now.scheme.now) self.now.types.now seen.now p p.kind }
    {
        let first = TypeRow::at(seen, p.operands[0]);
        let second = TypeRow::at(seen, p.operands[1]);
        let open = Judgement::Binds([0, 0, 0, 0]);
        match p.kind {
            ProcessKind::Stop => Ok(Judgement::Done),
            ProcessKind::Out => self.judge_out(seen, p),
            ProcessKind::In => {
                let usage = self.use_key(first, TypeKind::Chan, p.count, &[])?;
                Ok(usage.choose(Judgement::Binds(first.payload), open))
            }
            ProcessKind::New => Ok(Judgement::Binds([p.ty, 0, 0, 0])),
            ProcessKind::Both | ProcessKind::If => Ok(Judgement::Splits),
            ProcessKind::Again => Ok(open),
            ProcessKind::Sopen => {
                let usage = self.use_key(second, TypeKind::Sym, p.count, &[])?;
                Ok(usage.choose(Judgement::Binds(second.payload), open))
            }
            ProcessKind::Aopen => {
                let usage = self.use_key(second, TypeKind::Dec, p.count, &[])?;
                Ok(usage.choose(Judgement::Opens(second.payload), Judgement::OpensOnce))
            }
            ProcessKind::Verify => {
                let usage = self.use_verification_key(second, p.count, first)?;
                Ok(usage.choose(Judgement::Binds(second.payload), open))
            }
        }
    }

    /// What a process row comes to, where the slots in scope have the type rows in `env`: its terms
    /// are typed in order, and then the row is judged. `seen` is room for the types of its terms.
    // Kept: `seen` is lent room, here and in `type_run`, by a rule of the project: no heap in libraries.
    // How much of it is filled is the run's length.
    pub fn judge_row(
        &self,
        terms: &[TermRow],
        env: &[u16],
        p: ProcessRow,
        seen: &mut [TypeRow],
    ) -> Result<Judgement, Misuse>
        ensures says { result ≡ reading (means S.Scheme self.now.scheme.now) self.now.types.now env.now (take (length seen.old) (run_of terms.now p)) p }
        ensures wrote { seen.new ≡ over (types_before (means S.Scheme self.now.scheme.now) self.now.types.now env.now (take (length seen.old) (run_of terms.now p)) []) seen.old }
    {
        let run = p.run(terms);
        self.type_run(env, run, seen)?;
        let n = run.len().min(seen.len());
        self.judge_kind(&seen[..n], p)
    }
}
