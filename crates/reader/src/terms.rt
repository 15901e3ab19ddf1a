// Terms. They take rows in the order in which they end.
ghost use Rattle.std.specs.Prelude.{◌≡◌, ℕ, ◌+◌, ◌<◌, ◌≤◌, IfOk};
ghost use Rattle.scanning.specs.Names.{scoped};
ghost use Rattle.reader.specs.Cursor.{state, Gives, Same};
ghost use Rattle.reader.specs.Terms.{bracket, put, name, fifth_term, term, list};

use crate::parts::Parts;
use crate::tables::{Reader, append};
use rows::TermRow;
use scanning::{Head, ListingFault, Scope, spell};
use words::{Mark, Span};

// The most term rows.
const MOST: u16 = 2048;

impl Reader<'_> {
    // An opening bracket. Answers how many more may be opened inside it.
    pub(crate) fn bracket(&mut self, allow: u16) -> Result<u16, ListingFault>
        ensures gives { Gives (bracket allow (state self.old)) result (state self.new) }
        ensures same { Same self.new self.old }
        ensures falls { IfOk result (λ n. n + 1 ≡ allow) }
    {
        let place = self.mark(Mark::Open)?;
        if allow == 0 {
            return Err(ListingFault::Limit(place));
        }
        Ok(allow - 1)
    }

    // A term in the next free row. Answers its number in the present run.
    #[tactic(auto, unfolding(crate::specs::Terms::put))]
    fn put(&mut self, row: TermRow, place: usize) -> Result<u16, ListingFault>
        ensures gives { Gives (put row place (state self.old)) result (state self.new) }
        ensures same { Same self.new self.old }
    {
        let n = append(self.terms, &mut self.used, MOST, row, place)?;
        Ok(n.saturating_sub(self.run))
    }

    // The name whose word is `first`.
    fn name(&mut self, scope: &Scope, first: Span) -> Result<u16, ListingFault>
        ensures gives { Gives (name (scoped scope.now).names first (state self.old)) result (state self.new) }
        ensures same { Same self.new self.old }
    {
        let slot = scope
            .slot_of(self.text, spell(self.text, first))
            .ok_or(ListingFault::Name(first.start))?;
        let row = TermRow {
            slot,
            ..TermRow::default()
        };
        self.put(row, first.start)
    }

    // A fifth term of a list: refused at its first word, unless that is at fault itself.
    #[tactic(auto, unfolding(crate::specs::Terms::fifth_term))]
    fn fifth_term(&mut self, scope: &Scope) -> Result<Parts, ListingFault>
        ensures gives { Gives (fifth_term (scoped scope.now).names (state self.old)) result (state self.new) }
        ensures same { Same self.new self.old }
    {
        let (head, first) = self.heading()?;
        match head {
            Head::Name => match scope.slot_of(self.text, spell(self.text, first)) {
                None => Err(ListingFault::Name(first.start)),
                Some(_) => Err(ListingFault::Limit(first.start)),
            },
            _ => Err(ListingFault::Limit(first.start)),
        }
    }

    // A term, in which `allow` more brackets may be opened.
    #[cycle(list_term)]
    pub(crate) fn term(&mut self, scope: &Scope, allow: u16) -> Result<u16, ListingFault>
        ensures gives { Gives (term allow (scoped scope.now).names (state self.old)) result (state self.new) }
        ensures same { Same self.new self.old }
    {
        let (head, first) = self.heading()?;
        match head {
            Head::Name => self.name(scope, first),
            Head::KeyOf(kind) => {
                let inner = self.bracket(allow)?;
                let key = self.term(scope, inner)?;
                self.mark(Mark::Close)?;
                self.put(Parts::default().under(kind, key), first.start)
            }
            Head::Under(kind) => {
                let inner = self.bracket(allow)?;
                let parts = self.list(scope, inner, Mark::Semicolon)?;
                let key = self.term(scope, inner)?;
                self.mark(Mark::Close)?;
                self.put(parts.under(kind, key), first.start)
            }
        }
    }

    // One to four terms with commas between them, up to the mark `stop`.
    // Kept: a loop of its own and not generic, by a rule of the project: this and `term` call each
    // other.
    #[cycle(list_term)]
    pub(crate) fn list(
        &mut self,
        scope: &Scope,
        allow: u16,
        stop: Mark,
    ) -> Result<Parts, ListingFault>
        ensures gives { Gives (list allow (scoped scope.now).names stop (state self.old)) result (state self.new) }
        ensures same { Same self.new self.old }
    {
        let mut parts = Parts::default();
        while parts.count < 4 {
            let item = self.term(scope, allow)?;
            parts.push(item);
            let more = self.comma(stop)?;
            if !more {
                return Ok(parts);
            }
        }
        self.fifth_term(scope)
    }
}
