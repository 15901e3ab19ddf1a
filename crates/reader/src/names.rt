// The words that are bound as names.
ghost use Rattle.std.specs.Prelude.{◌≡◌, ℕ, ◌+◌, ◌-◌, ◌<◌, ◌≤◌, length, IfOk, OnOk};
ghost use Rattle.arrayvec.specs.ArrayVec.{array_vec_len};
ghost use Rattle.scanning.specs.Names.{scoped};
ghost use Rattle.reader.specs.Cursor.{state, Gives, Leaves, Same};
ghost use Rattle.reader.specs.Names.{bound, all_bound, Older, new_name, fifth_name, name_list, variables, free_name, one_too_many, free_names, header};

use crate::tables::Reader;
use arrayvec::ArrayVec;
use scanning::{ListingFault, Scope, spell};
use words::{Mark, Span};

// Up to four names that are bound together.
pub(crate) type Names = ArrayVec<Span, 4>;

// The most names in scope.
const MOST: u16 = 32;

// One more name in scope.
fn bind(scope: &mut Scope, name: Span)
    requires { scope.old.count < 32 }
    ensures bound { scoped scope.new ≡ bound (scoped scope.old) name }
    ensures count { scope.new.count ≡ scope.old.count + 1 }
    ensures older { Older scope.new scope.old }
{
    let n = scope.count;
    scope.names[n as usize] = name;
    scope.count = n + 1;
}

// More names in scope.
pub(crate) fn bind_all(scope: &mut Scope, names: &[Span])
    requires { scope.old.count + length names.now ≤ 32 }
    ensures bound { scoped scope.new ≡ all_bound names.now (scoped scope.old) }
    ensures count { scope.new.count ≡ scope.old.count + length names.now }
    ensures older { Older scope.new scope.old }
{
    for name in names {
        bind(scope, *name);
    }
}

impl Reader<'_> {
    // A new name, where `slots` names are in scope.
    #[tactic(auto, unfolding(crate::specs::Names::new_name))]
    pub(crate) fn new_name(&mut self, slots: u16) -> Result<Span, ListingFault>
        ensures gives { Gives (new_name slots (state self.old)) result (state self.new) }
        ensures same { Same self.new self.old }
        ensures room { OnOk result (slots < 32) }
    {
        let name = self.binder()?;
        if slots >= MOST {
            return Err(ListingFault::Limit(name.start));
        }
        Ok(name)
    }

    // A fifth name.
    // Kept: this and its like for types and terms. Each judges what stands there by its own rules
    // before it refuses it.
    #[tactic(auto, unfolding(crate::specs::Names::fifth_name))]
    fn fifth_name(&mut self) -> Result<Names, ListingFault>
        ensures gives { Gives (fifth_name (state self.old)) result (state self.new) }
        ensures same { Same self.new self.old }
        ensures never { OnOk result (⊥) }
    {
        let name = self.binder()?;
        Err(ListingFault::Limit(name.start))
    }

    // One to four names with commas between them, up to `)`.
    // Kept: a loop like that of `payload`, for the reason given in types.rt.
    #[tactic(auto, unfolding(crate::specs::Names::name_list))]
    fn name_list(&mut self, slots: u16) -> Result<Names, ListingFault>
        requires { slots ≤ 32 }
        ensures gives { Gives (name_list slots (state self.old)) result (state self.new) }
        ensures same { Same self.new self.old }
        ensures room { IfOk result (λ ns. slots + array_vec_len ns ≤ 32) }
    {
        let mut names = Names::new();
        while !names.is_full() {
            let item = self.new_name(slots + names.len() as u16)?;
            names.push(item);
            let more = self.comma(Mark::Close)?;
            if !more {
                return Ok(names);
            }
        }
        self.fifth_name()
    }

    // `(a, b)`
    // Kept: the clause `room`, here and where names are handed on. It relates the names to the scope that
    // they are read for, and a struct of both would hold the scope while the reader goes on.
    #[tactic(auto, unfolding(crate::specs::Names::variables))]
    pub(crate) fn variables(&mut self, scope: &Scope) -> Result<Names, ListingFault>
        ensures gives { Gives (variables scope.now.count (state self.old)) result (state self.new) }
        ensures same { Same self.new self.old }
        ensures room { IfOk result (λ ns. scope.now.count + array_vec_len ns ≤ 32) }
    {
        self.mark(Mark::Open)?;
        self.name_list(scope.count)
    }

    // A word that no free name has yet.
    #[tactic(auto, unfolding(crate::specs::Names::free_name))]
    fn free_name(&mut self, scope: &Scope) -> Result<Span, ListingFault>
        ensures gives { Gives (free_name (scoped scope.now) (state self.old)) result (state self.new) }
        ensures same { Same self.new self.old }
    {
        let name = self.binder()?;
        if scope.slot_of(self.text, spell(self.text, name)).is_some() {
            return Err(ListingFault::Grammar(name.start));
        }
        Ok(name)
    }

    // A thirty-third free name.
    #[tactic(auto, unfolding(crate::specs::Names::one_too_many))]
    fn one_too_many(&mut self, scope: &Scope) -> Result<(), ListingFault>
        ensures gives { Leaves (one_too_many (scoped scope.now) (state self.old)) result (scoped scope.now) (state self.new) }
        ensures same { Same self.new self.old }
    {
        let name = self.free_name(scope)?;
        Err(ListingFault::Limit(name.start))
    }

    // `c, d;`
    // Kept: a loop like that of `payload`, for the reason given in types.rt.
    fn free_names(&mut self, scope: &mut Scope) -> Result<(), ListingFault>
        ensures gives { Leaves (free_names (32 - scope.old.count) (scoped scope.old) (state self.old)) result (scoped scope.new) (state self.new) }
        ensures same { Same self.new self.old }
    {
        while scope.count < MOST {
            let item = self.free_name(scope)?;
            bind(scope, item);
            let more = self.comma(Mark::Semicolon)?;
            if !more {
                return Ok(());
            }
        }
        self.one_too_many(scope)
    }

    // `free c, d;` or nothing: no other name is in scope then.
    #[tactic(auto, unfolding(crate::specs::Names::header))]
    pub(crate) fn header(&mut self, scope: &mut Scope) -> Result<(), ListingFault>
        ensures gives { Leaves (header (state self.old)) result (scoped scope.new) (state self.new) }
        ensures same { Same self.new self.old }
    {
        scope.count = 0;
        let next = self.ahead(b"free")?;
        match next {
            None => Ok(()),
            Some(_) => self.free_names(scope),
        }
    }
}
