// What processes begin with, after the first token: each up to where the next process stands.
ghost use Rattle.std.specs.Prelude.{◌≡◌, ℕ, ◌+◌, ◌<◌, ◌≤◌, IfOk, OnOk};
ghost use Rattle.arrayvec.specs.ArrayVec.{array_vec_len};
ghost use Rattle.scanning.specs.Names.{scoped};
ghost use Rattle.reader.specs.Cursor.{state, Gives, Same};
ghost use Rattle.reader.specs.Heads.{typed, new_line, message, sent, out_line, in_line, opened_names, opening_key, opening, opening_line, equation, if_line};

use crate::names::Names;
use crate::parts::Parts;
use crate::tables::Reader;
use scanning::{ListingFault, Scope};
use words::Mark;

// The most brackets around a term.
const DEEP: u16 = 32;

// What an out sends, and where.
#[derive(Clone, Copy)]
pub(crate) struct Message {
    pub(crate) channel: u16,
    pub(crate) parts: Parts,
}

// What an opening opens, with which key, and the names that it binds.
#[derive(Drop)]
pub(crate) struct Opening {
    pub(crate) message: u16,
    pub(crate) names: Names,
    pub(crate) key: u16,
}

// The two sides that an if compares.
#[derive(Clone, Copy)]
pub(crate) struct Equation {
    pub(crate) left: u16,
    pub(crate) right: u16,
}

impl Message {
    // The channel and then the parts.
    fn operands(self) -> [u16; 5]
        ensures { result ≡ sent self }
    {
        let [a, b, c, d] = self.parts.at;
        [self.channel, a, b, c, d]
    }
}

impl Reader<'_> {
    // `: s .`. Answers the type's row.
    #[tactic(auto, unfolding(crate::specs::Heads::typed))]
    fn typed(&mut self) -> Result<u16, ListingFault>
        ensures gives { Gives (typed (state self.old)) result (state self.new) }
        ensures same { Same self.new self.old }
    {
        self.mark(Mark::Colon)?;
        let found = self.type_named()?;
        self.mark(Mark::Dot)?;
        Ok(found.row)
    }

    // `a : s .` after `new`. Answers the name.
    #[tactic(auto, unfolding(crate::specs::Heads::new_line))]
    pub(crate) fn new_line(&mut self, scope: &Scope, row: u16) -> Result<Names, ListingFault>
        ensures gives { Gives (new_line (scoped scope.now) row (state self.old)) result (state self.new) }
        ensures same { Same self.new self.old }
        ensures room { IfOk result (λ ns. scope.now.count + array_vec_len ns ≤ 32) }
    {
        let name = self.new_name(scope.count)?;
        let ty = self.typed()?;
        self.fill_row(row, ty, 0, [0; 5]);
        let mut names = Names::new();
        names.push(name);
        Ok(names)
    }

    // `M (M, N)`
    #[tactic(auto, unfolding(crate::specs::Heads::message))]
    fn message(&mut self, scope: &Scope) -> Result<Message, ListingFault>
        ensures gives { Gives (message (scoped scope.now).names (state self.old)) result (state self.new) }
        ensures same { Same self.new self.old }
    {
        let channel = self.term(scope, DEEP)?;
        let inner = self.bracket(DEEP)?;
        let parts = self.list(scope, inner, Mark::Close)?;
        Ok(Message { channel, parts })
    }

    // `M (M, N) .` after `out`
    #[tactic(auto, unfolding(crate::specs::Heads::out_line))]
    pub(crate) fn out_line(&mut self, scope: &Scope, row: u16) -> Result<(), ListingFault>
        ensures gives { Gives (out_line (scoped scope.now).names row (state self.old)) result (state self.new) }
        ensures same { Same self.new self.old }
    {
        let message = self.message(scope)?;
        self.fill_row(row, 0, message.parts.count, message.operands());
        self.mark(Mark::Dot)?;
        Ok(())
    }

    // `M (a, b) .` after `in`. Answers the variables.
    #[tactic(auto, unfolding(crate::specs::Heads::in_line))]
    pub(crate) fn in_line(&mut self, scope: &Scope, row: u16) -> Result<Names, ListingFault>
        ensures gives { Gives (in_line (scoped scope.now) row (state self.old)) result (state self.new) }
        ensures same { Same self.new self.old }
        ensures room { IfOk result (λ ns. scope.now.count + array_vec_len ns ≤ 32) }
    {
        let channel = self.term(scope, DEEP)?;
        let names = self.variables(scope)?;
        self.fill_row(row, 0, names.len() as u16, [channel, 0, 0, 0, 0]);
        self.mark(Mark::Dot)?;
        Ok(names)
    }

    // `as (a, b)`
    #[tactic(auto, unfolding(crate::specs::Heads::opened_names))]
    fn opened_names(&mut self, scope: &Scope) -> Result<Names, ListingFault>
        ensures gives { Gives (opened_names scope.now.count (state self.old)) result (state self.new) }
        ensures same { Same self.new self.old }
        ensures room { IfOk result (λ ns. scope.now.count + array_vec_len ns ≤ 32) }
    {
        self.keyword(b"as")?;
        self.variables(scope)
    }

    // `with K`
    #[tactic(auto, unfolding(crate::specs::Heads::opening_key))]
    fn opening_key(&mut self, scope: &Scope) -> Result<u16, ListingFault>
        ensures gives { Gives (opening_key (scoped scope.now).names (state self.old)) result (state self.new) }
        ensures same { Same self.new self.old }
    {
        self.keyword(b"with")?;
        self.term(scope, DEEP)
    }

    // `M as (a, b) with K`: the key is read in the scope outside.
    #[tactic(auto, unfolding(crate::specs::Heads::opening))]
    fn opening(&mut self, scope: &Scope) -> Result<Opening, ListingFault>
        ensures gives { Gives (opening (scoped scope.now) (state self.old)) result (state self.new) }
        ensures same { Same self.new self.old }
        ensures room { IfOk result (λ o. scope.now.count + array_vec_len o.names ≤ 32) }
    {
        let message = self.term(scope, DEEP)?;
        let names = self.opened_names(scope)?;
        let key = self.opening_key(scope)?;
        Ok(Opening {
            message,
            names,
            key,
        })
    }

    // `M as (a, b) with K .` after `sopen`, or another opening. Answers the variables.
    #[tactic(auto, unfolding(crate::specs::Heads::opening_line))]
    pub(crate) fn opening_line(&mut self, scope: &Scope, row: u16) -> Result<Names, ListingFault>
        ensures gives { Gives (opening_line (scoped scope.now) row (state self.old)) result (state self.new) }
        ensures same { Same self.new self.old }
        ensures room { IfOk result (λ ns. scope.now.count + array_vec_len ns ≤ 32) }
    {
        let opening = self.opening(scope)?;
        let operands = [opening.message, opening.key, 0, 0, 0];
        self.fill_row(row, 0, opening.names.len() as u16, operands);
        self.mark(Mark::Dot)?;
        Ok(opening.names)
    }

    // `M = N`
    #[tactic(auto, unfolding(crate::specs::Heads::equation))]
    fn equation(&mut self, scope: &Scope) -> Result<Equation, ListingFault>
        ensures gives { Gives (equation (scoped scope.now).names (state self.old)) result (state self.new) }
        ensures same { Same self.new self.old }
    {
        let left = self.term(scope, DEEP)?;
        self.mark(Mark::Equals)?;
        let right = self.term(scope, DEEP)?;
        Ok(Equation { left, right })
    }

    // `M = N then` after `if`, where `allow` more brackets and branches may be opened.
    #[tactic(auto, unfolding(crate::specs::Heads::if_line))]
    pub(crate) fn if_line(
        &mut self,
        scope: &Scope,
        allow: u16,
        row: u16,
    ) -> Result<(), ListingFault>
        ensures gives { Gives (if_line (scoped scope.now).names allow row (state self.old)) result (state self.new) }
        ensures same { Same self.new self.old }
        ensures some { OnOk result (0 < allow) }
    {
        let sides = self.equation(scope)?;
        self.fill_row(row, 0, 0, [sides.left, sides.right, 0, 0, 0]);
        let place = self.keyword(b"then")?;
        if allow == 0 {
            return Err(ListingFault::Limit(place));
        }
        Ok(())
    }
}
