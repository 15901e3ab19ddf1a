// Processes. Their rows stand in the order of the text.
ghost use Rattle.std.specs.Prelude.{◌≡◌, ℕ, ◌+◌, ◌-◌, ◌<◌, ◌≤◌, length};
ghost use Rattle.scanning.specs.Names.{scoped};
ghost use Rattle.reader.specs.Cursor.{state, Gives, Same};
ghost use Rattle.reader.specs.Names.{Older};
ghost use Rattle.reader.specs.Processes.{Kept, follow, parallel, choice, process, deeper};

use crate::names::bind_all;
use crate::tables::Reader;
use rows::ProcessKind;
use scanning::{ListingFault, Scope};
use words::{Mark, Span};

// Puts the count of names back when it goes.
// Kept: a guard, by a rule of the project: the names go out of scope on every way out.
pub(crate) struct ScopeGuard<'a> {
    pub(crate) scope: &'a mut Scope,
    pub(crate) count: u16,
}

impl Drop for ScopeGuard<'_> {
    fn drop(self)
        requires { self.count ≤ 32 }
        ensures count { self.exit.0.now.count ≡ self.entry.count }
        ensures names { self.exit.0.now.names ≡ self.entry.scope.now.names }
    {
        self.scope.count = self.count;
        let ScopeGuard { scope: _, count: _ } = self;
    }
}

impl Reader<'_> {
    // A process, whose rows may stand `left` deep, in which `allow` more brackets and branches may
    // be opened.
    // Kept: the room left for rows and for brackets as two numbers, since each falls at another call:
    // `follow(scope, allow, left, ..)` lowers `left`, `parallel` and `choice` both, and `if_line` reads
    // `allow` alone.
    #[cycle(branch_choice_follow_parallel_process)]
    pub(crate) fn process(
        &mut self,
        scope: &mut Scope,
        allow: u16,
        left: u16,
    ) -> Result<u16, ListingFault>
        ensures gives { Gives (process left allow (scoped scope.old) (state self.old)) result (state self.new) }
        ensures same { Same self.new self.old }
        ensures older { Older scope.new scope.old }
    {
        let (kind, first) = self.beginning()?;
        let row = self.open_row(left, kind, scope.count, first.start)?;
        match kind {
            ProcessKind::Stop => Ok(row),
            ProcessKind::New => {
                let name = self.new_line(scope, row)?;
                self.follow(scope, allow, left, row, &name)
            }
            ProcessKind::Out => {
                self.out_line(scope, row)?;
                self.follow(scope, allow, left, row, &[])
            }
            ProcessKind::In => {
                let received = self.in_line(scope, row)?;
                self.follow(scope, allow, left, row, &received)
            }
            ProcessKind::Again => self.follow(scope, allow, left, row, &[]),
            ProcessKind::Sopen | ProcessKind::Aopen | ProcessKind::Verify => {
                let opened = self.opening_line(scope, row)?;
                self.follow(scope, allow, left, row, &opened)
            }
            ProcessKind::Both => {
                if allow == 0 {
                    return Err(ListingFault::Limit(first.start));
                }
                self.parallel(scope, allow, left, row)
            }
            ProcessKind::If => {
                self.if_line(scope, allow, row)?;
                self.choice(scope, allow, left, row)
            }
        }
    }

    // The process after the first line of a row, in whose scope the line's names are.
    #[cycle(branch_choice_follow_parallel_process)]
    fn follow(
        &mut self,
        scope: &mut Scope,
        allow: u16,
        left: u16,
        row: u16,
        names: &[Span],
    ) -> Result<u16, ListingFault>
        requires some { 0 < left }
        requires room { scope.old.count + length names.now ≤ 32 }
        ensures gives { Gives (follow row names.now allow (scoped scope.old) (deeper left) (state self.old)) result (state self.new) }
        ensures same { Same self.new self.old }
        ensures older { Older scope.new scope.old }
    {
        bind_all(scope, names);
        self.process(scope, allow, left - 1)?;
        self.close_row(row);
        Ok(row)
    }

    // `P | Q)` after `(`
    #[cycle(branch_choice_follow_parallel_process)]
    fn parallel(
        &mut self,
        scope: &mut Scope,
        allow: u16,
        left: u16,
        row: u16,
    ) -> Result<u16, ListingFault>
        requires { (0 < left) × (0 < allow) }
        ensures gives { Gives (parallel row allow (scoped scope.old) (deeper left) (state self.old)) result (state self.new) }
        ensures same { Same self.new self.old }
        ensures kept { Kept scope.new scope.old }
    {
        self.branch(scope, allow - 1, left - 1)?;
        self.mark(Mark::Bar)?;
        self.branch(scope, allow - 1, left - 1)?;
        self.mark(Mark::Close)?;
        self.close_row(row);
        Ok(row)
    }

    // `P else Q` after `then`
    #[cycle(branch_choice_follow_parallel_process)]
    fn choice(
        &mut self,
        scope: &mut Scope,
        allow: u16,
        left: u16,
        row: u16,
    ) -> Result<u16, ListingFault>
        requires { (0 < left) × (0 < allow) }
        ensures gives { Gives (choice row allow (scoped scope.old) (deeper left) (state self.old)) result (state self.new) }
        ensures same { Same self.new self.old }
        ensures kept { Kept scope.new scope.old }
    {
        self.branch(scope, allow - 1, left - 1)?;
        self.keyword(b"else")?;
        self.branch(scope, allow - 1, left - 1)?;
        self.close_row(row);
        Ok(row)
    }

    // A process whose names go out of scope with it, on every way out.
    #[cycle(branch_choice_follow_parallel_process)]
    fn branch(&mut self, scope: &mut Scope, allow: u16, left: u16) -> Result<u16, ListingFault>
        ensures gives { Gives (process left allow (scoped scope.old) (state self.old)) result (state self.new) }
        ensures same { Same self.new self.old }
        ensures kept { Kept scope.new scope.old }
    {
        let count = scope.count;
        let guard = ScopeGuard { scope, count };
        self.process(guard.scope, allow, left)
    }
}
