// A whole listing, read into lent tables.
ghost use Rattle.std.specs.Prelude.{◌≡◌, ℕ, ◌+◌, ◌<◌, ◌≤◌, length, replicate, IfOk};
ghost use Rattle.reader.specs.Cursor.{state, Gives, Lent, Same};
ghost use Rattle.reader.specs.Whole.{zero_type, zero_process, zero_term, types_read, body, whole, started, tables, Told, sizes_of, ReadAs};
ghost use Rattle.reader.specs.Sound.{Sound, rows_in_use, Never20Or23};
ghost use Rattle.reader.specs.Examples.{Examples};

use crate::processes::ScopeGuard;
use crate::tables::Reader;
use arrayvec::ArrayVec;
use rows::{ProcessRow, TermRow, TypeRow};
use scanning::{ListingFault, Scope};

// The most bytes of a text.
const LONGEST: usize = 32768;

/// How many rows of each table are in use.
#[derive(Clone, Copy, Debug, PartialEq, Eq)]
pub struct Counts {
    pub types: u16,
    pub processes: u16,
    pub terms: u16,
}

fn clear(
    types: &mut [TypeRow],
    processes: &mut [ProcessRow],
    terms: &mut [TermRow],
    places: &mut [u16],
)
    ensures types { types.new ≡ replicate (length types.old) zero_type }
    ensures processes { processes.new ≡ replicate (length processes.old) zero_process }
    ensures terms { terms.new ≡ replicate (length terms.old) zero_term }
    ensures places { places.new ≡ replicate (length places.old) 0 }
{
    types.fill(TypeRow::default());
    processes.fill(ProcessRow::default());
    terms.fill(TermRow::default());
    places.fill(0);
}

impl Reader<'_> {
    // The open level in row 0, and the declared types.
    #[tactic(auto, using(crate::proofs::Declared::length_declared), unfolding(crate::specs::Whole::types_read))]
    fn types_read(&mut self, level: u16) -> Result<(), ListingFault>
        ensures gives { Gives (types_read level (state self.old)) result (state self.new) }
        ensures lent { Lent self.new self.old }
    {
        self.share(TypeRow::plain(level), 0)?;
        self.declarations()
    }

    // The free names, one process, and the end of the text.
    #[tactic(auto, unfolding(crate::specs::Whole::body))]
    fn body(&mut self, scope: &mut Scope) -> Result<Counts, ListingFault>
        ensures gives { Gives (body (state self.old)) result (state self.new) }
        ensures same { Same self.new self.old }
    {
        self.header(scope)?;
        self.process(scope, 32, 512)?;
        self.ending()?;
        Ok(Counts {
            types: self.typed,
            processes: self.filled,
            terms: self.used,
        })
    }

    #[tactic(auto, unfolding(crate::specs::Whole::whole))]
    fn whole(&mut self, level: u16, scope: &mut Scope) -> Result<Counts, ListingFault>
        ensures gives { Gives (whole level (state self.old)) result (state self.new) }
        ensures lent { Lent self.new self.old }
    {
        self.types_read(level)?;
        self.body(scope)
    }

    // A whole text, whose names go out of scope with it, on every way out.
    fn apart(&mut self, level: u16, scope: &mut Scope) -> Result<Counts, ListingFault>
        ensures gives { Gives (whole level (state self.old)) result (state self.new) }
        ensures lent { Lent self.new self.old }
        ensures kept { scope.new.count ≡ scope.old.count }
    {
        let count = scope.count;
        let guard = ScopeGuard { scope, count };
        self.whole(level, guard.scope)
    }
}

// A text of at most 32,768 bytes into empty tables.
fn read_into(
    text: &[u8],
    level: u16,
    types: &mut [TypeRow],
    processes: &mut [ProcessRow],
    terms: &mut [TermRow],
    places: &mut [u16],
    scope: &mut Scope,
) -> Result<Counts, ListingFault>
    ensures told { Told (tables (whole level (started text.now types.old processes.old terms.old places.old))) result types.new processes.new terms.new places.new }
    ensures kept { scope.new.count ≡ scope.old.count }
{
    let mut reader = Reader {
        text,
        words: ArrayVec::new(),
        at: 0,
        types,
        typed: 0,
        rows: processes,
        places,
        filled: 0,
        terms,
        used: 0,
        run: 0,
    };
    reader.apart(level, scope)
}

// Kept: four lent slices, by a rule of the project: tables are lent as slices of rows.
/// Reads a listing into the lent tables; `level` is the number of the open level. Notes in `places`
/// the first byte of each process row. A refusal leaves the tables zero.
pub fn read(
    text: &[u8],
    level: u16,
    types: &mut [TypeRow],
    processes: &mut [ProcessRow],
    terms: &mut [TermRow],
    places: &mut [u16],
) -> Result<Counts, ListingFault>
    ensures answer { ReadAs text.now level (sizes_of types.old processes.old terms.old places.old) result types.new processes.new terms.new places.new }
    ensures sound { IfOk result (λ k. Sound text.now (sizes_of types.old processes.old terms.old places.old) k places.new) }
    ensures never_20_or_23 { IfOk result (λ k. Never20Or23 (rows_in_use k types.new processes.new terms.new)) }
{
    let mut scope = Scope::new();
    read_with_scope(text, level, types, processes, terms, places, &mut scope)
}

/// As `read`, with the room for the names in scope lent as well: what it holds is not looked at, and
/// its count is put back.
pub fn read_with_scope(
    text: &[u8],
    level: u16,
    types: &mut [TypeRow],
    processes: &mut [ProcessRow],
    terms: &mut [TermRow],
    places: &mut [u16],
    scope: &mut Scope,
) -> Result<Counts, ListingFault>
    ensures answer { ReadAs text.now level (sizes_of types.old processes.old terms.old places.old) result types.new processes.new terms.new places.new }
    ensures sound { IfOk result (λ k. Sound text.now (sizes_of types.old processes.old terms.old places.old) k places.new) }
    ensures never_20_or_23 { IfOk result (λ k. Never20Or23 (rows_in_use k types.new processes.new terms.new)) }
    ensures kept { scope.new.count ≡ scope.old.count }
{
    clear(types, processes, terms, places);
    if text.len() > LONGEST {
        return Err(ListingFault::TooLong);
    }
    let answer = read_into(text, level, types, processes, terms, places, scope);
    if answer.is_err() {
        clear(types, processes, terms, places);
    }
    answer
}

/// How many examples there are; each of them holds: what it says is the definitions' answer.
pub fn examples_hold() -> u16
    ensures hold { Examples }
    ensures count { result ≡ 27 }
{
    27
}
