ghost use Rattle.std.specs.Prelude.{◌≡◌, ℕ, ◌≤◌, length};
ghost use Rattle.reader.specs.Appended.{Appended};

use rows::{ProcessRow, TermRow, TypeRow};
use scanning::{ListingFault, TypeWords};

// A text with how far it is read, the types that it declares, and the lent tables with how many rows
// are in use.
// Kept: a slice and its count side by side, and no struct of the two. With such structs as literals in
// `read_into`, or taken apart there, the borrow checker does not cover that function; made by a
// function, its goal `.. apart.new.self.types.rows.now ≡ ..` stays open.
// Kept: the clauses `same`, `lent`, `older` and `kept` at the methods. Each relates two moments, as that
// a reader still has the slices that it was lent, and a ghost field speaks of one.
#[derive(Drop)]
pub(crate) struct Reader<'a> {
    pub(crate) text: &'a [u8],
    pub(crate) words: TypeWords,
    pub(crate) at: usize,
    pub(crate) types: &'a mut [TypeRow],
    pub(crate) typed: u16,
    pub(crate) rows: &'a mut [ProcessRow],
    // the first byte of each process row
    // Kept: beside the rows and not in them, since the check of a listing takes the rows as a slice.
    pub(crate) places: &'a mut [u16],
    pub(crate) filled: u16,
    pub(crate) terms: &'a mut [TermRow],
    pub(crate) used: u16,
    // where the run of the present row's terms begins
    pub(crate) run: u16,
    ghost types_in: { typed ≤ length types.now },
    ghost rows_few: { filled ≤ 512 },
}

// A row in the next free place of a table, of which at most `most` rows are used. Answers its number;
// `place` is where a limit is passed.
pub(crate) fn append<T: Copy>(
    rows: &mut [T],
    used: &mut u16,
    most: u16,
    row: T,
    place: usize,
) -> Result<u16, ListingFault>
    ensures { Appended most row place rows.old used.old result rows.new used.new }
{
    let n = *used;
    if n >= most || n as usize >= rows.len() {
        return Err(ListingFault::Limit(place));
    }
    rows[n as usize] = row;
    *used = n + 1;
    Ok(n)
}
