// Process rows: opened where their text begins, filled with what their first line says, and closed
// where their last child ends.
ghost use Rattle.std.specs.Prelude.{◌≡◌, ℕ, ◌<◌, OnOk};
ghost use Rattle.reader.specs.Cursor.{state, Gives, Same};
ghost use Rattle.reader.specs.Rows.{open_row, fill_row, close_row};

use crate::tables::{Reader, append};
use rows::{ProcessKind, ProcessRow};
use scanning::ListingFault;

// The most process rows.
const MOST: u16 = 512;

impl Reader<'_> {
    // A new row, whose text begins at `place`. Answers its number.
    #[tactic(auto, unfolding(crate::specs::Rows::open_row))]
    pub(crate) fn open_row(
        &mut self,
        left: u16,
        kind: ProcessKind,
        slots: u16,
        place: usize,
    ) -> Result<u16, ListingFault>
        ensures gives { Gives (open_row left kind slots place (state self.old)) result (state self.new) }
        ensures same { Same self.new self.old }
        ensures some { OnOk result (0 < left) }
    {
        let i = self.filled as usize;
        if left == 0 || i >= self.places.len() {
            return Err(ListingFault::Limit(place));
        }
        let row = ProcessRow {
            kind,
            slots,
            end: self.filled + 1,
            first: self.used,
            ..ProcessRow::default()
        };
        let n = append(self.rows, &mut self.filled, MOST, row, place)?;
        self.places[i] = place.min(65535) as u16;
        self.run = self.used;
        Ok(n)
    }

    // What the row says; its run has all terms since it was opened.
    // Kept: a test of the place and no `get_mut`, also in `close_row`. Of a slice that lent a row by
    // it the check knows the length and no row: the goal that the state is `fill_row ..` stays open.
    #[tactic(auto, using(std::proofs::lemmas::List::set_past), unfolding(crate::specs::Rows::fill_row))]
    pub(crate) fn fill_row(&mut self, row: u16, ty: u16, count: u16, operands: [u16; 5])
        ensures gives { state self.new ≡ fill_row row ty count operands (state self.old) }
        ensures same { Same self.new self.old }
    {
        let i = row as usize;
        if i < self.rows.len() {
            let old = self.rows[i];
            self.rows[i] = ProcessRow {
                ty,
                count,
                terms: self.used.saturating_sub(old.first),
                operands,
                ..old
            };
        }
    }

    // The row ends where the last row so far does.
    #[tactic(auto, using(std::proofs::lemmas::List::set_past), unfolding(crate::specs::Rows::close_row))]
    pub(crate) fn close_row(&mut self, row: u16)
        ensures gives { state self.new ≡ close_row row (state self.old) }
        ensures same { Same self.new self.old }
    {
        let i = row as usize;
        if i < self.rows.len() {
            self.rows[i].end = self.filled;
        }
    }
}
