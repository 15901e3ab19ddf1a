ghost use Rattle.std.specs.Prelude.{◌≡◌, ℕ, ◌+◌, length};
ghost use Rattle.rows.specs.Types.{same_type, equal_row, type_at, plain, type_kind_number};
ghost use Rattle.rows.specs.Processes.{adds, process_kind_number, run_of};
ghost use Rattle.rows.specs.Terms.{term_kind_number};

use crate::process::{ProcessKind, ProcessRow};
use crate::term::{TermKind, TermRow};
use crate::types::{TypeKind, TypeRow};

// Kept: three impls, since no derive writes what a conversion gives.
impl From<TypeKind> for u16 {
    ghost from_gives = { λ kind n. n ≡ type_kind_number kind };

    fn from(kind: TypeKind) -> u16 {
        kind as u16
    }
}

impl From<TermKind> for u16 {
    ghost from_gives = { λ kind n. n ≡ term_kind_number kind };

    fn from(kind: TermKind) -> u16 {
        kind as u16
    }
}

impl From<ProcessKind> for u16 {
    ghost from_gives = { λ kind n. n ≡ process_kind_number kind };

    fn from(kind: ProcessKind) -> u16 {
        kind as u16
    }
}

impl TypeRow {
    /// The plain type of a level.
    pub fn plain(level: u16) -> TypeRow
        ensures { result ≡ plain level }
    {
        TypeRow {
            kind: TypeKind::Level,
            level,
            count: 0,
            payload: [0; 4],
        }
    }

    /// The type in row `x` of a table; past its end, the plain type of level 0.
    pub fn at(table: &[TypeRow], x: u16) -> TypeRow
        ensures { result ≡ type_at table.now x }
    {
        table.get(x as usize).copied().unwrap_or(TypeRow::plain(0))
    }

    /// The last row of a table that is equal to the type: kind, level, count and payload.
    // Kept: tried as `rposition`; the proof did not close, since the check does not find what the
    // closure, a derived `==`, answered at each row.
    pub fn last_in(&self, table: &[TypeRow]) -> Option<usize>
        ensures { result ≡ equal_row table.now self.now (length table.now) }
    {
        let mut found = None;
        for (i, t) in table.iter().enumerate() {
            if *t == *self {
                found = Some(i);
            }
        }
        found
    }
}

impl ProcessRow {
    /// How many slots the row adds for what follows it.
    pub fn added(&self) -> u16
        ensures { result ≡ adds self.now }
    {
        match self.kind {
            ProcessKind::New => 1,
            ProcessKind::In | ProcessKind::Sopen | ProcessKind::Aopen | ProcessKind::Verify =>
                self.count,
            ProcessKind::Stop
            | ProcessKind::Out
            | ProcessKind::Both
            | ProcessKind::Again
            | ProcessKind::If => 0,
        }
    }

    /// The row's run of term rows; where the table is shorter, what it has of it.
    pub fn run<'a>(&self, terms: &'a [TermRow]) -> &'a [TermRow]
        ensures { result.now ≡ run_of terms.now self.now }
    {
        let from = terms.len().min(self.first as usize);
        let to = terms.len().min(from + self.terms as usize);
        &terms[from..to]
    }
}
