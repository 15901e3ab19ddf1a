ghost use Rattle.std.specs.Prelude.{◌≡◌, ℕ, ◌+◌, ◌-◌, ◌<◌, ◌≤◌, ◌++◌, length, take, Ok, slice_index};
ghost use Rattle.levels.specs.Means.{means};
ghost use Rattle.rows.specs.Processes.{adds, slots_of};
ghost use Rattle.rows.specs.Tables.{tables};
ghost use Rattle.shape.specs.Whole.{shape};
ghost use Rattle.typing.specs.Judging.{reads};
ghost use Rattle.checking.specs.Stack.{limit_of};
ghost use Rattle.checking.specs.Theorems.{Decides, ByAnswers};
ghost use Rattle.checking.specs.Verdict.{rules, verdict};

use crate::refusal::Refusal;
use levels::Scheme;
use rows::{Listing, ProcessRow, TypeRow};
use shape::in_shape;
use typing::{Judgement, Misuse, Rules};

// Writes the types that a row binds into its new slots.
fn enter(env: &mut [u16], row: ProcessRow, new: &[u16])
    requires fit { row.slots + adds row ≤ length env.old }
    requires enough { adds row ≤ length new.now }
    ensures below { (n : ℕ) → n ≤ row.slots → take n env.new ≡ take n env.old }
    ensures within { take (row.slots + adds row) env.new ≡ take row.slots env.old ++ take (adds row) new.now }
{
    let n = row.added() as usize;
    let from = row.slots as usize;
    env[from..from + n].copy_from_slice(&new[..n]);
}

// Where the rows end that are read now: at the end of the innermost of the aopens on the way down, or
// of the table.
fn stop_at(rows: &[ProcessRow], aopens: &[u16]) -> u16
    requires known { 0 < length aopens.now → slice_index aopens.now (length aopens.now - 1) < length rows.now }
    requires short { length rows.now ≤ 512 }
    ensures { result ≡ limit_of rows.now aopens.now }
{
    match aopens.last() {
        Some(t) => rows[*t as usize].end,
        None => rows.len() as u16,
    }
}

// What row `i` comes to, where the first types of `env` are those of its slots.
fn judge_at<S: Scheme>(
    s: &S,
    l: Listing,
    i: u16,
    env: &[u16],
    seen: &mut [TypeRow],
) -> Result<Judgement, Misuse>
    requires inside { i < length l.processes.now }
    requires scope { slots_of l.processes.now i ≤ length env.now }
    requires room { length l.terms.now ≤ length seen.old }
    ensures { result ≡ reads (means S.Scheme s.now) (tables l.entry) (take (slots_of l.entry.processes.now i) env.now) i }
{
    let row = l.processes[i as usize];
    let rules = Rules {
        scheme: s,
        types: l.types,
    };
    rules.judge_row(l.terms, &env[..row.slots as usize], row, seen)
}

// Reads the rows in order. `stack` has an entry for each aopen on the way down, and `due` says whether
// it is still to be read a second time.
// Kept: two arrays and their count, by a rule of the project: the walk is one loop over a local stack
// of plain numbers, and no generic function calls itself.
fn walk<S: Scheme>(s: &S, l: Listing) -> Result<(), Refusal>
    requires { shape (means S.Scheme s.now) (tables l) ≡ Ok tt }
    ensures { result ≡ rules (means S.Scheme s.now) (tables l.entry) }
{
    let rows = l.processes;
    let mut seen = [TypeRow::plain(0); 2048];
    let mut env = [0u16; 32];
    let mut stack = [0u16; 6];
    let mut due = [false; 6];
    let mut top: usize = 0;
    let mut i: u16 = 0;
    'turn: loop {
        if i < stop_at(rows, &stack[..top]) {
            let row = rows[i as usize];
            let judgement = match judge_at(s, l, i, &env, &mut seen) {
                Ok(judgement) => judgement,
                Err(misuse) => return Err(Refusal::Typing(misuse, i as usize)),
            };
            match judgement {
                Judgement::Done | Judgement::Splits => {}
                Judgement::Binds(new) => enter(&mut env, row, &new),
                Judgement::Opens(new) => {
                    enter(&mut env, row, &new);
                    stack[top] = i;
                    due[top] = true;
                    top += 1;
                }
                Judgement::OpensOnce => {
                    enter(&mut env, row, &[0; 4]);
                    stack[top] = i;
                    due[top] = false;
                    top += 1;
                }
            }
            i += 1;
        } else if top == 0 {
            return Ok(());
        } else if due[top - 1] {
            due[top - 1] = false;
            i = stack[top - 1];
            enter(&mut env, rows[i as usize], &[0; 4]);
            i += 1;
        } else {
            top -= 1;
        }
    }
}

/// The check of a listing: accepted, or the first refusal, shape before typing, in reading order.
///
/// It accepts exactly the listings in shape that the typing rules type with every free name open, and
/// sees of the scheme nothing but its four answers.
pub fn check<S: Scheme>(s: &S, l: Listing) -> Result<(), Refusal>
    ensures says { result ≡ verdict (means S.Scheme s.now) (tables l.entry) }
    ensures decides { Decides (means S.Scheme s.now) (tables l.entry) result }
    ensures by_answers { ByAnswers (means S.Scheme s.now) (tables l.entry) result }
{
    in_shape(s, l)?;
    walk(s, l)
}
