//! Walks through sample protocols under the four levels, row by row in the order of the check.
#![tactic(auto)]

ghost use Rattle.std.specs.Prelude.{◌≡◌, ◌+◌, ◌≤◌, length};
ghost use Rattle.rows.specs.Processes.{adds};
ghost use Rattle.typing.specs.Judging.{extended};

mod wording;

use crate::wording::{TypeWords, word_of_row};
use arrayvec::ArrayVec;
use cases::marked_cases;
use checking::check;
use levels::FourLevels;
use rows::{Listing, ProcessRow, TypeRow};
use samples::{
    Sample, every_kind_of_row, key_in_the_clear, key_transport, plaintext_trusted,
    secret_signature_published, signed_key_transport,
};
use std::alloc::AllocError;
use std::io;
use typing::{Judgement, Misuse, Rules};

// A listing under the four levels, and where it is shown.
#[derive(Clone, Copy)]
struct Walk<'a> {
    rt: &'a HostRuntime,
    listing: Listing<'a>,
    rules: Rules<'a, FourLevels>,
}

impl<'a> Walk<'a> {
    fn new(rt: &'a HostRuntime, listing: Listing<'a>) -> Walk<'a> {
        let rules = Rules {
            scheme: &FourLevels,
            types: listing.types,
        };
        Walk { rt, listing, rules }
    }

    // The types of a row's terms, up to the first that has none.
    fn show_terms(&self, env: &[u16], row: ProcessRow) -> io::Result<()> {
        let mut seen = Vec::new(self.rt.alloc());
        let mut before = "; terms ";
        for term in row.run(self.listing.terms) {
            let Ok(t) = self.rules.type_term(env, seen.as_slice(), *term) else {
                return Ok(());
            };
            let words = TypeWords(t);
            print!(self.rt; "{before}{words}")?;
            before = ", ";
            seen.push(t)?;
        }
        Ok(())
    }

    // The types of the slots that a row adds, which are the first of these type rows.
    fn show_bound(&self, row: ProcessRow, new: [u16; 4]) -> io::Result<()> {
        for (k, ty) in new.iter().take(row.added() as usize).enumerate() {
            let before = if k == 0 { "; binds " } else { ", " };
            let words = TypeWords(TypeRow::at(self.listing.types, *ty));
            let slot = row.slots as usize + k;
            print!(self.rt; "{before}slot {slot}: {words}")?;
        }
        Ok(())
    }

    // What a row comes to.
    fn show_judgement(
        &self,
        row: ProcessRow,
        judgement: Result<Judgement, Misuse>,
    ) -> io::Result<()> {
        match judgement {
            Ok(Judgement::Done) => Ok(()),
            Ok(Judgement::Splits) => print!(self.rt; "; two follow"),
            Ok(Judgement::Binds(new)) => self.show_bound(row, new),
            Ok(Judgement::Opens(payload)) => {
                self.show_bound(row, payload)?;
                print!(self.rt; "; read twice")
            }
            Ok(Judgement::OpensOnce) => self.show_bound(row, [0; 4]),
            Err(misuse) => {
                let number = misuse.number();
                print!(self.rt; "; refused {number}")
            }
        }
    }

    // The aopen before a second reading, with what it binds now.
    fn show_once_more(&self, step: &Step) -> io::Result<()> {
        let above = step.row.saturating_sub(1);
        print!(self.rt; "row {above} once more")?;
        if let Some(aopen) = self.listing.processes.get(above as usize) {
            self.show_bound(*aopen, [0; 4])?;
        }
        println!(self.rt; "")
    }

    // Reads one row and shows it: its number, kind and terms, and what it comes to, which is the answer.
    fn read_row(&self, step: &Step, row: ProcessRow) -> io::Result<Result<Judgement, Misuse>> {
        let mut seen = [TypeRow::default(); 2048];
        let env = step.slots.as_slice();
        let judgement = self
            .rules
            .judge_row(self.listing.terms, env, row, &mut seen);
        if step.once_more {
            self.show_once_more(step)?;
        }
        let i = step.row;
        let kind = word_of_row(row.kind);
        print!(self.rt; "row {i}: {kind}")?;
        self.show_terms(env, row)?;
        self.show_judgement(row, judgement)?;
        println!(self.rt; "")?;
        Ok(judgement)
    }

    // Shows the rows in reading order, up to the first refusal.
    fn read_rows(&self) -> io::Result<()> {
        let rows = self.listing.processes;
        let mut left = Vec::new(self.rt.alloc());
        // what is free at the start has the open type
        let mut free = Slots::from([0; 32]);
        free.truncate(rows.first().map_or(0, |row| row.slots as usize));
        left.push(Step::at(0, free))?;
        // Kept: a counted loop, since `while let Some(step) = left.pop()` needs a number that falls,
        // and a row may put two more steps on the stack.
        for _ in 0..TURNS {
            let Some(step) = left.pop() else {
                break;
            };
            let Some(row) = rows.get(step.row as usize) else {
                break;
            };
            let Ok(judgement) = self.read_row(&step, *row)? else {
                break;
            };
            follow(&mut left, rows, step, *row, judgement)?;
        }
        Ok(())
    }

    // The verdict of the check.
    fn show_verdict(&self) -> io::Result<()> {
        match check(&FourLevels, self.listing) {
            Ok(()) => {
                let count = self.listing.processes.len();
                println!(self.rt; "accepted {count} rows")
            }
            Err(refusal) => {
                let number = refusal.number();
                let row = refusal.row();
                println!(self.rt; "refused {number} row {row}")
            }
        }
    }
}

// The type rows of the slots in scope.
type Slots = ArrayVec<u16, 32>;

// A row that is still to be read, with the type rows of the slots in scope; `once_more` where the
// second reading of what follows an aopen begins.
// Kept: a flag, since a step is read the same way with it; only what is shown before differs.
#[derive(Drop)]
struct Step {
    row: u16,
    slots: Slots,
    once_more: bool,
}

impl Step {
    fn at(row: u16, slots: Slots) -> Step {
        Step {
            row,
            slots,
            once_more: false,
        }
    }
}

// 512 rows, each read up to 64 times: twice for each of six aopens above it.
const TURNS: u32 = 40_000;

// The slots after a row, where the new ones have these type rows; as they were where there is no room.
fn entered(mut slots: Slots, row: ProcessRow, new: [u16; 4]) -> Slots
    ensures { length slots.items + adds row ≤ 32 → adds row ≤ 4 → result.items ≡ extended row slots.items new }
{
    if let Some(bound) = new.get(0..row.added() as usize) {
        let _ = slots.try_extend_from_slice(bound);
    }
    slots
}

// Puts what follows a step on the stack, the last first.
fn follow(
    left: &mut Vec<Step>,
    rows: &[ProcessRow],
    step: Step,
    row: ProcessRow,
    judgement: Judgement,
) -> Result<(), AllocError> {
    let next = step.row.saturating_add(1);
    match judgement {
        Judgement::Done => {}
        Judgement::Binds(new) => left.push(Step::at(next, entered(step.slots, row, new)))?,
        Judgement::Splits => {
            if let Some(child) = rows.get(next as usize) {
                left.push(Step::at(child.end, step.slots.clone()?))?;
            }
            left.push(Step::at(next, step.slots))?;
        }
        Judgement::Opens(new) => {
            let once_more = Step::at(next, entered(step.slots.clone()?, row, [0; 4]));
            left.push(Step {
                once_more: true,
                ..once_more
            })?;
            left.push(Step::at(next, entered(step.slots, row, new)))?;
        }
        Judgement::OpensOnce => left.push(Step::at(next, entered(step.slots, row, [0; 4])))?,
    }
    Ok(())
}

// Shows a sample: its name, its rows and the verdict.
fn read_sample(rt: &HostRuntime, sample: Sample) -> io::Result<()> {
    let name = sample.name;
    println!(rt; "\n{name}")?;
    let walk = Walk::new(rt, sample.listing);
    walk.read_rows()?;
    walk.show_verdict()
}

fn main(rt: HostRuntime) -> io::Result<()> {
    let cases = marked_cases();
    println!(rt; "{cases} marked cases hold")?;
    read_sample(&rt, key_transport())?;
    read_sample(&rt, key_in_the_clear())?;
    read_sample(&rt, signed_key_transport())?;
    read_sample(&rt, plaintext_trusted())?;
    read_sample(&rt, secret_signature_published())?;
    read_sample(&rt, every_kind_of_row())
}
