//! The reader of a listing: its text into lent tables.

#![tactic(auto)]

mod heads;
mod names;
mod parts;
mod process_rows;
mod processes;
mod tables;
mod terms;
mod tokens;
mod types;
mod whole;

pub use scanning::{ListingFault, Scope};
pub use whole::{Counts, examples_hold, read, read_with_scope};
