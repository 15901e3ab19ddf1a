//! The tables of a listing: types, process rows and term rows.

#![tactic(auto)]

mod kinds;
mod listing;
mod process;
mod term;
mod types;

pub use listing::Listing;
pub use process::{ProcessKind, ProcessRow};
pub use term::{TermKind, TermRow};
pub use types::{TypeKind, TypeRow};
