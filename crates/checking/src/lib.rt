//! The check of a listing: its shape first, and then the typing rules, row by row in reading order.

#![tactic(auto)]

mod refusal;
mod verdict;

pub use refusal::Refusal;
pub use verdict::check;
