//! The one answer to a listing's text, and its line.

#![tactic(auto)]

mod answer;
mod line;

pub use answer::Answer;
pub use line::line_of;
