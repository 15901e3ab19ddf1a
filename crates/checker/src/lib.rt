//! The whole routine on text: a listing's text and a scheme to one answer.

#![tactic(auto)]

mod answering;
mod fault;
mod text;

pub use answering::answer_of;
pub use fault::{CheckFault, Layer};
pub use text::check_text;
