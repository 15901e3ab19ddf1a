//! The words of a listing's text: words, numbers and marks, one after the other.

#![tactic(auto)]

mod bytes;
mod token;
mod word_reader;

pub use token::{Mark, Span, Token, WordFault};
pub use word_reader::next_token;
