//! What the reader of a listing looks at: the words of the text, the grammar's own words, and the
//! names in scope.

#![tactic(auto)]

mod fault;
mod scope;
mod spelling;
mod type_words;
mod vocabulary;

pub use fault::ListingFault;
pub use scope::Scope;
pub use spelling::spell;
pub use type_words::{TypeWord, TypeWords, row_of};
pub use vocabulary::{Head, first_of, head_of, type_kind};
