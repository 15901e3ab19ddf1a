//! Level schemes: which numbers are levels, how they are ordered, their meets and the open level.

#![tactic(auto)]

mod four;
mod lowering;
mod parties;
mod party_scheme;
mod scheme;

pub use four::FourLevels;
pub use lowering::{is_guarded, is_public, is_tainted, lowered};
pub use parties::{Parties, SchemeFault};
pub use scheme::Scheme;
