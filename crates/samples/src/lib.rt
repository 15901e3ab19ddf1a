//! Protocols as tables. Each has its listing text above it.

#![tactic(auto)]

mod key_pairs;
mod kinds;
mod sample;
mod shared_key;

// Kept: a function for each protocol, since the contract of each says how large its tables are.
pub use key_pairs::{plaintext_trusted, secret_signature_published, signed_key_transport};
pub use kinds::every_kind_of_row;
pub use sample::Sample;
pub use shared_key::{key_in_the_clear, key_transport};
