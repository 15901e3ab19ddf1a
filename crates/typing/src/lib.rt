//! The typing rules: when a type fits another, how keys and channels are used, the types of terms and
//! what a process row comes to.

#![tactic(auto)]

mod fitting;
mod judging;
mod misuse;
mod rules;
mod terms;
mod usage;

pub use fitting::fits;
pub use judging::Judgement;
pub use misuse::Misuse;
pub use rules::Rules;
pub use usage::Usage;
