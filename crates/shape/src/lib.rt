//! The shape test: whether the tables of a listing are what they must be before they mean anything.

#![tactic(auto)]

mod depth;
mod fault;
mod first;
mod node;
mod numbers;
mod process_shape;
mod term_shape;
mod type_shape;
mod whole;

pub use fault::ShapeFault;
pub use whole::in_shape;
