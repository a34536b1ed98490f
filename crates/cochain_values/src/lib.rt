//! Cochains of a complex over the field with two elements: a degree, and the set of the simplices at
//! which the value is 1. Their sums and coboundaries, and the boundaries of chains.
//!
//! Source: Munkres, Elements of Algebraic Topology, sections 5, 10 and 42.
#![tactic(auto)]

pub use crate::boundary::boundary_of_chain;
pub use crate::cochain::Cochain;
pub use crate::refusal::CochainRefusal;
pub use memory::Memory;

mod boundary;
mod coboundary;
mod cochain;
mod literal;
pub mod marks;
mod refusal;
#[cfg(test)]
mod tests;
mod uncounted;
