//! Cup-i products of cochains, and cap products of a cochain and a chain.
//!
//! Sources: N. E. Steenrod, Products of cocycles and extensions of mappings, 1947; A. M. Medina-Mardones, New formulas for cup-i
//! products and fast computation of Steenrod squares, 2023; Munkres, Elements of Algebraic Topology, section 66.
#![tactic(auto)]

pub use crate::above::above as cofaces_of_members;
pub use crate::cap_product::cap;
pub use crate::cup_product::cup_i;
pub use crate::refusal::CapRefusal;
pub use memory::Memory;

mod above;
mod by_members;
mod cap_product;
mod cup_product;
mod factor;
mod pairs;
mod refusal;
mod splitting;
#[cfg(test)]
mod tests;
mod walk;
mod way;
