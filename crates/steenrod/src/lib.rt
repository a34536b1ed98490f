//! Products of classes, Steenrod squares and the Bockstein, and bounds of the differences of their results on cocycles of one class.
//!
//! Sources: N. E. Steenrod, Products of cocycles and extensions of mappings, 1947; for the Bockstein A. Hatcher, Algebraic
//! Topology, section 3.E. That the classes of the results depend on the classes of the arguments alone is in the laws of
//! `cohomology_operations`, and in a clause of each call.
#![tactic(auto)]

pub use crate::bocksteins::{bockstein, bockstein_cochain, bockstein_of_cocycle};
pub use crate::cohomologous::{
    bound_of_bocksteins, bound_of_products, bound_of_squares, require_cohomologous,
};
pub use crate::pairs::{product, product_of_cocycles};
pub use crate::refusal::{ClassRefusal, SameRefusal};
pub use crate::same::{same_bockstein, same_cup, same_square};
pub use crate::squares::{square, square_cochain, square_cochain_of_cocycle, square_of_cocycle};
pub use class_solver::{ClassWord, OpRefusal};
pub use memory::Memory;

mod bocksteins;
mod cohomologous;
mod halved;
mod pairs;
mod refusal;
mod same;
mod squares;
#[cfg(test)]
mod tests;
