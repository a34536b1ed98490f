//! Classes of cocycles: the class word of a cocycle, the canonical cocycle and the cycle of a class word, and the canonical
//! bound of a coboundary. Each is one pass over the model.
//!
//! Source: Munkres, Elements of Algebraic Topology, sections 5, 10 and 42, with coefficients modulo 2. The choice of one cocycle
//! and one cycle in each class, and of one bound of each coboundary, by the order of attachment is this project's own.
#![tactic(auto)]

pub use crate::bounds::{bound, bound_of_coboundary, first_class_of_cocycle};
pub use crate::refusal::{BoundRefusal, OpRefusal, WordRefusal};
pub use crate::representatives::{canonical, cycles};
pub use crate::word::{
    ClassWord, coordinates, coordinates_among, coordinates_of_cocycle, require_cocycle,
};
pub use memory::Memory;

mod along_phi;
mod bounds;
mod refusal;
mod representatives;
#[cfg(test)]
mod tests;
pub mod uncounted;
mod word;
