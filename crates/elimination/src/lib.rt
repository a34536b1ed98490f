//! Elimination over the field with two elements: which sums of given rows a row is.
//!
//! Source: Gaussian elimination; any textbook.
#![tactic(auto)]

pub use crate::basis::Basis;
pub use crate::row::Row;
pub use memory::Memory;

mod basis;
mod reduction;
mod row;
#[cfg(test)]
mod tests;
mod words;
