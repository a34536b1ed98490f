//! Lists whose versions share what did not change.
#![tactic(auto)]

pub use crate::iter::Iter;
pub use crate::rows::Rows;

mod chunk;
mod iter;
mod rows;
#[cfg(test)]
mod tests;
mod tree;
