//! The pairing of cohomology classes of a closed complex, its Wu and Stiefel-Whitney classes, and its Stiefel-Whitney numbers.
//!
//! Source: Milnor and Stasheff, Characteristic Classes, sections 4 and 11.
#![tactic(auto)]

pub use crate::numbers::sw_number;
pub use crate::pairing::{Pairing, duality};
pub use crate::refusal::{NumberRefusal, WuRefusal};
pub use crate::whitney::sw;
pub use crate::wu_words::wu;
pub use memory::Memory;

mod class_maps;
mod cocycle;
mod columns;
mod dual;
mod face_sums;
mod kept_values;
mod numbers;
mod pairing;
mod pairing_rows;
mod point_rows;
mod refusal;
mod row;
#[cfg(test)]
mod tests;
mod top;
mod whitney;
mod wu_words;
