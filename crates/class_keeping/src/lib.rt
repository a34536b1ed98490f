//! What is kept for questions about the classes of a complex, and what of it still holds where the complex has grown. Each call is on a
//! [`Cache`](class_cache::Cache), and changes no answer.
//!
//! | File | What it holds |
//! |---|---|
//! | `keeping`, `all_classes` | what is kept of a degree, as far as it is asked for; of the classes of all degrees |
//! | `table`, `class_cycles`, `boundaries` | the canonical cocycles of all classes of a degree; their cycles; the boundaries that cocycles are tested by |
//! | `growth`, `living`, `newcomers`, `grown_cycles` | what still holds where the complex has grown |
//!
//! How much is kept, and when, stands in the limits of `class_cache`.
//!
//! Source: Munkres, Elements of Algebraic Topology, sections 5, 10 and 42, with coefficients modulo 2.
#![tactic(auto)]

pub use crate::all_classes::keep_classes;
pub use crate::growth::grow;
pub use crate::keeping::{keep, keep_result, keep_word};
pub use memory::Memory;

mod all_classes;
mod boundaries;
mod class_cycles;
mod grown_cycles;
mod growth;
mod keeping;
mod living;
mod newcomers;
mod table;
#[cfg(test)]
mod tests;
#[cfg(test)]
mod tests_grown;
