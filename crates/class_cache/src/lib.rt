//! What questions about the classes of a complex found, and how it is read: essential simplices, canonical cocycles, cycles and boundaries.
//! What is kept changes no answer.
//!
//! | File | What it holds |
//! |---|---|
//! | `cache`, `front` | what is kept of each degree; the complex that it is of |
//! | `kept` | what is kept of one degree |
//! | `cached` | a model and what is kept of it, of which questions are asked |
//! | `limits` | how much is kept, and when |
//! | `cycle_words`, `boundaries` | class words by cycles; the test of a cocycle by boundaries |
//! | `of_model` | what is answered as the model does |
//!
//! Source: Munkres, Elements of Algebraic Topology, sections 5, 10 and 42, with coefficients modulo 2.
#![tactic(auto)]

pub use crate::cache::Cache;
pub use crate::cached::Cached;
pub use crate::kept::Kept;
pub use memory::Memory;

mod boundaries;
mod cache;
mod cached;
mod cycle_words;
mod front;
mod kept;
pub mod limits;
mod of_model;
