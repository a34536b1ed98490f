//! Whether a complex is closed, and whether the links of its simplices have the Betti numbers of spheres.
//!
//! Sources: Munkres, Elements of Algebraic Topology, section 63 (links); H. Seifert and W. Threlfall, A Textbook of Topology, section 24
//! (closed pseudomanifolds).
#![tactic(auto)]

pub use crate::closedness::closed;
pub use crate::link_counts::links;
pub use crate::refusal::{ClosedRefusal, LinkRefusal};
pub use memory::Memory;

mod around;
mod bounded;
mod circle;
mod closedness;
mod coface_lists;
mod collapse;
#[cfg(test)]
mod collapse_tests;
mod collapsing;
mod counts;
mod cover;
mod entries;
mod first;
pub mod laws;
mod link_counts;
mod link_model;
mod linking;
mod lists;
mod open_star;
mod refusal;
mod simplices;
mod spheres;
mod star;
#[cfg(test)]
mod tests;
