//! Pairs of complexes, their relative classes and the exact sequence. Definitions and their laws alone; no code stands here.
#![tactic(auto)]

pub mod cone_laws;
pub mod exactness;
pub mod pair_laws;
pub mod relative_laws;
pub mod sequence_laws;
