//! Classes of cocycles and of cycles: class words, canonical cocycles, canonical bounds, the maps of the
//! contraction. Definitions and their laws alone; no code stands here.
#![tactic(auto)]

pub mod bound_laws;
pub mod canonical_laws;
pub mod class_laws;
pub mod cycle_laws;
pub mod map_laws;
pub mod test_laws;
