//! Maps of vertices between complexes that keep the order of the vertices, and the chains and cochains that go along
//! with them. Definitions and their laws alone; no code stands here.
#![tactic(auto)]

pub mod class_laws;
pub mod composition_laws;
pub mod map_laws;
