//! Closed complexes and the links of their simplices: definitions and their laws alone; no code stands here.
#![tactic(auto)]

pub mod link_laws;
