//! The pairing of cohomology classes of a closed complex, and its Wu and Stiefel-Whitney classes: definitions and their laws alone; no
//! code stands here.
#![tactic(auto)]

pub mod degeneracy_laws;
pub mod dual_laws;
pub mod pairing_laws;
pub mod top_laws;
pub mod whitney_laws;
pub mod wu_laws;
