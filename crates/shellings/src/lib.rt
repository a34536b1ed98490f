//! Shellings of links: definitions and their laws alone; no code stands here.
#![tactic(auto)]

pub mod shelling_laws;
