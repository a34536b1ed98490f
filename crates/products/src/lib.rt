//! Products of cochains over the field with two elements: cup-i products, the splittings of vertex
//! lists that they sum over, and cap products. Definitions and their laws alone; no code stands here.
#![tactic(auto)]

pub mod cap_laws;
pub mod laws;
