//! Kernels and images of operations on cohomology modulo 2, decomposable classes, and the pages of the Bockstein. Definitions and
//! their laws alone; no code stands here.
#![tactic(auto)]

pub mod operation_laws;
pub mod space_laws;
