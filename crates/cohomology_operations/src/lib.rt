//! Operations on cohomology modulo 2: products of classes, Steenrod squares and the Bockstein. Definitions and
//! their laws alone; no code stands here.
#![tactic(auto)]

pub mod bockstein_laws;
pub mod cochain_laws;
pub mod cohomologous_laws;
pub mod product_laws;
pub mod square_laws;
