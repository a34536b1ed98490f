//! Rounds: jobs that several threads answer at the same time, as one thread would.
#![tactic(auto)]

pub use crate::gate::{Gate, OpenGate};
pub use crate::round::run_round;
pub use crate::work::Work;

mod gate;
mod round;
#[cfg(test)]
mod tests;
mod work;
