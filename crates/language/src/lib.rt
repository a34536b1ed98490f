//! The lines of a text, the request language and its grammar, as plain functions of bytes. The steps, the
//! verbs of questions and the kinds of faults are types of the code, which the definitions cite.
#![tactic(auto)]

mod fault;
mod step;
mod verb;

pub use fault::{Fault, FaultKind};
pub use step::{STEPS, Step};
pub use verb::{VERBS, Verb};
