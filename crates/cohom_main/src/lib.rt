//! The program: a script's bytes in, its transcript out.
#![tactic(auto)]

mod callers;
mod ends;
mod program;
mod script;
#[cfg(test)]
mod tests;

pub use program::run;
pub use script::run_script;
pub use session_core::{How, Looks, Run, SessionEnd};
