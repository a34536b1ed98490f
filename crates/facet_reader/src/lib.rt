//! The request language: what a line asks for, or which word of it cannot stand at its place.
//!
//! A line is a caller word or none, a request word, and the words that this request wants. The
//! definition of the language stands in the crate `language`; [`read_request`] is proved to read
//! each line so.
#![tactic(auto)]

mod alone;
mod brackets;
mod degree;
mod graded;
mod item_list;
pub mod laws;
mod lists;
mod many;
mod name;
mod pairs;
mod places;
mod question;
mod reader;
mod refusal;
mod request;
mod run;
mod simplex_list;
mod simplex_word;
mod small_word;
mod step;
mod verb;
mod worded;
mod words;

pub use degree::Degree;
pub use lists::{Numbers, Parts, Simplices};
pub use name::Name;
pub use reader::read_request;
pub use refusal::ReadRefusal;
pub use request::{Asked, ChainWord, CochainWord, Compute, Request};

#[cfg(test)]
mod tests;
