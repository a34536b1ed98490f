//! Replies, and the answers to questions in them, as values and as lines of text.
//!
//! | File | What it holds |
//! |---|---|
//! | `reply`, `shown` | replies; the answer to a question: what is shown, or why nothing is |
//! | `reply_line`, `answer_text` | the line of a reply; the text of an answer |
//! | `number_text`, `simplex_text`, `class_text`, `pairing_text` | the texts of numbers; of simplices, cochains and chains; of classes; of bits and pairings |
//!
//! Each call appends one text to the bytes that are there. Where memory is wanting, what was there
//! still stands at the front, and a part of the text may follow it.
#![tactic(auto)]

mod answer_text;
mod class_text;
mod number_text;
mod pairing_text;
mod reply;
mod reply_line;
mod shown;
mod simplex_text;
#[cfg(test)]
mod tests;

pub use language::{Fault, Verb};
pub use memory::Memory;
pub use reply::Reply;
pub use reply_line::reply_bytes;
pub use shown::{Answer, Shown, Why};
