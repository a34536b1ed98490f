//! The one line of entries, its versions, and the calls that make it longer.
//!
//! A [`Line`] is a list of entries that share what they have in common; a [`Root`] is a line with the model of its last
//! version. A [`Book`] is where the line grows: its growing model changes in place, and nobody else holds it. [`Board`] is
//! what a caller sees of a line that others may change too; [`LocalBoard`] is one that callers use in turn.
#![tactic(auto)]

mod attach;
mod board;
mod book;
mod entry;
mod growing;
mod line;
mod local;
mod receipts;
mod refusals;
mod root;
#[cfg(test)]
mod tests;

pub use board::Board;
pub use book::Book;
pub use entry::Entry;
pub use line::Line;
pub use local::LocalBoard;
pub use receipts::{BackReceipt, CutReceipt, Receipt};
pub use refusals::{BackRefusal, BoardRefusal, CutRefusal};
pub use root::Root;
