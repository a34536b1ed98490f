//! A map from keys to numbers whose versions share what did not change.
//!
//! [`Index`] keeps its entries in the order in which their keys came in, and finds them by hashing:
//! the entries whose hashes belong in one bucket are chained, from the last to the first. All of it
//! stands in lists whose shares are made at once.
//! Source: Knuth, The Art of Computer Programming, volume 3, section 6.4, chaining.
#![tactic(auto)]

mod buckets;
mod filing;
mod index;
pub mod laws;
mod search;
#[cfg(test)]
mod tests;

pub use index::Index;
pub use memory::Memory;
