//! The outside of Cohom: where bytes come from and where they go.
//!
//! A [`Source`] gives bytes and a [`Sink`] takes them. Each counts the faults of the outside, and
//! answers a fault only where its count rose. The memory forms tell what they have left or hold;
//! standard input and output tell nothing, and are all that is trusted here.
#![tactic(auto)]

mod faults;
mod in_memory;
mod lines;
mod sink;
mod source;
mod standard;
#[cfg(test)]
mod tests;

pub use faults::{Failed, SinkFault};
pub use in_memory::mem_sink::MemSink;
pub use in_memory::mem_source::MemSource;
pub use in_memory::quiet_sink::QuietSink;
pub use in_memory::quiet_source::QuietSource;
pub use lines::Lines;
pub use lines::next::Next;
pub use lines::reader::LineReader;
pub use memory::Memory;
pub use sink::{Sink, write_whole};
pub use source::Source;
pub use standard::{StdSink, StdSource};
