//! Why a line asks for nothing.

use language::{Fault, FaultKind};
use thiserror::Error;

/// Why a line was not read.
#[derive(Debug, Drop, Error)]
pub enum ReadRefusal {
    /// The line asks for nothing that the language knows.
    #[error("the line has a word that cannot stand at its place")]
    Bad(Fault),
    /// No memory for the lists of the request.
    #[error("out of memory")]
    Memory,
}

/// Why a word was not read at its place.
#[derive(Drop)]
pub(crate) enum WordRefusal {
    /// The word cannot stand there.
    Bad(FaultKind),
    /// No memory for its list.
    Memory,
}
