//! What is told of a change that came in.
use crate::Root;

/// Simplices came in.
#[derive(Debug, Drop)]
pub struct Receipt {
    /// The place of the first new entry in the line.
    pub first: u32,
    /// The number of new entries.
    pub added: u32,
    /// The id of the simplex, or of the last facet.
    pub id: u32,
    /// The length of the line afterwards.
    pub entries: u32,
}

/// A cut came in.
#[derive(Drop)]
pub struct CutReceipt {
    /// The new version.
    pub version: u32,
    /// The length of the line afterwards.
    pub entries: u32,
    /// The root of the line with that cut at its end.
    pub root: Root,
}

/// A return came in.
#[derive(Debug, Drop)]
pub struct BackReceipt {
    /// The version whose simplices the line has again.
    pub version: u32,
    /// The length of the line afterwards.
    pub entries: u32,
}
