//! The one line of entries, its versions, and what its callers have seen of it, as plain functions. Definitions alone; no
//! code stands here.
#![tactic(auto)]
