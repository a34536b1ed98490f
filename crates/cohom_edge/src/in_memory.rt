//! Ends of the outside that are memory: they tell their bytes, and fail where they are told to.
pub(crate) mod mem_sink;
pub(crate) mod mem_source;
pub(crate) mod quiet_sink;
pub(crate) mod quiet_source;
mod schedule;
mod store;
mod supply;
