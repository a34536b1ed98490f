//! The session of one caller: what it holds of the line, the steps that its requests take, and the answers to its questions.
//!
//! | File | What it holds |
//! |---|---|
//! | `session` | the session, and which request takes which step |
//! | `changes`, `sights`, `names` | the steps that change the line, that look at it, and that keep versions under names |
//! | `kept` | the places of held versions |
//! | `question`, `characteristic` | which call answers which question; one call a question on pairings and characteristic classes, the others stand in `answers` |
//! | `prepare` | what the version in use keeps for a question |
//! | `looks`, `ends` | the lengths of the line at the looks of a session; how it ends |
#![tactic(auto)]

mod changes;
mod characteristic;
mod ends;
mod kept;
mod looks;
mod names;
mod prepare;
mod question;
mod session;
mod sights;

pub use ends::{How, SessionEnd};
pub use looks::{Looks, Run};
pub use memory::Memory;
pub use question::answer;
pub use session::Session;
