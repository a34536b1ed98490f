//! The answers to the questions on one version, one call a question: each reads the words of its question, and shows what is asked for, or
//! tells what stops it.
//!
//! | File | What it holds |
//! |---|---|
//! | `shows`, `operations`, `same` | what is there; operations on chains and cochains; their results on cocycles of one class |
//! | `manifold` | whether the complex is closed, and its links |
//! | `words` | the cochain or chain that a word of a question names |
//! | `literal` | sets of simplices as lists, and as they are shown |
//! | `stop` | what stops a question, or a word of it |
//!
//! Questions on pairings and characteristic classes stand in `session_core`, so that this crate does not wait for theirs.
#![tactic(auto)]

mod literal;
mod manifold;
mod operations;
mod same;
mod shows;
mod stop;
mod words;

pub use manifold::{closed, links};
pub use memory::Memory;
pub use operations::{bockstein, bound, boundary, cap, class, cup, cup_i, delta, square};
pub use same::{same_bockstein, same_cup, same_square};
pub use shows::{betti, classes, count, kind, maps, show, show_chain};
pub use stop::Stop;
