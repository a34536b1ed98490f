//! Replies.
ghost use Rattle.std.specs.Prelude.{◌≡◌};
ghost use Rattle.transcript.specs.Replies.{is_quit};
ghost use Rattle.reply_text.specs.Replies.{reply_of};

use crate::Answer;
use facet_reader::Name;
use language::{Fault, Verb};
use simplex_order::Simplex;

/// What a line is answered.
#[derive(Drop)]
pub enum Reply {
    /// Nothing is written.
    Silent,
    /// A word of the line cannot stand at its place.
    Bad(Fault),
    /// The request is not answered yet.
    Later,
    /// The simplex was attached.
    Attached {
        /// Its id.
        id: u32,
        /// The number of entries since then.
        entries: u32,
    },
    /// The facet came in.
    Faceted {
        /// The number of simplices that it added.
        added: u32,
        /// The number of entries since then.
        entries: u32,
    },
    /// A version was cut, and is in use.
    WasCut {
        /// The version.
        version: u32,
        /// The number of entries since then.
        entries: u32,
    },
    /// The simplices are those of a version again.
    WentBack {
        /// The version.
        version: u32,
        /// The number of entries since then.
        entries: u32,
    },
    /// A look: the last version seen is in use.
    Seen {
        /// The version.
        version: u32,
        /// The number of entries seen.
        entries: u32,
    },
    /// The same, where as many entries were seen as were wanted.
    After {
        /// The version.
        version: u32,
        /// The number of entries seen.
        entries: u32,
    },
    /// Fewer entries were seen: this many.
    NotYet(u32),
    /// The version in use is held under a name.
    Held {
        /// The name.
        name: Name,
        /// The version.
        version: u32,
    },
    /// A held version is in use.
    Taken {
        /// Its name.
        name: Name,
        /// The version.
        version: u32,
    },
    /// The name is held no more.
    Released(Name),
    /// A version is held under this name already.
    HeldAlready(Name),
    /// No more names can be held.
    HoldsFull,
    /// No version is held under this name.
    NoName(Name),
    /// A question on the version in use is answered.
    Computed {
        /// The version.
        version: u32,
        /// The question.
        verb: Verb,
        /// Its answer.
        answer: Answer,
    },
    /// The simplex is there, with this id.
    There(u32),
    /// This face of codimension one is missing, the least such face in simplex order.
    Face(Simplex),
    /// There are as many simplices, cuts or returns as there may be: this many.
    Full(u32),
    /// There is no such version; the last one is this.
    NoVersion(u32),
    /// The script ends.
    Quit,
}

impl Reply {
    /// Whether it is that to `quit`, after which a script ends.
    pub fn is_quit(&self) -> bool
        ensures { result ≡ is_quit (reply_of self.now) }
    {
        matches!(self, Reply::Quit)
    }
}
