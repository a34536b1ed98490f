//! The lengths of the line at the looks of a session.
ghost use Rattle.std.specs.Prelude.{◌≡◌, ◌<◌, ◌∷◌, ◌++◌, [], true, length, OnOk};
ghost use Rattle.session_core.specs.Looked.{lengths_of};

use memory::Memory;
use std::alloc::Global;

/// Looks that saw the same length of the line, one after another.
#[derive(Clone, Copy, Debug, PartialEq, Eq)]
pub struct Run {
    /// The length.
    pub length: u32,
    /// How many looks saw it.
    pub times: u32,
}

/// The lengths of the line at the looks of a session, in order. They never fall, so there is at most one run for each length.
/// A contract sees the lengths, and whether there is room for one more.
pub struct Looks {
    runs: Vec<Run>,
}

impl std::marker::Model for Looks {
    ghost use Rattle.session_core.specs.Looked.{Looked, has_room, lengths_of};

    ghost Value = { Looked };

    ghost view = { λ l. record { lengths = lengths_of l.runs.items; has_room = has_room l.runs } };
}

// Written out, so that whoever drops the looks has one call in its proof.
impl Drop for Looks {
    fn drop(self) {
        let Looks { runs: _ } = self;
    }
}

impl Looks {
    /// No look. It takes no memory.
    pub fn new(alloc: Global) -> Looks
        ensures { result.lengths ≡ [] }
    {
        Looks {
            runs: Vec::new(alloc),
        }
    }

    /// Makes room for one more look. `Err` is want of memory.
    pub fn reserve(&mut self) -> Result<(), Memory>
        ensures same { self.new.lengths ≡ self.old.lengths }
        ensures room { OnOk result (self.new.has_room ≡ true) }
    {
        self.runs.reserve(1)?;
        Ok(())
    }

    /// Puts the length of a look at the end. At once; it takes no memory.
    pub fn add(&mut self, entries: u32)
        requires room { self.old.has_room ≡ true }
        requires few { length self.old.lengths < 1000000 }
        ensures { self.new.lengths ≡ self.old.lengths ++ entries ∷ [] }
    {
        if let Some(last) = self.runs.last_mut()
            && last.length == entries
        {
            last.times += 1;
            return;
        }
        let Ok(()) = self.runs.push(Run {
            length: entries,
            times: 1,
        })
        else {
            unreachable!()
        };
    }

    /// The runs of equal lengths.
    pub fn runs(&self) -> &[Run]
        ensures { lengths_of result.now ≡ self.now.lengths }
    {
        &self.runs
    }
}
