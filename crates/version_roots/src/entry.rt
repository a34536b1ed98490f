//! One entry of the line.
ghost use Rattle.std.specs.Prelude.{◌≡◌};

use memory::{Duplicate, Memory};
use simplex_order::Simplex;

/// What was accepted from a caller.
#[derive(Debug, Drop)]
pub enum Entry {
    /// A simplex came in.
    Attach { caller: u8, simplex: Simplex },
    /// The simplices became a version.
    Cut { caller: u8 },
    /// The simplices became those of a version again.
    Back { caller: u8, version: u32 },
}

impl Entry {
    /// An equal entry. It takes no memory.
    pub fn copy(&self) -> Entry
        ensures { result ≡ self.now }
    {
        match self {
            Entry::Attach { caller, simplex } => Entry::Attach {
                caller: *caller,
                simplex: simplex.copy(),
            },
            Entry::Cut { caller } => Entry::Cut { caller: *caller },
            Entry::Back { caller, version } => Entry::Back {
                caller: *caller,
                version: *version,
            },
        }
    }
}

impl Duplicate for Entry {
    fn duplicate(&self) -> Result<Entry, Memory> {
        Ok(self.copy())
    }
}
