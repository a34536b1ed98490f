//! The complex that a cache is of.
ghost use Rattle.std.specs.Prelude.{◌≡◌, length};

use at_model::Model;
use std::snapshot::Snapshot;

/// The number of simplices of a complex. A contract sees the complex.
#[derive(Drop)]
pub(crate) struct Front {
    len: u32,
    complex: Snapshot<Model>,
}

impl std::marker::Model for Front {
    ghost use Rattle.std.specs.Prelude.{◌≡◌, List, ℕ, length};

    ghost Value = { List (List ℕ) };

    ghost view = { λ f. f.complex.value };

    ghost invariant = { λ f. f.len ≡ length f.complex.value };
}

impl Front {
    /// The complex of a model. At once.
    pub(crate) fn of(m: &Model) -> Front
        ensures { result ≡ m.now }
    {
        Front {
            len: m.len(),
            complex: Snapshot::of(m),
        }
    }

    /// The number of its simplices. At once.
    pub(crate) fn len(&self) -> u32
        ensures { result ≡ length self.now }
    {
        self.len
    }
}
