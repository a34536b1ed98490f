//! Names of held versions.
ghost use Rattle.std.specs.Prelude.{◌≡◌, ◌<◌, ◌≤◌, length};

use arrayvec::ArrayVec;
use std::marker::Model;

/// A name of 1 to 16 bytes, kept in place. A contract sees it as its bytes.
#[derive(Drop, PartialEq, Eq)]
pub struct Name {
    held: ArrayVec<u8, 16>,
}

impl Model for Name {
    ghost use Rattle.std.specs.Prelude.{ℕ, ◌<◌, ◌≤◌, List, length};

    ghost Value = { List ℕ };

    ghost view = { λ n. n.held.items };

    ghost invariant = { λ n. (0 < length n.held.items) × (length n.held.items ≤ 16) };

    ghost inverse = { λ bs. record { held = record { items = bs } } };
}

impl Name {
    /// The name of these bytes.
    pub(crate) fn of(bytes: &[u8]) -> Name
        requires some { 0 < length bytes.now }
        requires short { length bytes.now ≤ 16 }
        ensures { result ≡ bytes.now }
    {
        let mut held = ArrayVec::new();
        let Ok(()) = held.try_extend_from_slice(bytes) else {
            unreachable!()
        };
        Name { held }
    }

    /// The bytes of the name, 1 to 16 of them.
    #[inline]
    pub fn bytes(&self) -> &[u8]
        ensures value { result.now ≡ self.now }
        ensures some { 0 < length self.now }
        ensures short { length self.now ≤ 16 }
    {
        self.held.as_slice()
    }

    /// An equal name. Takes no memory.
    pub fn copy(&self) -> Name
        ensures { result ≡ self.now }
    {
        Name::of(self.bytes())
    }
}
