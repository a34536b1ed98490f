//! Want of memory, and copies that equal what they are copies of.
#![tactic(auto)]

pub use crate::hashed::Hashed;
pub use crate::shared::Shared;

mod hashed;
mod shared;

ghost use Rattle.std.specs.Prelude.{◌≡◌, IfOk};

/// No memory was left: the one answer of this repository that no contract ties to a cause.
pub use std::alloc::AllocError as Memory;

/// What has copies that no contract can tell from it.
pub trait Duplicate: Sized + Drop {
    /// An equal value. It costs a few steps, and takes no memory that grows with the value.
    fn duplicate(&self) -> Result<Self, Memory>
        ensures { IfOk result (λ copy. copy ≡ self.now) };
}

impl Duplicate for u32 {
    fn duplicate(&self) -> Result<u32, Memory> {
        Ok(*self)
    }
}

impl<T: Duplicate> Duplicate for Option<T> {
    fn duplicate(&self) -> Result<Option<T>, Memory> {
        match self {
            Some(value) => Ok(Some(value.duplicate()?)),
            None => Ok(None),
        }
    }
}

impl<A: Duplicate, B: Duplicate> Duplicate for (A, B) {
    fn duplicate(&self) -> Result<(A, B), Memory> {
        let first = self.0.duplicate()?;
        let second = self.1.duplicate()?;
        Ok((first, second))
    }
}
