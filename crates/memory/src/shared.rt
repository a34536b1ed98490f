//! A value behind a count of its owners.
ghost use Rattle.std.specs.Prelude.{◌≡◌, IfOk};

use crate::{Duplicate, Memory};
use std::alloc::Global;
use std::marker::Model;
use std::sync::Arc;

/// A value of any size whose copies are one and the same memory: so a copy takes a step, and no
/// memory. A contract sees the value.
#[derive(Drop)]
pub struct Shared<T> {
    value: Arc<T>,
}

impl<T> Model for Shared<T> {
    ghost use Rattle.std.specs.Arc.{arc_value};

    ghost Value = { T };

    ghost view = { λ s. arc_value s.value };
}

impl<T: Drop> Shared<T> {
    /// The value, which its copies will share. `Err` is want of memory.
    pub fn new(alloc: Global, value: T) -> Result<Shared<T>, Memory>
        ensures { IfOk result (λ s. s ≡ value) }
    {
        let value = Arc::new(alloc, value)?;
        Ok(Shared { value })
    }

    /// The value.
    pub fn get(&self) -> &T
        ensures { result.now ≡ self.now }
    {
        &self.value
    }
}

impl<T: Drop> Duplicate for Shared<T> {
    fn duplicate(&self) -> Result<Shared<T>, Memory> {
        let value = self.value.clone()?;
        Ok(Shared { value })
    }
}
