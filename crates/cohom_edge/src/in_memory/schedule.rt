//! Which calls of a memory form fail.
ghost use Rattle.std.specs.Prelude.{◌≡◌, IsTrue, ◌↔◌};
ghost use Rattle.cohom_edge.specs.MemoryForms.{FailsNext, called};

use std::marker::Model;
use std::vec::Vec;

/// The numbers of the calls that fail, from 1, and how many calls were made.
#[derive(Drop)]
pub(crate) struct Schedule {
    fails: Vec<u32>,
    calls: u32,
}

impl Model for Schedule {
    ghost use Rattle.cohom_edge.specs.MemoryForms.{Plan};

    ghost Value = { Plan };

    ghost view = { λ s. record { fails = s.fails.items; calls = s.calls } };
}

impl Schedule {
    pub(crate) fn new(fails: Vec<u32>) -> Schedule
        ensures fails { result.fails ≡ fails.items }
        ensures calls { result.calls ≡ 0 }
    {
        Schedule { fails, calls: 0 }
    }

    /// Counts one more call, and says whether it is one that fails.
    pub(crate) fn call(&mut self) -> bool
        ensures fails { IsTrue result ↔ FailsNext self.old }
        ensures counted { self.new ≡ called self.old }
    {
        if self.calls == u32::MAX {
            return false;
        }
        self.calls += 1;
        self.fails.contains(&self.calls)
    }
}
