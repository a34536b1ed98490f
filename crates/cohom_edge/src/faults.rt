//! The faults of the outside, and how they are counted.
ghost use Rattle.std.specs.Prelude.{◌≡◌};
ghost use Rattle.cohom_edge.specs.Faults.{risen, Rose};

use memory::Memory;
use std::marker::Model;
use thiserror::Error;

/// A source could not be read. What it had left is left still.
#[derive(Clone, Copy, Debug, PartialEq, Eq, Error)]
#[error("the source cannot be read")]
pub struct Failed;

/// Why a sink took nothing. What it held it holds still.
#[derive(Clone, Copy, Debug, PartialEq, Eq, Error)]
pub enum SinkFault {
    /// The outside failed, and the sink's count of faults rose.
    #[error("the sink cannot be written")]
    Failed,
    /// No memory was left.
    #[error("out of memory")]
    Memory,
}

impl From<Memory> for SinkFault {
    ghost use Rattle.std.specs.Prelude.{◌≡◌};
    ghost use Rattle.cohom_edge.specs.declared.faults.SinkFault.TheVariants as fault;

    ghost from_gives = { λ _ f. f ≡ fault.Memory };

    fn from(_memory: Memory) -> SinkFault {
        SinkFault::Memory
    }
}

/// How many faults an end of the outside has had, up to the last value of 64 bits.
#[derive(Drop)]
pub(crate) struct FaultCount {
    count: u64,
}

impl Model for FaultCount {
    ghost use Rattle.std.specs.Prelude.{ℕ};

    ghost Value = { ℕ };

    ghost view = { λ c. c.count };
}

impl FaultCount {
    pub(crate) fn new() -> FaultCount
        ensures { result ≡ 0 }
    {
        FaultCount { count: 0 }
    }

    /// Counts one more fault.
    pub(crate) fn rise(&mut self)
        ensures counted { self.new ≡ risen self.old }
        ensures rose { Rose self.old self.new }
    {
        self.count = self.count.saturating_add(1);
    }
}
