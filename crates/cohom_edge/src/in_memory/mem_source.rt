//! A source in memory that fails where it is told to.
ghost use Rattle.std.specs.Prelude.{◌≡◌, ◌<◌, ◌↔◌, min, length, IfOk, IsErr, OnOk, OnErr, Some};
ghost use Rattle.std.specs.Io.{ReadsAtMost};
ghost use Rattle.std.specs.Io.KnownBytes.{ReadConsumes};
ghost use Rattle.cohom_edge.specs.Contents.{EndsAtZero};
ghost use Rattle.cohom_edge.specs.Faults.{Rose, risen};
ghost use Rattle.cohom_edge.specs.MemoryForms.{FailsNext, called};

use super::schedule::Schedule;
use super::supply::Supply;
use crate::faults::{Failed, FaultCount};
use crate::source::Source;
use std::marker::Model;
use std::vec::Vec;

/// A source over bytes in memory. Its reads are numbered from 1, and those with a given number fail.
#[derive(Drop)]
pub struct MemSource {
    supply: Supply,
    schedule: Schedule,
    count: FaultCount,
}

impl Model for MemSource {
    ghost use Rattle.std.specs.Prelude.{◌<◌};
    ghost use Rattle.cohom_edge.specs.MemoryForms.{FailingFeed};

    ghost Value = { FailingFeed };

    ghost view = { λ s. record { left = s.supply.left; piece = s.supply.piece; plan = s.schedule; faults = s.count } };

    ghost invariant = { λ s. 0 < s.supply.piece };
}

impl MemSource {
    /// The source that has `bytes` left, gives at most `piece` of them a read, and fails at the
    /// reads whose numbers stand in `fails`. Takes no memory; a read looks through `fails` once.
    pub fn new(bytes: Vec<u8>, piece: usize, fails: Vec<u32>) -> MemSource
        requires { 0 < piece }
        ensures left { result.left ≡ bytes.items }
        ensures piece { result.piece ≡ piece }
        ensures fails { result.plan.fails ≡ fails.items }
        ensures calls { result.plan.calls ≡ 0 }
        ensures faults { result.faults ≡ 0 }
    {
        MemSource {
            supply: Supply::new(bytes, piece),
            schedule: Schedule::new(fails),
            count: FaultCount::new(),
        }
    }
}

impl Source for MemSource {
    ghost left = { λ s. Some s.left };

    ghost faults = { λ s. s.faults };

    fn read(&mut self, buf: &mut [u8]) -> Result<usize, Failed>
        requires { 0 < length buf.old }
        ensures bound { ReadsAtMost result buf.new }
        ensures bytes { ReadConsumes (Some self.old.left) (Some self.new.left) result buf.new }
        ensures end { IfOk result (EndsAtZero (Some self.old.left)) }
        ensures calm { OnOk result (self.new.faults ≡ self.old.faults) }
        ensures cause { OnErr result (Rose self.old.faults self.new.faults) }
        ensures fails { IsErr result ↔ FailsNext self.old.plan }
        ensures count { IfOk result (λ n. n ≡ min (min self.old.piece (length self.old.left)) (length buf.old)) }
        ensures counted { OnErr result (self.new.faults ≡ risen self.old.faults) }
        ensures piece { self.new.piece ≡ self.old.piece }
        ensures plan { self.new.plan ≡ called self.old.plan }
    {
        if self.schedule.call() {
            self.count.rise();
            return Err(Failed);
        }
        Ok(self.supply.give(buf))
    }
}
