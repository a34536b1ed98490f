//! A sink in memory that fails where it is told to.
ghost use Rattle.std.specs.Prelude.{◌≡◌, ◌<◌, ◌≤◌, ◌⊎◌, ◌↔◌, [], min, length, IfOk, OnOk, IfErr, Some};
ghost use Rattle.std.specs.Io.KnownBytes.{WriteAppends};
ghost use Rattle.cohom_edge.specs.Faults.{Excuses, counted_fault};
ghost use Rattle.cohom_edge.specs.MemoryForms.{FailsNext, called};

use super::schedule::Schedule;
use super::store::Store;
use crate::faults::{FaultCount, SinkFault};
use crate::sink::Sink;
use std::alloc::Global;
use std::marker::Model;
use std::vec::Vec;

/// A sink into memory. Its writes are numbered from 1, and those with a given number fail.
#[derive(Drop)]
pub struct MemSink {
    store: Store,
    schedule: Schedule,
    count: FaultCount,
}

impl Model for MemSink {
    ghost use Rattle.cohom_edge.specs.MemoryForms.{FailingHold};

    ghost Value = { FailingHold };

    ghost view = { λ s. record { held = s.store.held; piece = s.store.piece; plan = s.schedule; faults = s.count } };
}

impl MemSink {
    /// The sink that holds nothing, takes at most `piece` bytes a write, and fails at the writes
    /// whose numbers stand in `fails`, and at each with a `piece` of 0. Takes no memory yet; a
    /// write looks through `fails` once.
    pub fn new(alloc: Global, piece: usize, fails: Vec<u32>) -> MemSink
        ensures held { result.held ≡ [] }
        ensures piece { result.piece ≡ piece }
        ensures fails { result.plan.fails ≡ fails.items }
        ensures calls { result.plan.calls ≡ 0 }
        ensures faults { result.faults ≡ 0 }
    {
        MemSink {
            store: Store::new(alloc, piece),
            schedule: Schedule::new(fails),
            count: FaultCount::new(),
        }
    }

    /// The bytes that it holds.
    pub fn bytes(&self) -> &[u8]
        ensures { result.now ≡ self.now.held }
    {
        self.store.bytes()
    }
}

impl Sink for MemSink {
    ghost held = { λ s. Some s.held };

    ghost faults = { λ s. s.faults };

    fn write(&mut self, piece: &[u8]) -> Result<usize, SinkFault>
        requires { 0 < length piece.now }
        ensures some { IfOk result (λ n. 0 < n) }
        ensures bound { IfOk result (λ n. n ≤ length piece.now) }
        ensures bytes { WriteAppends (Some self.old.held) (Some self.new.held) result piece.now }
        ensures calm { OnOk result (self.new.faults ≡ self.old.faults) }
        ensures cause { IfErr result (λ fault. Excuses fault self.old.faults self.new.faults) }
        ensures fails { (result ≡ Err SinkFault.Failed) ↔ (FailsNext self.old.plan ⊎ (self.old.piece ≡ 0)) }
        ensures count { IfOk result (λ n. n ≡ min self.old.piece (length piece.now)) }
        ensures counted { IfErr result (λ fault. self.new.faults ≡ counted_fault fault self.old.faults) }
        ensures piece { self.new.piece ≡ self.old.piece }
        ensures plan { self.new.plan ≡ called self.old.plan }
    {
        if self.schedule.call() || self.store.piece() == 0 {
            self.count.rise();
            return Err(SinkFault::Failed);
        }
        Ok(self.store.take(piece)?)
    }
}
