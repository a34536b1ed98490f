//! A sink in memory that never fails.
ghost use Rattle.std.specs.Prelude.{◌≡◌, ◌<◌, ◌≤◌, [], min, length, IfOk, IfErr, Some};
ghost use Rattle.std.specs.Io.KnownBytes.{WriteAppends};

use super::store::Store;
use crate::faults::SinkFault;
use crate::sink::Sink;
use std::alloc::Global;
use std::marker::Model;

/// A sink into memory that never fails: its count of faults is 0. It can run out of memory.
#[derive(Drop)]
pub struct QuietSink {
    store: Store,
}

impl Model for QuietSink {
    ghost use Rattle.std.specs.Prelude.{◌<◌};
    ghost use Rattle.cohom_edge.specs.MemoryForms.{Hold};

    ghost Value = { Hold };

    ghost view = { λ s. s.store };

    ghost invariant = { λ s. 0 < s.store.piece };
}

impl QuietSink {
    /// The sink that holds nothing and takes at most `piece` bytes a write.
    pub fn new(alloc: Global, piece: usize) -> QuietSink
        requires { 0 < piece }
        ensures held { result.held ≡ [] }
        ensures piece { result.piece ≡ piece }
    {
        QuietSink {
            store: Store::new(alloc, piece),
        }
    }

    /// The bytes that it holds.
    pub fn bytes(&self) -> &[u8]
        ensures { result.now ≡ self.now.held }
    {
        self.store.bytes()
    }
}

impl Sink for QuietSink {
    ghost held = { λ s. Some s.held };

    ghost faults = { λ _. 0 };

    fn write(&mut self, piece: &[u8]) -> Result<usize, SinkFault>
        requires { 0 < length piece.now }
        ensures some { IfOk result (λ n. 0 < n) }
        ensures bound { IfOk result (λ n. n ≤ length piece.now) }
        ensures bytes { WriteAppends (Some self.old.held) (Some self.new.held) result piece.now }
        ensures never { IfErr result (λ fault. fault ≡ SinkFault.Memory) }
        ensures count { IfOk result (λ n. n ≡ min self.old.piece (length piece.now)) }
        ensures piece { self.new.piece ≡ self.old.piece }
    {
        Ok(self.store.take(piece)?)
    }
}
