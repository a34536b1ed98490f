//! Bytes that are taken in piece by piece.
ghost use Rattle.std.specs.Prelude.{◌≡◌, ◌<◌, [], ◌++◌, min, length, take, OnErr, IfOk};

use memory::Memory;
use std::alloc::Global;
use std::marker::Model;
use std::vec::Vec;

/// The bytes that are held, and how many are taken at a time at most.
#[derive(Drop)]
pub(crate) struct Store {
    bytes: Vec<u8>,
    piece: usize,
}

impl Model for Store {
    ghost use Rattle.cohom_edge.specs.MemoryForms.{Hold};

    ghost Value = { Hold };

    ghost view = { λ s. record { held = s.bytes.items; piece = s.piece } };
}

impl Store {
    pub(crate) fn new(alloc: Global, piece: usize) -> Store
        ensures held { result.held ≡ [] }
        ensures piece { result.piece ≡ piece }
    {
        Store {
            bytes: Vec::new(alloc),
            piece,
        }
    }

    /// Takes the front of `piece`, as much of it as is taken at a time, and says how much.
    pub(crate) fn take(&mut self, piece: &[u8]) -> Result<usize, Memory>
        ensures count { IfOk result (λ n. n ≡ min self.old.piece (length piece.now)) }
        ensures bytes { IfOk result (λ n. self.new.held ≡ self.old.held ++ take n piece.now) }
        ensures kept { OnErr result (self.new.held ≡ self.old.held) }
        ensures piece { self.new.piece ≡ self.old.piece }
    {
        let count = self.piece.min(piece.len());
        self.bytes.extend_from_slice(&piece[..count])?;
        Ok(count)
    }

    pub(crate) fn piece(&self) -> usize
        ensures { result ≡ self.now.piece }
    {
        self.piece
    }

    pub(crate) fn bytes(&self) -> &[u8]
        ensures { result.now ≡ self.now.held }
    {
        self.bytes.as_slice()
    }
}
