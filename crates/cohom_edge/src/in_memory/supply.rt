//! Bytes that are given out piece by piece.
ghost use Rattle.std.specs.Prelude.{◌≡◌, ◌<◌, [], ◌++◌, ◌↔◌, min, length, take};

use std::marker::Model;
use std::vec::Vec;

/// Bytes, of which some were given, and how many are given at a time at most.
#[derive(Drop)]
pub(crate) struct Supply {
    bytes: Vec<u8>,
    given: usize,
    piece: usize,
}

impl Model for Supply {
    ghost use Rattle.std.specs.Prelude.{◌<◌, ◌≤◌, drop, length};
    ghost use Rattle.cohom_edge.specs.MemoryForms.{Feed};

    ghost Value = { Feed };

    ghost view = { λ s. record { left = drop s.given s.bytes.items; piece = s.piece } };

    ghost invariant = { λ s. (0 < s.piece) × (s.given ≤ length s.bytes.items) };
}

impl Supply {
    pub(crate) fn new(bytes: Vec<u8>, piece: usize) -> Supply
        requires { 0 < piece }
        ensures left { result.left ≡ bytes.items }
        ensures piece { result.piece ≡ piece }
    {
        Supply {
            bytes,
            given: 0,
            piece,
        }
    }

    /// Gives the next bytes into the front of `buf`, and how many: all that are left, but no more
    /// than the piece and `buf` hold.
    pub(crate) fn give(&mut self, buf: &mut [u8]) -> usize
        requires { 0 < length buf.old }
        ensures count { result ≡ min (min self.old.piece (length self.old.left)) (length buf.old) }
        ensures bytes { self.old.left ≡ take result buf.new ++ self.new.left }
        ensures end { (result ≡ 0) ↔ (self.old.left ≡ []) }
        ensures piece { self.new.piece ≡ self.old.piece }
    {
        let rest = self.rest();
        let count = self.piece.min(rest.len()).min(buf.len());
        buf[..count].copy_from_slice(&rest[..count]);
        self.given += count;
        count
    }

    fn rest(&self) -> &[u8]
        ensures { result.now ≡ self.now.left }
    {
        &self.bytes[self.given..]
    }
}
