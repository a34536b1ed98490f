//! A source in memory that never fails.
ghost use Rattle.std.specs.Prelude.{◌≡◌, ◌<◌, min, length, IfOk, IsOk, OnOk, OnErr, Some};
ghost use Rattle.std.specs.Io.{ReadsAtMost};
ghost use Rattle.std.specs.Io.KnownBytes.{ReadConsumes};
ghost use Rattle.cohom_edge.specs.Contents.{EndsAtZero};

use super::supply::Supply;
use crate::faults::Failed;
use crate::source::Source;
use std::marker::Model;
use std::vec::Vec;

/// A source over bytes in memory that never fails: its count of faults is 0.
#[derive(Drop)]
pub struct QuietSource {
    supply: Supply,
}

impl Model for QuietSource {
    ghost use Rattle.std.specs.Prelude.{◌<◌};
    ghost use Rattle.cohom_edge.specs.MemoryForms.{Feed};

    ghost Value = { Feed };

    ghost view = { λ s. s.supply };

    ghost invariant = { λ s. 0 < s.supply.piece };
}

impl QuietSource {
    /// The source that has `bytes` left and gives at most `piece` of them a read.
    pub fn new(bytes: Vec<u8>, piece: usize) -> QuietSource
        requires { 0 < piece }
        ensures left { result.left ≡ bytes.items }
        ensures piece { result.piece ≡ piece }
    {
        QuietSource {
            supply: Supply::new(bytes, piece),
        }
    }
}

impl Source for QuietSource {
    ghost left = { λ s. Some s.left };

    ghost faults = { λ _. 0 };

    fn read(&mut self, buf: &mut [u8]) -> Result<usize, Failed>
        requires { 0 < length buf.old }
        ensures bound { ReadsAtMost result buf.new }
        ensures bytes { ReadConsumes (Some self.old.left) (Some self.new.left) result buf.new }
        ensures end { IfOk result (EndsAtZero (Some self.old.left)) }
        ensures never { IsOk result }
        ensures count { IfOk result (λ n. n ≡ min (min self.old.piece (length self.old.left)) (length buf.old)) }
        ensures piece { self.new.piece ≡ self.old.piece }
    {
        Ok(self.supply.give(buf))
    }
}
