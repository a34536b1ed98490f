//! Where bytes come from.
ghost use Rattle.std.specs.Prelude.{◌≡◌, ◌<◌, ℕ, List, Option, length, IfOk, OnOk, OnErr, None};
ghost use Rattle.std.specs.Io.{ReadsAtMost};
ghost use Rattle.std.specs.Io.KnownBytes.{ReadConsumes};
ghost use Rattle.cohom_edge.specs.Contents.{EndsAtZero};
ghost use Rattle.cohom_edge.specs.Faults.{Rose};

use crate::faults::Failed;

/// An end of the outside from which bytes are read.
///
/// A source may tell what it has left; the clauses on bytes stand where it does.
pub trait Source {
    // The bytes that reads will give from here on, where they are told.
    ghost left: { Self → Option (List ℕ) };

    // How many faults the source has had.
    ghost faults: { Self → ℕ };

    /// Reads into the front of `buf`, which is not empty, and gives how many bytes it placed there.
    /// Zero means the end of input. After [`Failed`] nothing was read; `buf` may hold anything.
    fn read(&mut self, buf: &mut [u8]) -> Result<usize, Failed>
        requires { 0 < length buf.old }
        ensures bound { ReadsAtMost result buf.new }
        ensures bytes { ReadConsumes (left self.old) (left self.new) result buf.new }
        ensures end { IfOk result (EndsAtZero (left self.old)) }
        ensures calm { OnOk result (faults self.new ≡ faults self.old) }
        ensures cause { OnErr result (Rose (faults self.old) (faults self.new)) };
}

impl<S: Source> Source for &mut S {
    ghost left = { λ s. S.left s.now };

    ghost faults = { λ s. S.faults s.now };

    fn read(&mut self, buf: &mut [u8]) -> Result<usize, Failed> {
        (**self).read(buf)
    }
}
