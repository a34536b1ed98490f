//! Where bytes go.
ghost use Rattle.std.specs.Prelude.{◌≡◌, ◌<◌, ◌≤◌, ℕ, List, [], Option, length, IfOk, OnOk, OnErr, IfErr, IsOk};
ghost use Rattle.std.specs.Io.KnownBytes.{Appends, WriteAppends};
ghost use Rattle.cohom_edge.specs.Contents.{AppendsPart};
ghost use Rattle.cohom_edge.specs.Faults.{Excuses};

use crate::faults::SinkFault;

/// An end of the outside to which bytes are written.
///
/// A sink may tell what it holds; the clauses on bytes stand where it does.
pub trait Sink {
    // The bytes that the sink holds, where they are told.
    ghost held: { Self → Option (List ℕ) };

    // How many faults the sink has had.
    ghost faults: { Self → ℕ };

    /// Takes some bytes from the front of `piece`, which is not empty, and gives how many: at
    /// least one. A sink that takes none answers [`SinkFault::Failed`].
    fn write(&mut self, piece: &[u8]) -> Result<usize, SinkFault>
        requires { 0 < length piece.now }
        ensures some { IfOk result (λ n. 0 < n) }
        ensures bound { IfOk result (λ n. n ≤ length piece.now) }
        ensures bytes { WriteAppends (held self.old) (held self.new) result piece.now }
        ensures calm { OnOk result (faults self.new ≡ faults self.old) }
        ensures cause { IfErr result (λ fault. Excuses fault (faults self.old) (faults self.new)) };
}

impl<K: Sink> Sink for &mut K {
    ghost held = { λ k. K.held k.now };

    ghost faults = { λ k. K.faults k.now };

    fn write(&mut self, piece: &[u8]) -> Result<usize, SinkFault> {
        (**self).write(piece)
    }
}

/// Writes all the bytes, in as many pieces as the sink takes.
///
/// A fault of the sink is passed on: then it took a beginning of the bytes, and not all. With no
/// bytes the sink is not called. Costs one call a piece, and copies nothing.
pub fn write_whole<K: Sink>(sink: &mut K, bytes: &[u8]) -> Result<(), SinkFault>
    ensures whole { OnOk result (Appends (K.held sink.old) (K.held sink.new) bytes.now) }
    ensures part { OnErr result (AppendsPart (K.held sink.old) (K.held sink.new) bytes.now) }
    ensures calm { OnOk result (K.faults sink.new ≡ K.faults sink.old) }
    ensures cause { IfErr result (λ fault. Excuses fault (K.faults sink.old) (K.faults sink.new)) }
    ensures nothing { bytes.now ≡ [] → IsOk result }
    ensures uncalled { bytes.now ≡ [] → sink.new ≡ sink.old }
{
    let mut taken = 0;
    while taken < bytes.len() {
        taken += sink.write(&bytes[taken..])?;
    }
    Ok(())
}
