//! Standard input and standard output: the trusted ends.
ghost use Rattle.std.specs.Prelude.{◌≡◌, ◌<◌, ◌≤◌, IfOk, OnOk, IfErr, OnErr, length};
ghost use Rattle.std.specs.Io.{ReadsAtMost};
ghost use Rattle.std.specs.Io.KnownBytes.{ReadConsumes, WriteAppends};
ghost use Rattle.cohom_edge.specs.Faults.{Rose, Excuses};

use crate::faults::{Failed, FaultCount, SinkFault};
use crate::sink::Sink;
use crate::source::Source;
use std::io::{Read, Stdin, Stdout, Write};
use std::marker::Model;

/// Standard input as a source. It does not tell what is left; a contract sees it as its count of faults.
#[derive(Drop)]
pub struct StdSource {
    input: Stdin,
    faults: FaultCount,
}

impl Model for StdSource {
    ghost use Rattle.std.specs.Prelude.{ℕ};

    ghost Value = { ℕ };

    ghost view = { λ s. s.faults };
}

impl StdSource {
    /// The source that reads `input`, with no faults yet.
    pub fn new(input: Stdin) -> StdSource
        ensures { result ≡ 0 }
    {
        StdSource {
            input,
            faults: FaultCount::new(),
        }
    }
}

impl Source for StdSource {
    ghost use Rattle.std.specs.Prelude.{None};

    ghost left = { λ _. None };

    ghost faults = { λ s. s };

    fn read(&mut self, buf: &mut [u8]) -> Result<usize, Failed> {
        read_counted(&mut self.input, &mut self.faults, buf)
    }
}

/// Standard output as a sink. It does not tell what it holds; a contract sees it as its count of faults.
#[derive(Drop)]
pub struct StdSink {
    output: Stdout,
    faults: FaultCount,
}

impl Model for StdSink {
    ghost use Rattle.std.specs.Prelude.{ℕ};

    ghost Value = { ℕ };

    ghost view = { λ s. s.faults };
}

impl StdSink {
    /// The sink that writes to `output`, with no faults yet.
    pub fn new(output: Stdout) -> StdSink
        ensures { result ≡ 0 }
    {
        StdSink {
            output,
            faults: FaultCount::new(),
        }
    }
}

impl Sink for StdSink {
    ghost use Rattle.std.specs.Prelude.{None};

    ghost held = { λ _. None };

    ghost faults = { λ s. s };

    fn write(&mut self, piece: &[u8]) -> Result<usize, SinkFault> {
        write_counted(&mut self.output, &mut self.faults, piece)
    }
}

/// One read of a reader, with its error counted.
pub(crate) fn read_counted<R: Read>(
    reader: &mut R,
    faults: &mut FaultCount,
    buf: &mut [u8],
) -> Result<usize, Failed>
    ensures bound { ReadsAtMost result buf.new }
    ensures bytes { ReadConsumes (R.remaining reader.old) (R.remaining reader.new) result buf.new }
    ensures calm { OnOk result (faults.new ≡ faults.old) }
    ensures cause { OnErr result (Rose faults.old faults.new) }
{
    match reader.read(buf) {
        Ok(count) => Ok(count),
        Err(_) => {
            faults.rise();
            Err(Failed)
        }
    }
}

/// One write to a writer, with its error counted. A writer that takes nothing failed.
pub(crate) fn write_counted<W: Write>(
    writer: &mut W,
    faults: &mut FaultCount,
    piece: &[u8],
) -> Result<usize, SinkFault>
    ensures some { IfOk result (λ n. 0 < n) }
    ensures bound { IfOk result (λ n. n ≤ length piece.now) }
    ensures bytes { WriteAppends (W.contents writer.old) (W.contents writer.new) result piece.now }
    ensures failed { OnErr result (result ≡ Err SinkFault.Failed) }
    ensures calm { OnOk result (faults.new ≡ faults.old) }
    ensures cause { IfErr result (λ fault. Excuses fault faults.old faults.new) }
{
    match writer.write(piece) {
        Ok(count) if 0 < count => Ok(count),
        _ => {
            faults.rise();
            Err(SinkFault::Failed)
        }
    }
}
