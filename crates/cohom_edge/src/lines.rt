//! The lines of a source, one after another.
ghost use Rattle.std.specs.Prelude.{◌≡◌, ◌≤◌, [], None, IfSome, IfOk, IfErr};
ghost use Rattle.cohom_edge.specs.Readings.{Answered, stays};

pub(crate) mod gain;
pub(crate) mod next;
pub(crate) mod pending;
pub(crate) mod reader;
#[cfg(test)]
mod tests;

use crate::source::Source;
use memory::Memory;
use next::Next;
use reader::LineReader;
use std::alloc::Global;
use std::marker::Model;

/// Reads a source line by line, within a limit of the bytes of a line and one of the lines.
///
/// A line ends before its line feed, and before one carriage return right before that; what stands
/// after the last line feed is a line as it is, where it is not empty. Keeps the bytes of one line
/// and of one read at most, but for the room that its vector keeps; all together costs a few steps
/// for each byte, and one read at a time.
#[derive(Drop)]
pub struct Lines<S: Source> {
    source: S,
    reader: LineReader,
}

impl<S: Source> Model for Lines<S> {
    ghost use Rattle.cohom_edge.specs.Readings.{Reading, reading_of};

    ghost Value = { Reading };

    ghost view = { λ l. reading_of (S.left l.source) (S.faults l.source) l.reader };
}

impl<S: Source> Lines<S> {
    /// The lines of what `source` has left. Takes memory for one read; where there is none, the
    /// source is given back.
    pub fn new(alloc: Global, source: S) -> Result<Lines<S>, (S, Memory)>
        ensures made { IfOk result (λ lines. lines ≡ record { left = S.left source; faults = S.faults source; buffered = []; line = []; given = 0; stopped = None }) }
        ensures back { IfErr result (λ refusal. refusal.0 ≡ source) }
    {
        match LineReader::new(alloc) {
            Ok(reader) => Ok(Lines { source, reader }),
            Err(memory) => Err((source, memory)),
        }
    }

    /// Reads on to the end of the next line.
    ///
    /// After [`Next::ReadFault`], [`Next::LongLine`] or [`Next::Spent`] each later call gives the
    /// same answer. After [`Next::Memory`] nothing is lost, and a later call may go on.
    pub fn next_line(&mut self) -> Next
        ensures answer { Answered result self.old self.new }
        ensures stays { self.new.stopped ≡ stays result }
        ensures again { IfSome self.old.stopped (λ next. (result ≡ next) × (self.new ≡ self.old)) }
        ensures faults { self.old.faults ≤ self.new.faults }
    {
        self.reader.next_line(&mut self.source)
    }

    /// The line of the last answer, where that was [`Next::Line`], and otherwise no bytes.
    pub fn line(&self) -> &[u8]
        ensures { result.now ≡ self.now.line }
    {
        self.reader.line()
    }

    /// The number of lines given so far.
    pub fn lines(&self) -> u32
        ensures { result ≡ self.now.given }
    {
        self.reader.lines()
    }

    /// The source, as far as it was read.
    pub fn give_back(self) -> S
        ensures left { S.left result ≡ self.left }
        ensures faults { S.faults result ≡ self.faults }
    {
        let Lines {
            source,
            reader: _reader,
        } = self;
        source
    }
}
