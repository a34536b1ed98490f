//! Lines of the bytes of a source that is passed at each call.
ghost use Rattle.std.specs.Prelude.{◌≡◌, ◌+◌, ◌≤◌, [], None, Some, IfSome, IfOk, take, drop};
ghost use Rattle.std.specs.Str.Lines.{strip_carriage_return};
ghost use Rattle.cohom_edge.specs.Readings.{Unfinished, Answered, stays, reading_of};
ghost use Rattle.cohom_edge.specs.Pieces.{LineAt, Found, Gained, Beside, Finished, Cause, flow};

use super::gain::read_more;
use super::next::{Ahead, Gain, Next};
use super::pending::Pending;
use crate::source::Source;
use memory::Memory;
use std::alloc::Global;
use std::marker::Model;
use std::vec::Vec;

/// The most bytes of a line before its line feed, a carriage return there among them.
const LINE_LIMIT: usize = 1_048_575;

/// The most lines.
const LINES_LIMIT: u32 = 1_000_000;

/// The most bytes of one read.
const READ_LIMIT: usize = 65_536;

/// Reads a source line by line, as [`Lines`](crate::Lines) does, where the source stays with the
/// caller, who passes the same one at each call.
#[derive(Drop)]
pub struct LineReader {
    pending: Pending,
    buf: Vec<u8>,
    given: u32,
    stopped: Option<Next>,
}

impl Model for LineReader {
    ghost use Rattle.std.specs.Prelude.{length};
    ghost use Rattle.cohom_edge.specs.Readings.{Held};
    ghost use Rattle.cohom_edge.specs.Pieces.{Sound};

    ghost Value = { Held };

    ghost view = { λ l. record { buffered = l.pending.bytes; line = l.pending.line; given = l.given; stopped = l.stopped } };

    ghost invariant = { λ l. Sound (length l.buf.items) l.given l.stopped l.pending.bytes l.pending.line };
}

impl LineReader {
    /// No line yet. Takes memory for one read.
    pub fn new(alloc: Global) -> Result<LineReader, Memory>
        ensures { IfOk result (λ reader. reader ≡ record { buffered = []; line = []; given = 0; stopped = None }) }
    {
        let buf = vec![in alloc; 0; READ_LIMIT]?;
        Ok(LineReader {
            pending: Pending::new(alloc),
            buf,
            given: 0,
            stopped: None,
        })
    }

    /// Reads on to the end of the next line.
    ///
    /// After [`Next::ReadFault`], [`Next::LongLine`] or [`Next::Spent`] each later call gives the
    /// same answer. After [`Next::Memory`] nothing is lost, and a later call may go on.
    pub fn next_line<S: Source>(&mut self, source: &mut S) -> Next
        ensures answer { Answered result (reading_of (S.left source.old) (S.faults source.old) self.old) (reading_of (S.left source.new) (S.faults source.new) self.new) }
        ensures stays { self.new.stopped ≡ stays result }
        ensures again { IfSome self.old.stopped (λ next. (result ≡ next) × (self.new ≡ self.old) × (source.new ≡ source.old)) }
        ensures faults { S.faults source.old ≤ S.faults source.new }
    {
        match self.stopped {
            Some(next) => next,
            None => self.advance(source),
        }
    }

    /// The line of the last answer, where that was [`Next::Line`], and otherwise no bytes.
    pub fn line(&self) -> &[u8]
        ensures { result.now ≡ self.now.line }
    {
        self.pending.line()
    }

    /// The number of lines given so far.
    pub fn lines(&self) -> u32
        ensures { result ≡ self.now.given }
    {
        self.given
    }

    /// Reads on while less than a line was read.
    fn advance<S: Source>(&mut self, source: &mut S) -> Next
        requires { self.old.stopped ≡ None }
        ensures answer { Answered result (reading_of (S.left source.old) (S.faults source.old) self.old) (reading_of (S.left source.new) (S.faults source.new) self.new) }
        ensures stays { self.new.stopped ≡ stays result }
    {
        self.forget_line();
        'reads: loop {
            match self.ahead() {
                Ahead::Line(place) => return self.give(place),
                Ahead::LongLine => return self.stop(Next::LongLine),
                Ahead::Spent => return self.stop(Next::Spent),
                Ahead::Part => match self.read(source) {
                    Gain::Bytes => {}
                    Gain::Nothing => return self.finish(),
                    Gain::Fault => return self.stop(Next::ReadFault),
                    Gain::Memory => return Next::Memory,
                },
            }
        }
    }

    fn forget_line(&mut self)
        requires { self.old.stopped ≡ None }
        ensures { self.new ≡ record self.old { line = [] } }
    {
        self.pending.forget_line();
    }

    /// What is found at the next line's place in the bytes that were read.
    fn ahead(&mut self) -> Ahead
        ensures same { self.new ≡ self.old }
        ensures found { Found result self.old.given self.old.buffered }
    {
        let waiting = self.pending.len();
        if waiting == 0 {
            return Ahead::Part;
        }
        if self.given == LINES_LIMIT {
            return Ahead::Spent;
        }
        match self.pending.feed() {
            Some(place) if place <= LINE_LIMIT => Ahead::Line(place),
            None if waiting <= LINE_LIMIT => Ahead::Part,
            _ => Ahead::LongLine,
        }
    }

    /// Gives the line that ends before the line feed at `place`.
    fn give(&mut self, place: usize) -> Next
        requires place { LineAt self.old.given self.old.buffered place }
        requires going { self.old.stopped ≡ None }
        ensures line { result ≡ Next.Line }
        ensures taken { self.new ≡ record self.old { line = strip_carriage_return (take place self.old.buffered); buffered = drop (place + 1) self.old.buffered; given = self.old.given + 1 } }
    {
        self.pending.take_line(place);
        self.given += 1;
        Next::Line
    }

    /// Reads once.
    fn read<S: Source>(&mut self, source: &mut S) -> Gain
        requires line { self.old.line ≡ [] }
        requires going { self.old.stopped ≡ None }
        ensures gained { Gained result (flow (reading_of (S.left source.old) (S.faults source.old) self.old)) (flow (reading_of (S.left source.new) (S.faults source.new) self.new)) }
        ensures beside { Beside (reading_of (S.left source.old) (S.faults source.old) self.old) (reading_of (S.left source.new) (S.faults source.new) self.new) }
    {
        read_more(source, &mut self.pending, self.buf.as_mut_slice())
    }

    /// Gives what waits as the last line, after the source had no more.
    fn finish(&mut self) -> Next
        requires part { Unfinished self.old.given self.old.buffered }
        requires line { self.old.line ≡ [] }
        requires going { self.old.stopped ≡ None }
        ensures { Finished result self.old self.new }
    {
        if self.pending.len() == 0 {
            return Next::End;
        }
        self.pending.take_rest();
        self.given += 1;
        Next::Line
    }

    /// Answers `next` from now on.
    fn stop(&mut self, next: Next) -> Next
        requires cause { Cause next self.old.given self.old.buffered }
        requires line { self.old.line ≡ [] }
        ensures answer { result ≡ next }
        ensures stopped { self.new ≡ record self.old { stopped = Some next } }
    {
        self.stopped = Some(next);
        next
    }
}
