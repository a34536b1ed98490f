//! Bytes that were read and not yet given, and the line that was taken of them last.
ghost use Rattle.std.specs.Prelude.{◌≡◌, ◌+◌, ◌<◌, ◌≤◌, ◌++◌, [], length, take, drop, OnOk, MatchOption};
ghost use Rattle.std.specs.Str.Lines.{strip_carriage_return};
ghost use Rattle.cohom_edge.specs.Readings.{NoFeed};
ghost use Rattle.cohom_edge.specs.Pieces.{EndsAt};

use memchr::memchr;
use memory::Memory;
use std::alloc::Global;
use std::marker::Model;
use std::vec::Vec;

/// Bytes in the order in which they were read. Those from `start` on wait, those from `start` to
/// `scanned` are known to hold no line feed, and the line stands from `line` to `line_end`.
#[derive(Drop)]
pub(crate) struct Pending {
    bytes: Vec<u8>,
    line: usize,
    line_end: usize,
    start: usize,
    scanned: usize,
}

impl Model for Pending {
    ghost use Rattle.std.specs.Prelude.{◌-◌, slice_range, drop, vec_capacity, vec_len};
    ghost use Rattle.cohom_edge.specs.Pieces.{Waiting, Placed};

    ghost Value = { Waiting };

    ghost view = { λ p. record { line = slice_range p.bytes.items p.line p.line_end; bytes = drop p.start p.bytes.items; room = vec_capacity p.bytes - vec_len p.bytes } };

    ghost invariant = { λ p. Placed p.bytes.items p.line p.line_end p.start p.scanned };
}

impl Pending {
    /// No bytes and no line. Takes no memory yet.
    pub(crate) fn new(alloc: Global) -> Pending
        ensures line { result.line ≡ [] }
        ensures bytes { result.bytes ≡ [] }
    {
        Pending {
            bytes: Vec::new(alloc),
            line: 0,
            line_end: 0,
            start: 0,
            scanned: 0,
        }
    }

    /// The line that was taken last.
    pub(crate) fn line(&self) -> &[u8]
        ensures { result.now ≡ self.now.line }
    {
        &self.bytes[self.line..self.line_end]
    }

    /// How many bytes wait.
    pub(crate) fn len(&self) -> usize
        ensures { result ≡ length self.now.bytes }
    {
        self.bytes.len() - self.start
    }

    /// Lets the line go.
    pub(crate) fn forget_line(&mut self)
        ensures line { self.new.line ≡ [] }
        ensures bytes { self.new.bytes ≡ self.old.bytes }
    {
        self.line = 0;
        self.line_end = 0;
    }

    /// The place of the first line feed. No byte is looked at by two calls, but for a line feed.
    pub(crate) fn feed(&mut self) -> Option<usize>
        ensures same { self.new ≡ self.old }
        ensures place { MatchOption result (NoFeed self.old.bytes) (λ p. EndsAt self.old.bytes p) }
    {
        match memchr(b'\n', &self.bytes[self.scanned..]) {
            Some(skipped) => {
                self.scanned += skipped;
                Some(self.scanned - self.start)
            }
            None => {
                self.scanned = self.bytes.len();
                None
            }
        }
    }

    /// Takes the line that ends before the line feed at `place`.
    pub(crate) fn take_line(&mut self, place: usize)
        requires { place < length self.old.bytes }
        ensures line { self.new.line ≡ strip_carriage_return (take place self.old.bytes) }
        ensures bytes { self.new.bytes ≡ drop (place + 1) self.old.bytes }
    {
        let end = self.start + place;
        self.line = self.start;
        self.line_end = self.start + without_return(&self.bytes[self.start..end]);
        self.start = end + 1;
        self.scanned = self.start;
    }

    /// Takes all that waits as the line.
    pub(crate) fn take_rest(&mut self)
        ensures line { self.new.line ≡ self.old.bytes }
        ensures bytes { self.new.bytes ≡ [] }
    {
        let end = self.bytes.len();
        self.line = self.start;
        self.line_end = end;
        self.start = end;
        self.scanned = end;
    }

    /// Makes room for `count` more bytes. Those that were taken are dropped where they are at least
    /// half, so that each byte is moved at most once for each byte that was taken.
    pub(crate) fn make_room(&mut self, count: usize) -> Result<(), Memory>
        requires { self.old.line ≡ [] }
        ensures line { self.new.line ≡ [] }
        ensures bytes { self.new.bytes ≡ self.old.bytes }
        ensures room { OnOk result (count ≤ self.new.room) }
    {
        if self.len() <= self.start {
            self.drop_taken();
        }
        self.bytes.reserve(count)
    }

    fn drop_taken(&mut self)
        ensures line { self.new.line ≡ [] }
        ensures bytes { self.new.bytes ≡ self.old.bytes }
    {
        remove_front(&mut self.bytes, self.start);
        self.line = 0;
        self.line_end = 0;
        self.scanned -= self.start;
        self.start = 0;
    }

    /// Keeps more bytes, for which there is room.
    pub(crate) fn append(&mut self, piece: &[u8])
        requires { length piece.now ≤ self.old.room }
        ensures line { self.new.line ≡ self.old.line }
        ensures bytes { self.new.bytes ≡ self.old.bytes ++ piece.now }
    {
        let Ok(()) = self.bytes.extend_from_slice(piece) else {
            unreachable!()
        };
    }
}

/// How many bytes of the line stand before a carriage return at its end.
fn without_return(line: &[u8]) -> usize
    ensures bound { result ≤ length line.now }
    ensures line { take result line.now ≡ strip_carriage_return line.now }
{
    match line {
        [front @ .., b'\r'] => front.len(),
        _ => line.len(),
    }
}

/// Drops the first `count` bytes.
fn remove_front(bytes: &mut Vec<u8>, count: usize)
    requires { count ≤ length bytes.old.items }
    ensures { bytes.new.items ≡ drop count bytes.old.items }
{
    let rest = bytes.len() - count;
    bytes.as_mut_slice().copy_within(count.., 0);
    bytes.truncate(rest);
}
