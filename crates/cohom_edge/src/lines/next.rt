//! What comes next: the answers of the reading of lines, and those of its steps.

/// What [`Lines::next_line`](crate::Lines::next_line) found.
#[derive(Clone, Copy, Debug, PartialEq, Eq)]
pub enum Next {
    /// A line, which [`Lines::line`](crate::Lines::line) shows.
    Line,
    /// The source has no more bytes, and each that it gave was given in a line.
    End,
    /// The source cannot be read, and what was read of it holds no further line.
    ReadFault,
    /// More bytes than a line has stand without a line feed.
    LongLine,
    /// As many lines were given as there may be, and a byte follows.
    Spent,
    /// No memory was left. No byte is lost: a later call may go on.
    Memory,
}

/// What is found at the next line's place in the bytes that were read.
pub(crate) enum Ahead {
    /// A line that ends before the line feed at this place.
    Line(usize),
    /// More bytes than a line has.
    LongLine,
    /// A byte past the last line.
    Spent,
    /// At most a part of a line.
    Part,
}

/// What one read gave.
pub(crate) enum Gain {
    /// At least one more byte.
    Bytes,
    /// Nothing: the source has no more.
    Nothing,
    /// Nothing: the source failed.
    Fault,
    /// Nothing: no memory was left for more, and the source was not asked.
    Memory,
}
