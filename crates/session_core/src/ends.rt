//! How a script or a session ends.

use crate::Looks;

/// Why a script ended.
#[derive(Clone, Copy, Debug, PartialEq, Eq)]
pub enum How {
    /// The input was read to its end, and all replies were written.
    Input,
    /// A line was `quit`, and its reply and all before it were written.
    Quit,
    /// The source failed. The replies to all whole lines that were read before stand written.
    ReadFault,
    /// The sink failed. It holds the replies to all lines but the last, and a beginning of the last.
    WriteFault,
    /// A line is too long. The replies to all lines before it were written.
    LongLine,
    /// There are too many lines. The replies to as many as there may be were written.
    Spent,
    /// No memory was left. The sink holds the replies to all lines, or to all but the last and a
    /// beginning of the last.
    Memory,
}

/// The end of a script, the looks that its lines took, and how many of its lines were given.
#[derive(Drop)]
pub struct SessionEnd {
    /// Why it ended.
    pub how: How,
    /// The length of the line at each look, before the entries that its own step adds.
    pub looks: Looks,
    /// The number of lines that were given, each of which was answered: but for the last of them
    /// after a fault of the sink, and maybe for the last after want of memory.
    pub lines: u32,
}
