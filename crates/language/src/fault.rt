//! Why a line of requests has no reading.

/// What is wrong with a line, at a column.
#[derive(Debug, Drop, Clone, Copy, PartialEq, Eq)]
pub enum FaultKind {
    /// The first word begins with `@`, and names no caller.
    Caller,
    /// There is no request of this word.
    Request,
    /// A word is lacking.
    Missing,
    /// The word has another shape than the one wanted at its place.
    Word,
    /// A number in the word is longer than nine digits or out of its range.
    Number,
    /// A simplex in the word has more vertices than a simplex may have.
    Wide,
    /// A simplex in the word has a vertex twice.
    Repeat,
    /// All words of the request were read, and here stands one more.
    Extra,
}

/// The first word of a line that cannot stand at its place.
#[derive(Debug, Drop, Clone, Copy, PartialEq, Eq)]
pub struct Fault {
    /// The place of the word's first byte in the line, from 1. Where a word is lacking: the length of
    /// the line, plus 1.
    pub column: u32,
    /// What is wrong with it.
    pub kind: FaultKind,
}

impl FaultKind {
    ghost use Rattle.std.specs.Prelude.{◌≡◌};
    ghost use Rattle.language.specs.Faults.{kind_text};

    /// The word of the kind. Costs nothing.
    pub fn word(self) -> &'static [u8]
        ensures { result.now ≡ kind_text self }
    {
        match self {
            FaultKind::Caller => b"caller",
            FaultKind::Request => b"request",
            FaultKind::Missing => b"missing",
            FaultKind::Word => b"word",
            FaultKind::Number => b"number",
            FaultKind::Wide => b"wide",
            FaultKind::Repeat => b"repeat",
            FaultKind::Extra => b"extra",
        }
    }
}
