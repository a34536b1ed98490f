//! The line.
ghost use Rattle.std.specs.Prelude.{◌≡◌, ◌≤◌, ◌<◌, ◌∷◌, ◌++◌, [], length, IfOk, OnOk, OnErr, MatchOption};
ghost use Rattle.lines.specs.Lines.{Follows, IsLegal, cuts, entry_at, returns};
ghost use Rattle.version_roots.specs.Entries.{entry_of};
ghost use Rattle.version_roots.specs.Kept.{GrowsFrom, IsKept};

use crate::Entry;
use memory::Memory;
use share_rows::Rows;
use std::alloc::Global;

/// The list of all entries, in the order in which they were accepted. Lines share the entries that they have in common.
#[derive(Drop)]
pub struct Line {
    entries: Rows<Entry>,
    tally: Tally,
}

/// What is counted of a line, and from where its simplices have grown: those of its first `start` entries are those of the version
/// `base`, and behind them simplices came in, and nothing else.
#[derive(Clone, Copy)]
struct Tally {
    cuts: u32,
    returns: u32,
    base: u32,
    start: u32,
}

impl std::marker::Model for Line {
    ghost use Rattle.std.specs.Prelude.{List, map};
    ghost use Rattle.lines.specs.Lines.{Entry};
    ghost use Rattle.std.specs.Coded.{coded_list};
    ghost use Rattle.version_roots.specs.Entries.{entry_of, entry_code};
    ghost use Rattle.version_roots.specs.Kept.{IsKept};

    ghost Value = { List Entry };

    ghost coded = { coded_list entry_code };

    ghost view = { λ l. map entry_of l.entries.items };

    ghost invariant = { λ l. IsKept (map entry_of l.entries.items) l.tally.cuts l.tally.returns l.tally.base l.tally.start };
}

impl Line {
    /// The empty line. It takes no memory.
    pub fn new(alloc: Global) -> Line
        ensures { result ≡ [] }
    {
        Line {
            entries: Rows::new(alloc),
            tally: Tally {
                cuts: 0,
                returns: 0,
                base: 0,
                start: 0,
            },
        }
    }

    /// The number of entries. At once.
    pub fn len(&self) -> u32
        ensures count { result ≡ length self.now }
        ensures legal { IsLegal self.now }
    {
        self.entries.len()
    }

    /// The `k`-th entry, counted from 0; `None` exactly where there are no more than `k`. At once.
    pub fn get(&self, k: u32) -> Option<Entry>
        ensures { MatchOption result (length self.now ≤ k) (λ e. (k < length self.now) × (entry_of e ≡ entry_at self.now k)) }
    {
        if k >= self.entries.len() {
            return None;
        }
        Some(self.entries.at(k).copy())
    }

    /// The number of cuts, which is that of the last version. At once.
    pub fn cuts(&self) -> u32
        ensures { result ≡ cuts self.now }
    {
        self.tally.cuts
    }

    /// The number of returns to a version. At once.
    pub fn returns(&self) -> u32
        ensures { result ≡ returns self.now }
    {
        self.tally.returns
    }

    /// An equal line; neither changes the other. In constant time. `Err` is want of memory.
    pub fn share(&self) -> Result<Line, Memory>
        ensures { IfOk result (λ l. l ≡ self.now) }
    {
        Ok(Line {
            entries: self.entries.share()?,
            tally: self.tally,
        })
    }

    /// A version and a number of entries: the simplices of so many entries were those of that version, and behind them simplices
    /// came in, and nothing else. At once.
    pub(crate) fn base(&self) -> (u32, u32)
        ensures { GrowsFrom self.now result.0 result.1 }
    {
        (self.tally.base, self.tally.start)
    }

    /// Puts an entry at the end. `Err` is want of memory, and leaves the line as it was.
    pub(crate) fn push(&mut self, entry: Entry) -> Result<(), Memory>
        requires { Follows self.old (entry_of entry) }
        ensures pushed { OnOk result (self.new ≡ self.old ++ entry_of entry ∷ []) }
        ensures unchanged { OnErr result (self.new ≡ self.old) }
    {
        let tally = self.tally_with(&entry);
        self.entries.push(entry)?;
        self.tally = tally;
        Ok(())
    }

    /// What is counted once an entry stands at the end.
    fn tally_with(&self, entry: &Entry) -> Tally
        requires { Follows self.now (entry_of entry.now) }
        ensures { IsKept (self.now ++ entry_of entry.now ∷ []) result.cuts result.returns result.base result.start }
    {
        let tally = self.tally;
        let end = self.entries.len() + 1;
        match entry {
            Entry::Attach { .. } => tally,
            Entry::Cut { .. } => Tally {
                cuts: tally.cuts + 1,
                base: tally.cuts + 1,
                start: end,
                ..tally
            },
            Entry::Back { version, .. } => Tally {
                returns: tally.returns + 1,
                base: *version,
                start: end,
                ..tally
            },
        }
    }
}
