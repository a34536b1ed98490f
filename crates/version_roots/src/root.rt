//! A line with the model of its last version.
ghost use Rattle.std.specs.Prelude.{◌≡◌, ◌<◌, ◌∷◌, ◌++◌, [], false, length, IfOk, OnOk, OnErr};
ghost use Rattle.lines.specs.Lines.{Cut, Follows, IsLegal, callers, cuts, is_cut, simplices, version};
ghost use Rattle.lines.specs.Changes.{attached};
ghost use Rattle.facet_growth.specs.Facets.{InTurn};
ghost use Rattle.version_roots.specs.Entries.{entry_of};

use crate::{Entry, Line};
use at_model::Model;
use facet_growth::Coming;
use memory::Memory;
use std::alloc::Global;

/// A line with the model of its last version. A contract sees the line.
#[derive(Drop)]
pub struct Root {
    line: Line,
    model: Model,
}

impl std::marker::Model for Root {
    ghost use Rattle.std.specs.Prelude.{◌≡◌, List};
    ghost use Rattle.std.specs.Coded.{coded_list};
    ghost use Rattle.lines.specs.Lines.{Entry, cuts, version};
    ghost use Rattle.version_roots.specs.Entries.{entry_code};

    ghost Value = { List Entry };

    ghost coded = { coded_list entry_code };

    ghost view = { λ r. r.line };

    ghost invariant = { λ r. r.model ≡ version r.line (cuts r.line) };
}

impl Root {
    /// The root of the empty line. It takes no memory.
    pub fn new(alloc: Global) -> Root
        ensures { result ≡ [] }
    {
        Root {
            line: Line::new(alloc),
            model: Model::empty(alloc),
        }
    }

    /// The line. At once.
    pub fn line(&self) -> &Line
        ensures { result.now ≡ self.now }
    {
        &self.line
    }

    /// The length of the line. At once.
    pub fn entries(&self) -> u32
        ensures count { result ≡ length self.now }
        ensures legal { IsLegal self.now }
    {
        self.line.len()
    }

    /// The number of the last version, which is that of the cuts. At once.
    pub fn version(&self) -> u32
        ensures { result ≡ cuts self.now }
    {
        self.line.cuts()
    }

    /// The model of the last version. At once.
    pub fn model(&self) -> &Model
        ensures { result.now ≡ version self.now (cuts self.now) }
    {
        &self.model
    }

    /// An equal root; neither changes the other. In constant time. `Err` is want of memory.
    pub fn share(&self) -> Result<Root, Memory>
        ensures { IfOk result (λ r. r ≡ self.now) }
    {
        Ok(Root {
            line: self.line.share()?,
            model: self.model.share()?,
        })
    }

    /// Puts an entry other than a cut at the end of the line. `Err` is want of memory, and leaves the root as it was.
    pub(crate) fn push(&mut self, entry: Entry) -> Result<(), Memory>
        requires follows { Follows self.old (entry_of entry) }
        requires no_cut { is_cut (entry_of entry) ≡ false }
        ensures pushed { OnOk result (self.new ≡ self.old ++ entry_of entry ∷ []) }
        ensures unchanged { OnErr result (self.new ≡ self.old) }
    {
        self.line.push(entry)
    }

    /// The root of the line with these simplices of a caller at its end. `Err` is want of memory.
    pub(crate) fn with_attached(&self, caller: u8, new: &[Coming]) -> Result<Root, Memory>
        requires caller { caller < callers }
        requires turns { InTurn (simplices self.now) new.now }
        ensures { IfOk result (λ r. r ≡ self.now ++ attached caller new.now) }
    {
        let mut root = self.share()?;
        for coming in new {
            root.push(Entry::Attach {
                caller,
                simplex: coming.simplex().copy(),
            })?;
        }
        Ok(root)
    }

    /// The root of the line with a cut of a caller at its end, where this is the model of its simplices. `Err` is want of memory.
    pub(crate) fn with_cut(&self, caller: u8, model: Model) -> Result<Root, Memory>
        requires follows { Follows self.now (Cut caller) }
        requires model { model ≡ simplices self.now }
        ensures { IfOk result (λ r. r ≡ self.now ++ Cut caller ∷ []) }
    {
        let mut line = self.line.share()?;
        line.push(Entry::Cut { caller })?;
        Ok(Root { line, model })
    }
}
