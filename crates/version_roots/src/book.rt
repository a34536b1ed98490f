//! Where the line grows.
ghost use Rattle.std.specs.Prelude.{◌≡◌, ◌<◌, [], length, IfOk, IfErr, OnErr};
ghost use mathlib.Core.List.{IsPrefix};
ghost use Rattle.lines.specs.Lines.{callers};
ghost use Rattle.lines.specs.Changes as change;
ghost use Rattle.version_roots.specs.Judged.{Added, IsBackReceipt, IsCutReceipt, Refused, back_refusal_of, cut_refusal_of};

use crate::growing::{Growing, revive, version_share};
use crate::{BackReceipt, BackRefusal, CutReceipt, CutRefusal, Entry, Root};
use at_model::Model;
use std::alloc::Global;

/// The most cuts of a line.
const MOST_CUTS: u32 = 16_384;

/// The most returns of a line.
const MOST_RETURNS: u32 = 64;

/// The line where it grows, with the models of its versions. A contract sees the line.
///
/// A change comes in whole or not at all. Want of memory leaves the line as it was; the growing model may be lost by it, and is
/// then grown anew, by the next change that needs it, from the last version or return and the simplices that came in since.
pub struct Book {
    pub(crate) alloc: Global,
    pub(crate) root: Root,
    pub(crate) growing: Growing,
    /// The models of the versions from 1 on.
    pub(crate) versions: Vec<Model>,
}

impl std::marker::Model for Book {
    ghost use Rattle.std.specs.Prelude.{◌≡◌, ◌∷◌, [], List};
    ghost use Rattle.std.specs.Coded.{coded_list};
    ghost use Rattle.lines.specs.Lines.{Entry, grown, simplices};
    ghost use Rattle.version_roots.specs.Entries.{entry_code};
    ghost use Rattle.version_roots.specs.Kept.{Stands};

    ghost Value = { List Entry };

    ghost coded = { coded_list entry_code };

    ghost view = { λ b. b.root };

    ghost invariant = { λ b. Stands b.growing (simplices b.root) × ([] ∷ b.versions.items ≡ (grown b.root).versions) };
}

// Written out, so that whoever drops a book has one call in its proof.
impl Drop for Book {
    fn drop(self) {
        let Book {
            alloc: _,
            root: _,
            growing: _,
            versions: _,
        } = self;
    }
}

impl Book {
    /// The empty line. It takes no memory.
    pub fn new(alloc: Global) -> Book
        ensures { result ≡ [] }
    {
        Book {
            alloc,
            root: Root::new(alloc),
            growing: Growing::Standing(Model::empty(alloc)),
            versions: Vec::new(alloc),
        }
    }

    /// The root of the line. At once.
    pub fn root(&self) -> &Root
        ensures { result.now ≡ self.now }
    {
        &self.root
    }

    /// Makes the line's simplices a version. In constant time.
    ///
    /// `Full`: the line has as many cuts as it may have. `Memory`: none was left.
    pub fn cut(&mut self, caller: u8) -> Result<CutReceipt, CutRefusal>
        requires { caller < callers }
        ensures added { IfOk result (λ r. Added self.old caller change.Cut self.new) }
        ensures receipt { IfOk result (λ r. IsCutReceipt self.new r) }
        ensures refused { IfErr result (λ r. Refused self.old caller change.Cut (cut_refusal_of r)) }
        ensures unchanged { OnErr result (self.new ≡ self.old) }
    {
        if self.root.version() >= MOST_CUTS {
            return Err(CutRefusal::Full(MOST_CUTS));
        }
        let versions = self.versions.as_slice();
        revive(&mut self.growing, self.alloc, self.root.line(), versions)?;
        let Growing::Standing(model) = &self.growing else {
            unreachable!()
        };
        let kept = model.share()?;
        let root = self.root.with_cut(caller, model.share()?)?;
        let handed = root.share()?;
        let Ok(()) = self.versions.push(kept) else {
            return Err(CutRefusal::Memory);
        };
        self.root = root;
        Ok(CutReceipt {
            version: handed.version(),
            entries: handed.entries(),
            root: handed,
        })
    }

    /// Makes the line's simplices those of a version again. In constant time.
    ///
    /// `NoVersion`: there is no such version; the number of the last is told. `Full`: the line has as many returns as it may
    /// have. `Memory`: none was left.
    pub fn back(&mut self, caller: u8, version: u32) -> Result<BackReceipt, BackRefusal>
        requires { caller < callers }
        ensures added { IfOk result (λ r. Added self.old caller (change.Back version) self.new) }
        ensures receipt { IfOk result (λ r. IsBackReceipt self.new version r) }
        ensures refused { IfErr result (λ r. Refused self.old caller (change.Back version) (back_refusal_of r)) }
        ensures unchanged { OnErr result (self.new ≡ self.old) }
    {
        if version > self.root.version() {
            return Err(BackRefusal::NoVersion(self.root.version()));
        }
        if self.root.line().returns() >= MOST_RETURNS {
            return Err(BackRefusal::Full(MOST_RETURNS));
        }
        let model = version_share(self.alloc, self.versions.as_slice(), version)?;
        self.root.push(Entry::Back { caller, version })?;
        self.growing = Growing::Standing(model);
        Ok(BackReceipt {
            version,
            entries: self.root.entries(),
        })
    }

    /// Takes back what came in since the line was that of an earlier root. It takes no memory; the growing model is lost.
    pub fn take_back(&mut self, root: Root)
        requires { IsPrefix root self.old }
        ensures { self.new ≡ root }
    {
        self.versions.truncate(root.version() as usize);
        self.growing = Growing::Lost;
        self.root = root;
    }
}
