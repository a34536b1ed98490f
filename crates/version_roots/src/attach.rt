//! Simplices that come in, one alone or those of facets.
ghost use Rattle.std.specs.Prelude.{◌≡◌, ◌<◌, true, length, position, Some, IfOk, IfErr, OnErr};
ghost use Rattle.homology.specs.Simplices.{IsSimplex, same_list};
ghost use Rattle.homology.specs.Growth.{is_there};
ghost use Rattle.lines.specs.Lines.{callers, simplices};
ghost use Rattle.lines.specs.Changes.{last};
ghost use Rattle.lines.specs.Changes as change;
ghost use Rattle.version_roots.specs.Judged.{Added, IsReceipt, Refused, refusal_of};

use crate::growing::{Growing, revive};
use crate::{BoardRefusal, Book, Entry, Receipt};
use at_model::Model;
use facet_growth::{attach, attach_in_turn, new_simplices};
use simplex_order::Simplex;

impl Book {
    /// Attaches a simplex: its id is the number of simplices before.
    ///
    /// `There`: the simplex is one of the line's. `Face`: a face of it is not; the least one in simplex order is named. `Full`: the
    /// line has as many simplices as it may have. `Memory`: none was left. The growing model changes in place.
    pub fn attach(&mut self, caller: u8, simplex: Simplex) -> Result<Receipt, BoardRefusal>
        requires { caller < callers }
        ensures added { IfOk result (λ r. Added self.old caller (change.Attach simplex) self.new) }
        ensures receipt { IfOk result (λ r. IsReceipt self.old self.new r) }
        ensures id { IfOk result (λ r. r.id ≡ length (simplices self.old)) }
        ensures refused { IfErr result (λ r. Refused self.old caller (change.Attach simplex) (refusal_of r)) }
        ensures unchanged { OnErr result (self.new ≡ self.old) }
    {
        let versions = self.versions.as_slice();
        revive(&mut self.growing, self.alloc, self.root.line(), versions)?;
        let Growing::Standing(model) = &mut self.growing else {
            unreachable!()
        };
        let first = self.root.entries();
        let id = attach(model, simplex.copy())?;
        if let Err(error) = self.root.push(Entry::Attach { caller, simplex }) {
            self.growing = Growing::Lost;
            return Err(BoardRefusal::from(error));
        }
        Ok(Receipt {
            first,
            added: 1,
            id,
            entries: self.root.entries(),
        })
    }

    /// Attaches what facets add, each beside those before it: whole, or not at all.
    ///
    /// `Full`: there is no room for all of it beside the simplices that are there, of which there are so many. `Memory`: none was
    /// left. The growing model changes in place; the line grows as a share, so that it stays as it was where memory ends.
    pub fn facet(&mut self, caller: u8, facets: &[Simplex]) -> Result<Receipt, BoardRefusal>
        requires caller { caller < callers }
        requires some { 0 < length facets.now }
        ensures added { IfOk result (λ r. Added self.old caller (change.Facet facets.now) self.new) }
        ensures receipt { IfOk result (λ r. IsReceipt self.old self.new r) }
        ensures id { IfOk result (λ r. position (same_list (last facets.now)) (simplices self.new) ≡ Some r.id) }
        ensures refused { IfErr result (λ r. Refused self.old caller (change.Facet facets.now) (refusal_of r)) }
        ensures unchanged { OnErr result (self.new ≡ self.old) }
    {
        let versions = self.versions.as_slice();
        revive(&mut self.growing, self.alloc, self.root.line(), versions)?;
        let Growing::Standing(model) = &mut self.growing else {
            unreachable!()
        };
        let Some(simplices) = new_simplices(model, facets)? else {
            return Err(BoardRefusal::Full(model.len()));
        };
        let root = self.root.with_attached(caller, simplices.as_slice())?;
        if let Err(error) = attach_in_turn(model, simplices.as_slice()) {
            self.growing = Growing::Lost;
            return Err(BoardRefusal::from(error));
        }
        let id = id_of(model, &facets[facets.len() - 1]);
        let first = self.root.entries();
        self.root = root;
        Ok(Receipt {
            first,
            added: simplices.len() as u32,
            id,
            entries: self.root.entries(),
        })
    }
}

/// The id of a simplex that is there.
fn id_of(model: &Model, simplex: &Simplex) -> u32
    requires { IsSimplex simplex.now → is_there model.now simplex.now ≡ true }
    ensures { position (same_list simplex.now) model.now ≡ Some result }
{
    // That it is a simplex, and so one of its own faces, is what this call says.
    let _vertices = simplex.vertices();
    let Some(id) = model.complex().find(simplex) else {
        unreachable!()
    };
    id
}
