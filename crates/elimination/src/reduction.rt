//! What is left of a row when kept rows are added to it.
ghost use Rattle.std.specs.Prelude.{◌≡◌, ◌&&◌, true, length, IfOk};
ghost use Rattle.std.specs.List.{All};
ghost use Rattle.homology.specs.Sets.{plus};
ghost use Rattle.elimination.specs.Rows.{entry};
ghost use Rattle.elimination.specs.Reductions.{IsKept, IsReduction, after, givens};

use crate::Row;
use memory::Memory;
use std::alloc::Global;

/// A row that was given, and what was left of it.
#[derive(Drop)]
pub(crate) struct Kept {
    /// The row as it was given.
    pub(crate) given: Row,
    /// What was left of it.
    pub(crate) reduced: Row,
    /// A one for each given row that this is the sum of.
    pub(crate) terms: Row,
    /// A place with a one of what was left.
    pub(crate) lead: u32,
}

/// What is left of a row, and which given rows were added to it.
#[derive(Drop)]
pub(crate) struct Reduction {
    /// What is left.
    pub(crate) rest: Row,
    /// A one for each given row that was added.
    pub(crate) terms: Row,
}

/// Adds, one after the other, each kept row at whose leading place there is still a one. A step for 64 entries of each.
pub(crate) fn reduce(alloc: Global, kept: &[Kept], row: &Row) -> Result<Reduction, Memory>
    requires { All (IsKept (length row.now) (givens kept.now) (length kept.now)) kept.now }
    ensures { IfOk result (λ r. IsReduction kept.now row.now r.rest r.terms) }
{
    let mut rest = row.copy()?;
    let mut terms = Row::zeros(alloc, row.width())?;
    for k in kept {
        add_kept(k, &mut rest, &mut terms);
    }
    Ok(Reduction { rest, terms })
}

/// Adds a kept row where there is a one at its leading place.
fn add_kept(k: &Kept, rest: &mut Row, terms: &mut Row)
    requires leads { entry k.now.reduced k.now.lead ≡ true }
    requires rest { length rest.old ≡ length k.now.reduced }
    requires terms { length terms.old ≡ length k.now.terms }
    ensures rest { entry rest.new ≡ after (entry rest.old) k.now }
    ensures terms { entry terms.new ≡ plus (entry terms.old) (λ j. entry rest.old k.now.lead && entry k.now.terms j) }
    ensures rest_width { length rest.new ≡ length rest.old }
    ensures terms_width { length terms.new ≡ length terms.old }
{
    if rest.get(k.lead) {
        rest.add(&k.reduced);
        terms.add(&k.terms);
    }
}
