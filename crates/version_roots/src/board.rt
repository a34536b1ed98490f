//! What a caller sees of a line that others may change too.
ghost use Rattle.std.specs.Prelude.{◌≡◌, ◌<◌, length, position, Some, IfOk, IfErr, IsSome, IsOk, MatchResult};
ghost use Rattle.std.specs.Borrow.{sem};
ghost use Rattle.homology.specs.Simplices.{same_list};
ghost use Rattle.lines.specs.Lines.{IsLegal, callers, simplices};
ghost use Rattle.lines.specs.Changes.{last};
ghost use Rattle.lines.specs.Changes as change;
ghost use Rattle.version_roots.specs.Judged.{IsBackReceipt, IsCutReceipt, IsReceipt, back_refusal_of, cut_refusal_of, refusal_of};
ghost use Rattle.version_roots.specs.Boards.{Declines, Done, Looks, Sight};
ghost use Rattle.version_roots.specs.Looking.{Rests};

use crate::{BackReceipt, BackRefusal, BoardRefusal, CutReceipt, CutRefusal, Receipt, Root};
use memory::Memory;
use simplex_order::Simplex;

/// A caller's place at a line.
///
/// It has shown a part of the line, from its first entry on, which only grows. A change is judged on the whole line, which the
/// caller then sees: where the change comes in, up to the last of its entries.
pub trait Board {
    /// What a change may have to wait with.
    type Waiter;

    ghost sight: { Self → Sight };

    /// The caller whose turn it is.
    fn caller(&self) -> u8
        ensures value { result ≡ (sight self.now).caller }
        ensures small { result < callers };

    /// The length of the line that was shown.
    fn seen(&self) -> u32
        ensures value { result ≡ length (sight self.now).line }
        ensures legal { IsLegal (sight self.now).line };

    /// A look at the line. `Err` is want of memory, and never comes where the board tells its whole line.
    fn look(&mut self) -> Result<&Root, Memory>
        ensures* rests { sem 𝓛 (Rests Self.row self.entry (λ b. MatchResult result
            (λ root. Looks (sight self.old) (sight b) × (root.now ≡ (sight b).line))
            (λ _. sight b ≡ sight self.old))) }
        ensures told { IsSome (sight self.old).whole → IsOk result };

    /// Attaches a simplex, or refuses it as [`Book::attach`](crate::Book::attach) does.
    fn attach(&mut self, wait: &Self::Waiter, simplex: Simplex) -> Result<Receipt, BoardRefusal>
        ensures done { IfOk result (λ r. Done (sight self.old) (change.Attach simplex) (sight self.new)
            (λ J. IsReceipt J (sight self.new).line r × (r.id ≡ length (simplices J)))) }
        ensures declined { IfErr result (λ r. Declines (sight self.old) (change.Attach simplex) (sight self.new) (refusal_of r)) };

    /// Attaches what facets add, or refuses them as [`Book::facet`](crate::Book::facet) does.
    fn facet(&mut self, wait: &Self::Waiter, facets: &[Simplex]) -> Result<Receipt, BoardRefusal>
        requires { 0 < length facets.now }
        ensures done { IfOk result (λ r. Done (sight self.old) (change.Facet facets.now) (sight self.new)
            (λ J. IsReceipt J (sight self.new).line r
            × (position (same_list (last facets.now)) (simplices (sight self.new).line) ≡ Some r.id))) }
        ensures declined { IfErr result (λ r. Declines (sight self.old) (change.Facet facets.now) (sight self.new) (refusal_of r)) };

    /// Makes the line's simplices a version, or refuses to as [`Book::cut`](crate::Book::cut) does.
    fn cut(&mut self, wait: &Self::Waiter) -> Result<CutReceipt, CutRefusal>
        ensures done { IfOk result (λ r. Done (sight self.old) change.Cut (sight self.new)
            (λ _. IsCutReceipt (sight self.new).line r)) }
        ensures declined { IfErr result (λ r. Declines (sight self.old) change.Cut (sight self.new) (cut_refusal_of r)) };

    /// Makes the line's simplices those of a version again, or refuses to as [`Book::back`](crate::Book::back) does.
    fn back(&mut self, wait: &Self::Waiter, version: u32) -> Result<BackReceipt, BackRefusal>
        ensures done { IfOk result (λ r. Done (sight self.old) (change.Back version) (sight self.new)
            (λ _. IsBackReceipt (sight self.new).line version r)) }
        ensures declined { IfErr result (λ r. Declines (sight self.old) (change.Back version) (sight self.new) (back_refusal_of r)) };
}
