//! Bounds of the differences of two results on cocycles of one class.
ghost use Rattle.std.specs.Prelude.{◌≡◌, ◌+◌, ◌-◌, ◌<◌, ◌≤◌, List, [], ◌∷◌, length, Result, Ok, OnOk, IfOk, IfErr};
ghost use Rattle.homology.specs.Sets.{Ids, plus, set_of};
ghost use Rattle.cohomology.specs.Classes.{canonical_bound};
ghost use Rattle.products.specs.Products.{cup};
ghost use Rattle.cohomology_operations.specs.Squares.{square};
ghost use Rattle.cohomology_operations.specs.Bocksteins.{bockstein};
ghost use Rattle.cohomology_operations.specs.Cohomologous.{NotCohomologous, cohomologous};
ghost use Rattle.cochain_values.specs.Cochains.{StandsOn};
ghost use Rattle.class_solver.specs.Refusals.{IsTestedCocycle};
ghost use Rattle.steenrod.specs.Refusals.{then, cochain_at, AreTestedBelow, AreTestedCocycles, SameRefuses};

use crate::SameRefusal;
use crate::cohomologous::{
    bound_of_bocksteins, bound_of_products, bound_of_squares, require_cohomologous,
};
use at_model::Model;
use class_solver::{OpRefusal, require_cocycle};
use cochain_values::Cochain;

/// The canonical bound of the sum of two products, of `a` and `b` and of `a2` and `b2`, where `a` and `a2` are cocycles of one class,
/// and `b` and `b2`.
///
/// `NotCocycle`: which of `a`, `a2`, `b`, `b2` is the first that is no cocycle, and the first simplex at which its coboundary is 1.
/// `Degrees`, `Differs`: why `a` and `a2` are not of one class, or where they are, why `b` and `b2` are not. `Memory`: none was left.
/// The time of four coboundaries, of two class words and two products, and one pass over the model.
pub fn same_cup(
    m: &Model,
    a: &Cochain,
    a2: &Cochain,
    b: &Cochain,
    b2: &Cochain,
) -> Result<Cochain, SameRefusal>
    requires stands { StandsOn m.now a.now × StandsOn m.now a2.now × StandsOn m.now b.now × StandsOn m.now b2.now }
    requires degrees { (a.now.degree ≤ 99) × (a2.now.degree ≤ 99) × (b.now.degree ≤ 99) × (b2.now.degree ≤ 99) }
    ensures tested { IfOk result (λ u. AreTestedCocycles m.now (set_of a.now.ids ∷ set_of a2.now.ids ∷ set_of b.now.ids ∷ set_of b2.now.ids ∷ [])) }
    ensures cohomologous { IfOk result (λ u. then (cohomologous m.now (a.now.degree, set_of a.now.ids) (a2.now.degree, set_of a2.now.ids))
        (cohomologous m.now (b.now.degree, set_of b.now.ids) (b2.now.degree, set_of b2.now.ids)) ≡ Ok tt) }
    ensures degree { IfOk result (λ u. u.degree ≡ a.now.degree + b.now.degree - 1) }
    ensures bound { IfOk result (λ u. set_of u.ids ≡ set_of (canonical_bound m.now (a.now.degree + b.now.degree)
        (plus (cup m.now 0 (set_of a.now.ids) (set_of b.now.ids)) (cup m.now 0 (set_of a2.now.ids) (set_of b2.now.ids))))) }
    ensures stands { IfOk result (StandsOn m.now) }
    ensures refused { IfErr result (SameRefuses m.now (set_of a.now.ids ∷ set_of a2.now.ids ∷ set_of b.now.ids ∷ set_of b2.now.ids ∷ [])
        (then (cohomologous m.now (a.now.degree, set_of a.now.ids) (a2.now.degree, set_of a2.now.ids))
        (cohomologous m.now (b.now.degree, set_of b.now.ids) (b2.now.degree, set_of b2.now.ids)))) }
{
    require(m, 0, a)?;
    require(m, 1, a2)?;
    require(m, 2, b)?;
    require(m, 3, b2)?;
    require_cohomologous(m, a, a2)?;
    require_cohomologous(m, b, b2)?;
    let bound = bound_of_products(m, a, a2, b, b2)?;
    Ok(bound)
}

/// The canonical bound of the sum of Sq^k of two cocycles of one class.
///
/// `NotCocycle`: which of `a` and `a2` is the first that is no cocycle, and the first simplex at which its coboundary is 1. `Degrees`,
/// `Differs`: why they are not of one class. `Memory`: none was left. The time of two coboundaries, of a class word and two squares,
/// and one pass over the model.
pub fn same_square(m: &Model, k: u8, a: &Cochain, a2: &Cochain) -> Result<Cochain, SameRefusal>
    requires stands { StandsOn m.now a.now × StandsOn m.now a2.now }
    requires degrees { (a.now.degree ≤ 99) × (a2.now.degree ≤ 99) }
    requires exponent { k ≤ 99 }
    ensures tested { IfOk result (λ u. AreTestedCocycles m.now (set_of a.now.ids ∷ set_of a2.now.ids ∷ [])) }
    ensures cohomologous { IfOk result (λ u. cohomologous m.now (a.now.degree, set_of a.now.ids) (a2.now.degree, set_of a2.now.ids) ≡ Ok tt) }
    ensures degree { IfOk result (λ u. u.degree ≡ a.now.degree + k - 1) }
    ensures bound { IfOk result (λ u. set_of u.ids ≡ set_of (canonical_bound m.now (a.now.degree + k)
        (plus (square m.now k a.now.degree (set_of a.now.ids)) (square m.now k a.now.degree (set_of a2.now.ids))))) }
    ensures stands { IfOk result (StandsOn m.now) }
    ensures refused { IfErr result (SameRefuses m.now (set_of a.now.ids ∷ set_of a2.now.ids ∷ [])
        (cohomologous m.now (a.now.degree, set_of a.now.ids) (a2.now.degree, set_of a2.now.ids))) }
{
    require(m, 0, a)?;
    require(m, 1, a2)?;
    require_cohomologous(m, a, a2)?;
    let bound = bound_of_squares(m, k, a, a2)?;
    Ok(bound)
}

/// The canonical bound of the sum of the Bocksteins of two cocycles of one class.
///
/// `NotCocycle`: which of `a` and `a2` is the first that is no cocycle, and the first simplex at which its coboundary is 1. `Degrees`,
/// `Differs`: why they are not of one class. `Memory`: none was left. The time of two coboundaries, of a class word and two squares,
/// and one pass over the model.
pub fn same_bockstein(m: &Model, a: &Cochain, a2: &Cochain) -> Result<Cochain, SameRefusal>
    requires stands { StandsOn m.now a.now × StandsOn m.now a2.now }
    requires degrees { (a.now.degree ≤ 99) × (a2.now.degree ≤ 99) }
    ensures tested { IfOk result (λ u. AreTestedCocycles m.now (set_of a.now.ids ∷ set_of a2.now.ids ∷ [])) }
    ensures cohomologous { IfOk result (λ u. cohomologous m.now (a.now.degree, set_of a.now.ids) (a2.now.degree, set_of a2.now.ids) ≡ Ok tt) }
    ensures degree { IfOk result (λ u. u.degree ≡ a.now.degree) }
    ensures bound { IfOk result (λ u. set_of u.ids ≡ set_of (canonical_bound m.now (a.now.degree + 1)
        (plus (bockstein m.now (set_of a.now.ids)) (bockstein m.now (set_of a2.now.ids))))) }
    ensures stands { IfOk result (StandsOn m.now) }
    ensures refused { IfErr result (SameRefuses m.now (set_of a.now.ids ∷ set_of a2.now.ids ∷ [])
        (cohomologous m.now (a.now.degree, set_of a.now.ids) (a2.now.degree, set_of a2.now.ids))) }
{
    require(m, 0, a)?;
    require(m, 1, a2)?;
    require_cohomologous(m, a, a2)?;
    let bound = bound_of_bocksteins(m, a, a2)?;
    Ok(bound)
}

/// That a cochain is a cocycle, with its place in the order of the parameters, from 0.
fn require(m: &Model, which: u8, a: &Cochain) -> Result<(), SameRefusal>
    requires stands { StandsOn m.now a.now }
    requires small { a.now.degree ≤ 99 }
    ensures tested { OnOk result (IsTestedCocycle m.now a.now.degree (set_of a.now.ids)) }
    ensures refused { IfErr result (λ r. (cs : List Ids) (v : Result (Unit {0}) NotCohomologous) → which < length cs → cochain_at cs which ≡ set_of a.now.ids
        → AreTestedBelow m.now cs which → SameRefuses m.now cs v r) }
{
    match require_cocycle(m, a) {
        Ok(()) => Ok(()),
        Err(OpRefusal::NotCocycle(at)) => Err(SameRefusal::NotCocycle { which, at }),
        Err(OpRefusal::Memory) => Err(SameRefusal::Memory),
    }
}
