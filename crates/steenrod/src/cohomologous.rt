//! Cocycles of one class, and bounds of the sums of results on them.
ghost use Rattle.std.specs.Prelude.{◌≡◌, ◌+◌, ◌-◌, ◌≤◌, [], Ok, OnOk, IfOk, IfErr, MatchOption};
ghost use Rattle.homology.specs.Sets.{plus, set_of};
ghost use Rattle.homology.specs.Chains.{AreCohomologous};
ghost use Rattle.cohomology.specs.Classes.{canonical_bound, class_of};
ghost use Rattle.products.specs.Products.{cup};
ghost use Rattle.cohomology_operations.specs.Squares.{square};
ghost use Rattle.cohomology_operations.specs.Bocksteins.{bockstein};
ghost use Rattle.cohomology_operations.specs.Cohomologous.{cohomologous};
ghost use Rattle.cochain_values.specs.Cochains.{StandsOn};
ghost use Rattle.class_solver.specs.Refusals.{IsTestedCocycle, IsFirstClass};
ghost use Rattle.steenrod.specs.Refusals.{ClassRefuses};

use crate::ClassRefusal;
use crate::squares::square_cochain;
use at_model::Model;
use class_solver::{bound_of_coboundary, first_class_of_cocycle};
use cochain_values::Cochain;
use cup_i::cup_i;
use memory::Memory;

/// That two cocycles are of one class.
///
/// `Degrees`: they have these different degrees. `Differs`: they have one degree, and this is the first essential simplex at which
/// their class words differ. `Memory`: none was left. The time of a class word.
pub fn require_cohomologous(m: &Model, a: &Cochain, b: &Cochain) -> Result<(), ClassRefusal>
    requires first { IsTestedCocycle m.now a.now.degree (set_of a.now.ids) }
    requires second { IsTestedCocycle m.now b.now.degree (set_of b.now.ids) }
    ensures cohomologous { OnOk result (cohomologous m.now (a.now.degree, set_of a.now.ids) (b.now.degree, set_of b.now.ids) ≡ Ok tt) }
    ensures refused { IfErr result (ClassRefuses m.now (cohomologous m.now (a.now.degree, set_of a.now.ids) (b.now.degree, set_of b.now.ids))) }
{
    if a.degree() != b.degree() {
        return Err(ClassRefusal::Degrees {
            first: a.degree(),
            second: b.degree(),
        });
    }
    match difference(m, a, b)? {
        Some(h) => Err(ClassRefusal::Differs(h)),
        None => Ok(()),
    }
}

/// The canonical bound of the sum of the products of `a` and `b` and of `a2` and `b2`, where `a` and `a2` are of one class, and `b`
/// and `b2`. `Err` is want of memory. The time of the two products, and one pass over the model.
pub fn bound_of_products(
    m: &Model,
    a: &Cochain,
    a2: &Cochain,
    b: &Cochain,
    b2: &Cochain,
) -> Result<Cochain, Memory>
    requires first { IsTestedCocycle m.now a.now.degree (set_of a.now.ids) }
    requires first_other { IsTestedCocycle m.now a2.now.degree (set_of a2.now.ids) }
    requires second { IsTestedCocycle m.now b.now.degree (set_of b.now.ids) }
    requires second_other { IsTestedCocycle m.now b2.now.degree (set_of b2.now.ids) }
    requires first_degree { a.now.degree ≤ 99 }
    requires second_degree { b.now.degree ≤ 99 }
    requires first_cohomologous { cohomologous m.now (a.now.degree, set_of a.now.ids) (a2.now.degree, set_of a2.now.ids) ≡ Ok tt }
    requires second_cohomologous { cohomologous m.now (b.now.degree, set_of b.now.ids) (b2.now.degree, set_of b2.now.ids) ≡ Ok tt }
    ensures degree { IfOk result (λ u. u.degree ≡ a.now.degree + b.now.degree - 1) }
    ensures bound { IfOk result (λ u. set_of u.ids ≡ set_of (canonical_bound m.now (a.now.degree + b.now.degree)
        (plus (cup m.now 0 (set_of a.now.ids) (set_of b.now.ids)) (cup m.now 0 (set_of a2.now.ids) (set_of b2.now.ids))))) }
    ensures stands { IfOk result (StandsOn m.now) }
{
    let complex = m.complex();
    let one = cup_i(complex, 0, a, b)?;
    let other = cup_i(complex, 0, a2, b2)?;
    let bound = bound_of_sum(m, &one, &other)?;
    Ok(bound)
}

/// The canonical bound of the sum of Sq^k of two cocycles of one class. `Err` is want of memory. The time
/// of the two squares, and one pass over the model.
pub fn bound_of_squares(m: &Model, k: u8, a: &Cochain, a2: &Cochain) -> Result<Cochain, Memory>
    requires first { IsTestedCocycle m.now a.now.degree (set_of a.now.ids) }
    requires second { IsTestedCocycle m.now a2.now.degree (set_of a2.now.ids) }
    requires small { a.now.degree ≤ 99 }
    requires exponent { k ≤ 99 }
    requires cohomologous { cohomologous m.now (a.now.degree, set_of a.now.ids) (a2.now.degree, set_of a2.now.ids) ≡ Ok tt }
    ensures degree { IfOk result (λ u. u.degree ≡ a.now.degree + k - 1) }
    ensures bound { IfOk result (λ u. set_of u.ids ≡ set_of (canonical_bound m.now (a.now.degree + k)
        (plus (square m.now k a.now.degree (set_of a.now.ids)) (square m.now k a.now.degree (set_of a2.now.ids))))) }
    ensures stands { IfOk result (StandsOn m.now) }
{
    let _ = m.complex();
    let one = square_cochain(m, k, a)?;
    let other = square_cochain(m, k, a2)?;
    let bound = bound_of_sum(m, &one, &other)?;
    Ok(bound)
}

/// The canonical bound of the sum of the Bocksteins of two cocycles of one class. `Err` is want of memory. The time of their squares
/// with exponent 1, and one pass over the model.
pub fn bound_of_bocksteins(m: &Model, a: &Cochain, a2: &Cochain) -> Result<Cochain, Memory>
    requires first { IsTestedCocycle m.now a.now.degree (set_of a.now.ids) }
    requires second { IsTestedCocycle m.now a2.now.degree (set_of a2.now.ids) }
    requires small { a.now.degree ≤ 99 }
    requires cohomologous { cohomologous m.now (a.now.degree, set_of a.now.ids) (a2.now.degree, set_of a2.now.ids) ≡ Ok tt }
    ensures degree { IfOk result (λ u. u.degree ≡ a.now.degree) }
    ensures bound { IfOk result (λ u. set_of u.ids ≡ set_of (canonical_bound m.now (a.now.degree + 1)
        (plus (bockstein m.now (set_of a.now.ids)) (bockstein m.now (set_of a2.now.ids))))) }
    ensures stands { IfOk result (StandsOn m.now) }
{
    let _ = m.complex();
    let bound = bound_of_squares(m, 1, a, a2)?;
    Ok(bound)
}

/// The first essential simplex at which the class words of two cocycles of one degree differ; `None` exactly where they are of one
/// class.
fn difference(m: &Model, a: &Cochain, b: &Cochain) -> Result<Option<u32>, Memory>
    requires first { IsTestedCocycle m.now a.now.degree (set_of a.now.ids) }
    requires second { IsTestedCocycle m.now b.now.degree (set_of b.now.ids) }
    requires degrees { a.now.degree ≡ b.now.degree }
    ensures { IfOk result (λ first. MatchOption first
        (class_of m.now a.now.degree (plus (set_of a.now.ids) (set_of b.now.ids)) ≡ [])
        (IsFirstClass m.now a.now.degree (plus (set_of a.now.ids) (set_of b.now.ids)))) }
{
    let sum = a.sum(b)?;
    let first = first_class_of_cocycle(m, &sum)?;
    Ok(first)
}

/// The canonical bound of the sum of two cohomologous cocycles.
fn bound_of_sum(m: &Model, a: &Cochain, b: &Cochain) -> Result<Cochain, Memory>
    requires degrees { a.now.degree ≡ b.now.degree }
    requires cohomologous { AreCohomologous m.now a.now.degree (set_of a.now.ids) (set_of b.now.ids) }
    ensures degree { IfOk result (λ u. u.degree ≡ a.now.degree - 1) }
    ensures bound { IfOk result (λ u. set_of u.ids ≡ set_of (canonical_bound m.now a.now.degree (plus (set_of a.now.ids) (set_of b.now.ids)))) }
    ensures stands { IfOk result (StandsOn m.now) }
{
    let _ = m.complex();
    let sum = a.sum(b)?;
    let bound = bound_of_coboundary(m, &sum)?;
    Ok(bound)
}
