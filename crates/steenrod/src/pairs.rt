//! The product of classes.
ghost use Rattle.std.specs.Prelude.{◌≡◌, ◌+◌, ◌≤◌, None, IfOk, IfErr};
ghost use Rattle.homology.specs.Sets.{Ids, set_of};
ghost use Rattle.homology.specs.Chains.{AreCohomologous};
ghost use Rattle.cohomology.specs.Searches.{first_broken};
ghost use Rattle.cohomology.specs.Classes.{class_of};
ghost use Rattle.products.specs.Products.{cup};
ghost use Rattle.cochain_values.specs.Cochains.{StandsOn};
ghost use Rattle.class_solver.specs.Refusals.{IsTestedCocycle, OpRefuses};
ghost use Rattle.steenrod.specs.Refusals.{PairRefuses};

use class_cache::Cached;
use class_solver::{ClassWord, OpRefusal, require_cocycle};
use cochain_values::Cochain;
use cup_i::cup_i;
use memory::Memory;

/// The product of the classes of two cocycles: the class word of their product with index 0, of the sum of their degrees. It is the
/// same for every choice of cocycles in the two classes.
///
/// `NotCocycle`: the coboundary of `a`, or where `a` is a cocycle that of `b`, is not empty, and this is the first simplex at which
/// it is 1. `Memory`: none was left. The time of two coboundaries, of the product of the two cochains and of a class word.
/// Source: N. E. Steenrod, Products of cocycles and extensions of mappings, 1947.
pub fn product(version: &Cached, a: &Cochain, b: &Cochain) -> Result<ClassWord, OpRefusal>
    requires first { StandsOn version.now a.now }
    requires second { StandsOn version.now b.now }
    requires first_degree { a.now.degree ≤ 99 }
    requires second_degree { b.now.degree ≤ 99 }
    ensures first_closed { IfOk result (λ w. first_broken version.now (set_of a.now.ids) ≡ None) }
    ensures second_closed { IfOk result (λ w. first_broken version.now (set_of b.now.ids) ≡ None) }
    ensures degree { IfOk result (λ w. w.degree ≡ a.now.degree + b.now.degree) }
    ensures word { IfOk result (λ w. w.numbers.items ≡ class_of version.now (a.now.degree + b.now.degree) (cup version.now 0 (set_of a.now.ids) (set_of b.now.ids))) }
    ensures every_choice { IfOk result (λ w. (c d : Ids)
        → AreCohomologous version.now a.now.degree (set_of a.now.ids) c → AreCohomologous version.now b.now.degree (set_of b.now.ids) d
        → w.numbers.items ≡ class_of version.now (a.now.degree + b.now.degree) (cup version.now 0 c d)) }
    ensures refused { IfErr result (PairRefuses version.now (set_of a.now.ids) (set_of b.now.ids)) }
{
    require_cocycle(version.model(), a)?;
    require_cocycle(version.model(), b)?;
    let word = product_of_cocycles(version, a, b)?;
    Ok(word)
}

/// The same of cochains that are known to be cocycles. `Err` is want of memory. The time of the product of the two cochains and of a class
/// word.
pub fn product_of_cocycles(version: &Cached, a: &Cochain, b: &Cochain) -> Result<ClassWord, Memory>
    requires first { IsTestedCocycle version.now a.now.degree (set_of a.now.ids) }
    requires second { IsTestedCocycle version.now b.now.degree (set_of b.now.ids) }
    requires first_degree { a.now.degree ≤ 99 }
    requires second_degree { b.now.degree ≤ 99 }
    ensures degree { IfOk result (λ w. w.degree ≡ a.now.degree + b.now.degree) }
    ensures word { IfOk result (λ w. w.numbers.items ≡ class_of version.now (a.now.degree + b.now.degree) (cup version.now 0 (set_of a.now.ids) (set_of b.now.ids))) }
    ensures every_choice { IfOk result (λ w. (c d : Ids)
        → AreCohomologous version.now a.now.degree (set_of a.now.ids) c → AreCohomologous version.now b.now.degree (set_of b.now.ids) d
        → w.numbers.items ≡ class_of version.now (a.now.degree + b.now.degree) (cup version.now 0 c d)) }
{
    let k = version.complex();
    let product = cup_i(k, 0, a, b)?;
    let word = version.coordinates_of_cocycle(&product)?;
    Ok(word)
}
