//! Steenrod squares.
ghost use Rattle.std.specs.Prelude.{◌≡◌, ◌+◌, ◌≤◌, None, IfOk, IfErr};
ghost use Rattle.homology.specs.Sets.{Ids, set_of};
ghost use Rattle.homology.specs.Chains.{AreCohomologous, IsCocycle};
ghost use Rattle.cohomology.specs.Searches.{first_broken};
ghost use Rattle.cohomology.specs.Classes.{class_of};
ghost use Rattle.products.specs.Products.{cup};
ghost use Rattle.cohomology_operations.specs.Squares.{square};
ghost use Rattle.cochain_values.specs.Cochains.{StandsOn};
ghost use Rattle.class_solver.specs.Refusals.{IsTestedCocycle, OpRefuses};

use crate::halved::halved;
use at_model::Model;
use class_cache::Cached;
use class_solver::{ClassWord, OpRefusal, require_cocycle};
use cochain_values::Cochain;
use cup_i::cup_i;
use f2_chains::Chain;
use memory::Memory;

/// Sq^k of a cochain of degree p: its product with itself of index p - k, of degree p + k. It is empty
/// where `k` exceeds p, and `a` itself for `k = 0`. `Err` is want of memory.
///
/// The time of that product; for `k = 0` that of the members. Source: N. E. Steenrod, Products of cocycles and extensions of mappings, 1947.
pub fn square_cochain(m: &Model, k: u8, a: &Cochain) -> Result<Cochain, Memory>
    requires stands { StandsOn m.now a.now }
    requires small { a.now.degree ≤ 99 }
    requires exponent { k ≤ 99 }
    ensures degree { IfOk result (λ c. c.degree ≡ a.now.degree + k) }
    ensures square { IfOk result (λ c. set_of c.ids ≡ square m.now k a.now.degree (set_of a.now.ids)) }
    ensures stands { IfOk result (StandsOn m.now) }
{
    let complex = m.complex();
    if k > a.degree() {
        let none = Chain::new(complex.allocator());
        let empty = Cochain::from_ids(complex, a.degree() + k, &none)?;
        return Ok(empty);
    }
    if k == 0 {
        let same = Cochain::from_ids(complex, a.degree(), a.support())?;
        return Ok(same);
    }
    let square = cup_i(complex, a.degree() - k, a, a)?;
    Ok(square)
}

/// The same of a cochain that is known to be a cocycle: Sq^1 is its Bockstein, which is found by faces. `Err` is want of memory.
///
/// The time of the product; for `k = 1` a step for each coface of each member and each face of these, and a mark for each id of the complex.
pub fn square_cochain_of_cocycle(m: &Model, k: u8, a: &Cochain) -> Result<Cochain, Memory>
    requires cocycle { IsCocycle m.now a.now.degree (set_of a.now.ids) }
    requires small { a.now.degree ≤ 99 }
    requires exponent { k ≤ 99 }
    ensures degree { IfOk result (λ c. c.degree ≡ a.now.degree + k) }
    ensures square { IfOk result (λ c. set_of c.ids ≡ square m.now k a.now.degree (set_of a.now.ids)) }
    ensures stands { IfOk result (StandsOn m.now) }
{
    if k != 1 {
        return square_cochain(m, k, a);
    }
    let complex = m.complex();
    let support = halved(complex, a)?;
    let cochain = Cochain::from_ids(complex, a.degree() + 1, &support)?;
    Ok(cochain)
}

/// Sq^k of the class of a cocycle: the class word of its square. It is the same for every choice of a
/// cocycle in the class.
///
/// `NotCocycle`: the coboundary of `a` is not empty, and this is the first simplex at which it is 1. `Memory`: none was left. The time
/// of a coboundary, of the square of the cochain and of a class word.
pub fn square(version: &Cached, k: u8, a: &Cochain) -> Result<ClassWord, OpRefusal>
    requires stands { StandsOn version.now a.now }
    requires small { a.now.degree ≤ 99 }
    requires exponent { k ≤ 99 }
    ensures tested { IfOk result (λ w. first_broken version.now (set_of a.now.ids) ≡ None) }
    ensures degree { IfOk result (λ w. w.degree ≡ a.now.degree + k) }
    ensures word { IfOk result (λ w. w.numbers.items ≡ class_of version.now (a.now.degree + k) (square version.now k a.now.degree (set_of a.now.ids))) }
    ensures every_choice { IfOk result (λ w. (c : Ids) → AreCohomologous version.now a.now.degree (set_of a.now.ids) c
        → w.numbers.items ≡ class_of version.now (a.now.degree + k) (square version.now k a.now.degree c)) }
    ensures identity { IfOk result (λ w. k ≡ 0 → w.numbers.items ≡ class_of version.now a.now.degree (set_of a.now.ids)) }
    ensures own_product { IfOk result (λ w. k ≡ a.now.degree
        → w.numbers.items ≡ class_of version.now (a.now.degree + a.now.degree) (cup version.now 0 (set_of a.now.ids) (set_of a.now.ids))) }
    ensures refused { IfErr result (OpRefuses version.now (set_of a.now.ids)) }
{
    require_cocycle(version.model(), a)?;
    let word = square_of_cocycle(version, k, a)?;
    Ok(word)
}

/// The same of a cochain that is known to be a cocycle. `Err` is want of memory. The time of the square of the cocycle and of a class word.
pub fn square_of_cocycle(version: &Cached, k: u8, a: &Cochain) -> Result<ClassWord, Memory>
    requires tested { IsTestedCocycle version.now a.now.degree (set_of a.now.ids) }
    requires small { a.now.degree ≤ 99 }
    requires exponent { k ≤ 99 }
    ensures degree { IfOk result (λ w. w.degree ≡ a.now.degree + k) }
    ensures word { IfOk result (λ w. w.numbers.items ≡ class_of version.now (a.now.degree + k) (square version.now k a.now.degree (set_of a.now.ids))) }
    ensures every_choice { IfOk result (λ w. (c : Ids) → AreCohomologous version.now a.now.degree (set_of a.now.ids) c
        → w.numbers.items ≡ class_of version.now (a.now.degree + k) (square version.now k a.now.degree c)) }
    ensures identity { IfOk result (λ w. k ≡ 0 → w.numbers.items ≡ class_of version.now a.now.degree (set_of a.now.ids)) }
    ensures own_product { IfOk result (λ w. k ≡ a.now.degree
        → w.numbers.items ≡ class_of version.now (a.now.degree + a.now.degree) (cup version.now 0 (set_of a.now.ids) (set_of a.now.ids))) }
{
    let _ = version.complex();
    let square = square_cochain_of_cocycle(version.model(), k, a)?;
    let word = version.coordinates_of_cocycle(&square)?;
    Ok(word)
}
