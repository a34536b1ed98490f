//! The cup-i product.
ghost use Rattle.std.specs.Prelude.{◌≡◌, ◌+◌, ◌-◌, ◌<◌, ◌≤◌, IfOk};
ghost use Rattle.homology.specs.Sets.{empty, set_of};
ghost use Rattle.homology.specs.Complexes.{IsComplex};
ghost use Rattle.products.specs.Products.{cup};
ghost use Rattle.cochain_values.specs.Cochains.{StandsOn};
ghost use Rattle.cochain_values.specs.Marks.{marked};
ghost use Rattle.cup_i.specs.Factors.{IsFactor};

use crate::by_members::{over_first, over_second};
use crate::factor::Factor;
use crate::pairs::by_pairs;
use crate::splitting::product_at;
use crate::way::{Way, cheapest};
use cochain_values::Cochain;
use complex_store::Complex;
use f2_chains::Chain;
use memory::Memory;

/// The cup-i product of two cochains, of the sum of their degrees less `i`; empty where `i` passes that sum, and then of
/// degree 0. `Err` is want of memory.
///
/// It is taken in the cheapest of three ways. Where the members are few, over those of one factor: with `i = 0` over those of the first by cofaces
/// with one more vertex behind, else by all cofaces, up to the degree of the product; on the way a step for each coface of each simplex that
/// is reached, which are put in order, and two marks for each id of the complex. Where the pairs of members are fewer: one walk for each
/// pair, a look-up where it passes, and a mark for each id. Else two marks for each id, and all simplices of the degree. Of each simplex
/// that is tried the splittings with `i + 1` shared vertices, of which one of dimension n has C(n + 1, i + 1), at most 1,716: one step for
/// each vertex that is left out on the way to a splitting whose faces have the two degrees, and no look-up. With `i = 0` there is just one,
/// with at most n steps. At once where there is no simplex of that degree, or `i` passes one of the two degrees.
/// Sources: N. E. Steenrod, Products of cocycles and extensions of mappings, 1947; A. M. Medina-Mardones, New formulas for cup-i
/// products and fast computation of Steenrod squares, 2023.
pub fn cup_i(k: &Complex, i: u8, a: &Cochain, b: &Cochain) -> Result<Cochain, Memory>
    requires first { StandsOn k.now a.now }
    requires second { StandsOn k.now b.now }
    requires first_degree { a.now.degree ≤ 99 }
    requires second_degree { b.now.degree ≤ 99 }
    ensures degree { IfOk result (λ c. c.degree ≡ a.now.degree + b.now.degree - i) }
    ensures product { IfOk result (λ c. set_of c.ids ≡ cup k.now i (set_of a.now.ids) (set_of b.now.ids)) }
    ensures stands { IfOk result (StandsOn k.now) }
{
    let support = product(k, i, a, b)?;
    let degree = (a.degree() + b.degree()).saturating_sub(i);
    let product = Cochain::from_ids(k, degree, &support)?;
    Ok(product)
}

/// The simplices at which the product is 1.
fn product(k: &Complex, i: u8, a: &Cochain, b: &Cochain) -> Result<Chain, Memory>
    requires first { StandsOn k.now a.now }
    requires second { StandsOn k.now b.now }
    requires first_degree { a.now.degree ≤ 99 }
    requires second_degree { b.now.degree ≤ 99 }
    ensures product { IfOk result (λ c. set_of c ≡ cup k.now i (set_of a.now.ids) (set_of b.now.ids)) }
    ensures complex { IsComplex k.now }
{
    let simplices = candidates(k, i, a, b);
    if simplices == 0 {
        return Ok(Chain::new(k.allocator()));
    }
    let way = cheapest(k, i, a, b, simplices);
    if let Way::Pairs = way {
        let ys = a.support().ids();
        let zs = b.support().ids();
        return by_pairs(k, i, ys, zs);
    }
    let first = Factor::new(k, a)?;
    let second = Factor::new(k, b)?;
    match way {
        Way::OverFirst => over_first(k, i, a, &first, &second),
        Way::OverSecond => over_second(k, i, b, &first, &second),
        _ => by_simplices(k, i, &first, &second),
    }
}

/// The number of simplices of the degree of the product, and 0 where the index passes one of the degrees. At once.
fn candidates(k: &Complex, i: u8, a: &Cochain, b: &Cochain) -> u32
    requires first { StandsOn k.now a.now }
    requires second { StandsOn k.now b.now }
    requires first_degree { a.now.degree ≤ 99 }
    requires second_degree { b.now.degree ≤ 99 }
    ensures none { result ≡ 0 → cup k.now i (set_of a.now.ids) (set_of b.now.ids) ≡ empty }
    ensures first_index { 0 < result → i ≤ a.now.degree }
    ensures second_index { 0 < result → i ≤ b.now.degree }
    ensures complex { IsComplex k.now }
{
    let p = a.degree();
    let q = b.degree();
    if k.len() == 0 || i > p || i > q {
        return 0;
    }
    k.count(p + q - i)
}

/// The product by simplices: those of its degree one after the other.
fn by_simplices(k: &Complex, i: u8, first: &Factor, second: &Factor) -> Result<Chain, Memory>
    requires first { IsFactor k.now first.now }
    requires second { IsFactor k.now second.now }
    requires first_index { i ≤ first.now.degree }
    requires second_index { i ≤ second.now.degree }
    requires small { first.now.degree + second.now.degree < 256 }
    ensures { IfOk result (λ c. set_of c ≡ cup k.now i (marked first.now.marks.items) (marked second.now.marks.items)) }
{
    let simplices = k.of_dimension(first.degree + second.degree - i);
    let mut support = Vec::new(k.allocator());
    for id in simplices.iter() {
        if product_at(k, i, first, second, *id) {
            support.push(*id)?;
        }
    }
    Chain::from_ascending(k.allocator(), &support)
}
