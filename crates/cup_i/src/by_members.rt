//! The product at the cofaces of the members of one factor.
ghost use Rattle.std.specs.Prelude.{◌≡◌, ℕ, ◌+◌, ◌≤◌, ◌<◌, true, length, IfOk};
ghost use Rattle.std.specs.List.{All};
ghost use Rattle.std.specs.List.Sorted.{IsStrictlyIncreasing};
ghost use Rattle.homology.specs.Sets.{set_of};
ghost use Rattle.homology.specs.Complexes.{simplex_at};
ghost use Rattle.products.specs.Products.{cup};
ghost use Rattle.cochain_values.specs.Cochains.{StandsOn};
ghost use Rattle.cochain_values.specs.Marks.{marked};
ghost use Rattle.cup_i.specs.Factors.{IsFactor};

use crate::above::above;
use crate::factor::Factor;
use crate::splitting::product_at;
use cochain_values::Cochain;
use complex_store::Complex;
use f2_chains::Chain;
use memory::Memory;

/// The product, sought over the members of the first factor: with index 0 its value at a simplex is 1 only where the first vertices
/// are those of a member, and else only where a face is one.
pub(crate) fn over_first(
    k: &Complex,
    i: u8,
    a: &Cochain,
    first: &Factor,
    second: &Factor,
) -> Result<Chain, Memory>
    requires first { IsFactor k.now first.now }
    requires second { IsFactor k.now second.now }
    requires first_index { i ≤ first.now.degree }
    requires second_index { i ≤ second.now.degree }
    requires small { first.now.degree + second.now.degree < 256 }
    requires stands { StandsOn k.now a.now }
    requires degree { a.now.degree ≡ first.now.degree }
    requires same { set_of a.now.ids ≡ marked first.now.marks.items }
    ensures { IfOk result (λ c. set_of c ≡ cup k.now i (marked first.now.marks.items) (marked second.now.marks.items)) }
{
    let ids = above(k, i == 0, a, second.degree - i)?;
    at_these(k, i, first, second, &ids)
}

/// The product, sought over the members of the second factor.
pub(crate) fn over_second(
    k: &Complex,
    i: u8,
    b: &Cochain,
    first: &Factor,
    second: &Factor,
) -> Result<Chain, Memory>
    requires first { IsFactor k.now first.now }
    requires second { IsFactor k.now second.now }
    requires first_index { i ≤ first.now.degree }
    requires second_index { i ≤ second.now.degree }
    requires small { first.now.degree + second.now.degree < 256 }
    requires stands { StandsOn k.now b.now }
    requires degree { b.now.degree ≡ second.now.degree }
    requires same { set_of b.now.ids ≡ marked second.now.marks.items }
    ensures { IfOk result (λ c. set_of c ≡ cup k.now i (marked first.now.marks.items) (marked second.now.marks.items)) }
{
    let ids = above(k, false, b, first.degree - i)?;
    at_these(k, i, first, second, &ids)
}

/// The product by some simplices of its degree, among which are all at which it is 1.
fn at_these(
    k: &Complex,
    i: u8,
    first: &Factor,
    second: &Factor,
    ids: &[u32],
) -> Result<Chain, Memory>
    requires first { IsFactor k.now first.now }
    requires second { IsFactor k.now second.now }
    requires first_index { i ≤ first.now.degree }
    requires second_index { i ≤ second.now.degree }
    requires ascending { IsStrictlyIncreasing ids.now }
    requires within { All (λ x. x < length k.now) ids.now }
    requires degree { All (λ x. length (simplex_at k.now x) + i ≡ first.now.degree + second.now.degree + 1) ids.now }
    requires all { (x : ℕ) → cup k.now i (marked first.now.marks.items) (marked second.now.marks.items) x ≡ true → set_of ids.now x ≡ true }
    ensures { IfOk result (λ c. set_of c ≡ cup k.now i (marked first.now.marks.items) (marked second.now.marks.items)) }
{
    let mut support = Vec::new(k.allocator());
    for id in ids {
        if product_at(k, i, first, second, *id) {
            support.push(*id)?;
        }
    }
    Chain::from_ascending(k.allocator(), &support)
}
