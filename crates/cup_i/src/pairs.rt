//! The product by pairs.
ghost use Rattle.std.specs.Prelude.{◌≡◌, ◌+◌, ◌<◌, length, IfOk, MatchOption};
ghost use Rattle.std.specs.List.{All};
ghost use Rattle.std.specs.List.Sorted.{IsStrictlyIncreasing};
ghost use Rattle.homology.specs.Complexes.{IsComplex, simplex_at};
ghost use Rattle.homology.specs.Sets.{empty, plus, set_of, single};
ghost use Rattle.homology.specs.ListSums.{sum_over};
ghost use Rattle.products.specs.Products.{cup};
ghost use Rattle.complex_store.specs.Limits.{AreNarrow};
ghost use Rattle.cochain_values.specs.Marks.{marked};
ghost use Rattle.cup_i.specs.Pairs.{pair_at, pair_of};

use crate::walk::passes;
use cochain_values::marks;
use complex_store::Complex;
use f2_chains::Chain;
use memory::Memory;
use simplex_order::Simplex;

/// The product of the cochains of these ids, by pairs of them.
pub(crate) fn by_pairs(k: &Complex, i: u8, ys: &[u32], zs: &[u32]) -> Result<Chain, Memory>
    requires first_ascend { IsStrictlyIncreasing ys.now }
    requires first_within { All (λ y. y < length k.now) ys.now }
    requires second_ascend { IsStrictlyIncreasing zs.now }
    requires second_within { All (λ z. z < length k.now) zs.now }
    ensures { IfOk result (λ c. set_of c ≡ cup k.now i (set_of ys.now) (set_of zs.now)) }
{
    let unmarked = marks::unmarked(k.allocator(), k.len())?;
    let sum = with_pairs(k, i, unmarked, ys, zs);
    marks::chain_of(k.allocator(), &sum)
}

/// The marks of the product, made of marks of which there is none.
fn with_pairs(k: &Complex, i: u8, mut sum: Vec<bool>, ys: &[u32], zs: &[u32]) -> Vec<bool>
    requires first_ascend { IsStrictlyIncreasing ys.now }
    requires first_within { All (λ y. y < length k.now) ys.now }
    requires second_ascend { IsStrictlyIncreasing zs.now }
    requires second_within { All (λ z. z < length k.now) zs.now }
    requires complex { IsComplex k.now }
    requires narrow { AreNarrow k.now }
    requires none { marked sum.items ≡ empty }
    requires fits { length sum.items ≡ length k.now }
    ensures set { marked result.items ≡ cup k.now i (set_of ys.now) (set_of zs.now) }
    ensures fits { length result.items ≡ length k.now }
{
    add_pairs(k, i, &mut sum, ys, zs);
    sum
}

/// Adds what the pairs of these simplices count at.
fn add_pairs(k: &Complex, i: u8, sum: &mut [bool], ys: &[u32], zs: &[u32])
    requires complex { IsComplex k.now }
    requires narrow { AreNarrow k.now }
    requires first_within { All (λ y. y < length k.now) ys.now }
    requires second_within { All (λ z. z < length k.now) zs.now }
    requires fits { length sum.old ≡ length k.now }
    ensures set { marked sum.new ≡ plus (marked sum.old) (sum_over ys.now (λ y. sum_over zs.now (pair_at k.now i y))) }
    ensures fits { length sum.new ≡ length sum.old }
{
    for y in ys {
        add_pairs_with(k, i, sum, *y, zs);
    }
}

/// Adds what the pairs of one simplex with these count at.
fn add_pairs_with(k: &Complex, i: u8, sum: &mut [bool], y: u32, zs: &[u32])
    requires complex { IsComplex k.now }
    requires narrow { AreNarrow k.now }
    requires first_within { y < length k.now }
    requires second_within { All (λ z. z < length k.now) zs.now }
    requires fits { length sum.old ≡ length k.now }
    ensures set { marked sum.new ≡ plus (marked sum.old) (sum_over zs.now (pair_at k.now i y)) }
    ensures fits { length sum.new ≡ length sum.old }
{
    for z in zs {
        if let Some(x) = meeting(k, i, y, *z) {
            marks::toggle(sum, x as usize);
        }
    }
}

/// The simplex at which a pair counts, if there is one: their union, where the walk passes. One look-up, and none where it does
/// not pass.
fn meeting(k: &Complex, i: u8, y: u32, z: u32) -> Option<u32>
    requires complex { IsComplex k.now }
    requires narrow { AreNarrow k.now }
    requires first { y < length k.now }
    requires second { z < length k.now }
    ensures { MatchOption result
        (pair_at k.now i y z ≡ empty)
        (λ x. (x < length k.now) × (pair_at k.now i y z ≡ single x)) }
{
    let (Some(first), Some(second)) = (k.simplex(y), k.simplex(z)) else {
        unreachable!()
    };
    let union = first.union(&second)?;
    let shared = usize::from(i) + 1;
    if !passes(
        shared,
        true,
        first.vertices(),
        second.vertices(),
        union.vertices(),
    ) {
        return None;
    }
    k.find(&union)
}
