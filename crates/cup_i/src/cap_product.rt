//! The cap product.
ghost use Rattle.std.specs.Prelude.{◌≡◌, ◌+◌, ◌-◌, ◌<◌, ◌≤◌, true, false, length, take, drop, IfOk, IfErr, MatchOption};
ghost use Rattle.std.specs.List.{All};
ghost use Rattle.homology.specs.Sets.{plus, set_of};
ghost use Rattle.homology.specs.ListSums.{sum_over};
ghost use Rattle.homology.specs.Complexes.{simplex_at};
ghost use Rattle.homology.specs.Chains.{IsChain};
ghost use Rattle.products.specs.Products.{value_at};
ghost use Rattle.products.specs.Caps.{cap};
ghost use Rattle.cochain_values.specs.Cochains.{StandsOn};
ghost use Rattle.cochain_values.specs.Marks.{marked};
ghost use Rattle.cup_i.specs.Backs.{back_of};
ghost use Rattle.cup_i.specs.Factors.{IsFactor};
ghost use Rattle.cup_i.specs.Refusals.{CapRefuses};

use crate::CapRefusal;
use crate::factor::Factor;
use cochain_values::{Cochain, marks};
use complex_store::{Complex, faces};
use f2_chains::Chain;

/// The cap product of a cochain and a chain of degree `dim`: for each member of the chain with the value 1 of the cochain at its
/// front face, the back face. Its degree is `dim` less that of the cochain.
///
/// `Degrees`: the degree of the cochain exceeds `dim`. `Memory`: none was left. Two marks for each id of the complex; for each
/// member of the chain one step for each vertex that the front face leaves out, and where the value there is 1, for each that the
/// back face leaves out. No look-up.
pub fn cap(k: &Complex, a: &Cochain, c: &Chain, dim: u8) -> Result<Chain, CapRefusal>
    requires stands { StandsOn k.now a.now }
    requires small { a.now.degree ≤ 254 }
    requires chain { IsChain k.now dim (set_of c.now) }
    ensures degrees { IfOk result (λ z. a.now.degree ≤ dim) }
    ensures product { IfOk result (λ z. set_of z ≡ cap k.now a.now.degree (set_of a.now.ids) (set_of c.now)) }
    ensures chain { IfOk result (λ z. IsChain k.now (dim - a.now.degree) (set_of z)) }
    ensures refused { IfErr result (CapRefuses a.now.degree dim) }
{
    if a.degree() > dim {
        return Err(CapRefusal::Degrees {
            cochain: a.degree(),
            chain: dim,
        });
    }
    let factor = Factor::new(k, a)?;
    let mut sum = marks::unmarked(k.allocator(), k.len())?;
    add_backs(k, &factor, &mut sum, c.ids());
    let product = marks::chain_of(k.allocator(), &sum)?;
    Ok(product)
}

/// Adds, of each of these simplices with the value 1 at its front face, the back face to the marked ones.
fn add_backs(k: &Complex, factor: &Factor, sum: &mut [bool], ids: &[u32])
    requires factor { IsFactor k.now factor.now }
    requires within { All (λ id. id < length k.now) ids.now }
    requires wide { All (λ id. factor.now.degree < length (simplex_at k.now id)) ids.now }
    requires fits { length sum.old ≡ length k.now }
    ensures set { marked sum.new ≡ plus (marked sum.old)
        (sum_over ids.now (back_of k.now factor.now.degree (marked factor.now.marks.items))) }
    ensures fits { length sum.new ≡ length sum.old }
{
    for id in ids {
        if let Some(back) = back_face(k, factor, *id) {
            marks::toggle(sum, back as usize);
        }
    }
}

/// The back face of a simplex, where the value at its front face is 1. The two faces share one vertex.
fn back_face(k: &Complex, factor: &Factor, id: u32) -> Option<u32>
    requires factor { IsFactor k.now factor.now }
    requires there { id < length k.now }
    requires wide { factor.now.degree < length (simplex_at k.now id) }
    ensures { MatchOption result
        (value_at k.now (marked factor.now.marks.items) (take (factor.now.degree + 1) (simplex_at k.now id)) ≡ false)
        (λ back. (value_at k.now (marked factor.now.marks.items) (take (factor.now.degree + 1) (simplex_at k.now id)) ≡ true)
        × (back < length k.now) × (simplex_at k.now back ≡ drop factor.now.degree (simplex_at k.now id))) }
{
    let last = k.vertices(id).len() - factor.width();
    if !factor.at(faces::front(k, id, last)) {
        return None;
    }
    Some(faces::back(k, id, factor.width() - 1))
}
