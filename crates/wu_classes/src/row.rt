//! The row of a class in the pairing.
ghost use Rattle.std.specs.Prelude.{◌≡◌, ℕ, ◌-◌, ◌<◌, ◌≤◌, ◌∷◌, [], length, slice_index, IfOk};
ghost use Rattle.simplex_order.specs.declared.limits.TheConstants.{MOST_VERTICES};
ghost use Rattle.homology.specs.Sets.{set_of};
ghost use Rattle.homology.specs.Chains.{IsChain};
ghost use Rattle.homology.specs.Growth.{capacity};
ghost use Rattle.homology.specs.Kinds.{betti, ids};
ghost use Rattle.cohomology.specs.Classes.{essentials};
ghost use Rattle.products.specs.Caps.{cap};
ghost use Rattle.manifolds.specs.Closed.{top};
ghost use Rattle.characteristic_classes.specs.Pairings.{row};
ghost use Rattle.cochain_values.specs.Cochains.{StandsOn};
ghost use Rattle.elimination.specs.Rows.{entry};

use crate::cocycle::cocycle;
use crate::kept_values::kept_values;
use crate::point_rows::row_of_points;
use class_cache::Cached;
use cochain_values::Cochain;
use cup_i::{CapRefusal, cap};
use elimination::Row;
use f2_chains::Chain;
use memory::Memory;
use std::alloc::Global;

/// The row of the class with this number of degree `p`, by the cap product of its canonical cocycle and the sum of all simplices of the
/// dimension `n`: the values there of the canonical cocycles of degree `n` - `p` where all of these are kept, else f of it, read at the
/// essential simplices of that degree. One cap product, and where the cocycles are not kept one pass over the model and one reduction. `Err`
/// is want of memory.
pub(crate) fn row_of_class(
    m: &Cached,
    whole: &Chain,
    n: u8,
    p: u8,
    number: u32,
    essential: &[u32],
) -> Result<Row, Memory>
    requires dimension { top m.now ≡ n }
    requires small { n < MOST_VERTICES }
    requires degree { p ≤ n }
    requires number { number < betti m.now p }
    requires whole { set_of whole.now ≡ set_of (ids m.now n) }
    requires chain { IsChain m.now n (set_of whole.now) }
    requires essential { essential.now ≡ essentials m.now (n - p) }
    ensures width { IfOk result (λ r. length r ≡ betti m.now (n - p)) }
    ensures row { IfOk result (λ r. r ≡ row m.now p number) }
{
    let complex = m.complex();
    let _ = complex.len();
    if p == 0
        && let Some(row) = row_of_points(m, n, number)?
    {
        return Ok(row);
    }
    let class = cocycle(m, p, &[number])?;
    let cap = capped(m, &class, whole, n)?;
    if let Some(row) = kept_values(m, n - p, &cap)? {
        return Ok(row);
    }
    let f = m.f_of_chain(&cap)?;
    let row = read_at(complex.allocator(), &f, essential)?;
    Ok(row)
}

/// The cap product of a cochain and a chain of at least its degree. `Err` is want of memory.
fn capped(m: &Cached, a: &Cochain, c: &Chain, n: u8) -> Result<Chain, Memory>
    requires stands { StandsOn m.now a.now }
    requires degrees { a.now.degree ≤ n }
    requires small { n < MOST_VERTICES }
    requires chain { IsChain m.now n (set_of c.now) }
    ensures product { IfOk result (λ z. set_of z ≡ cap m.now a.now.degree (set_of a.now.ids) (set_of c.now)) }
    ensures chain { IfOk result (λ z. IsChain m.now (n - a.now.degree) (set_of z)) }
{
    match cap(m.complex(), a, c, n) {
        Ok(z) => Ok(z),
        Err(CapRefusal::Degrees { .. }) => unreachable!(),
        Err(CapRefusal::Memory) => Err(Memory),
    }
}

/// Whether each of these simplices is a member of the chain. `Err` is want of memory.
fn read_at(alloc: Global, chain: &Chain, simplices: &[u32]) -> Result<Row, Memory>
    requires { length simplices.now ≤ capacity }
    ensures width { IfOk result (λ r. length r ≡ length simplices.now) }
    ensures entries { IfOk result (λ r. (k : ℕ) → k < length simplices.now → entry r k ≡ set_of chain.now (slice_index simplices.now k)) }
{
    let mut row = Row::zeros(alloc, simplices.len() as u32)?;
    for k in 0..simplices.len() {
        if has(chain, simplices[k]) {
            row.set(k as u32);
        }
    }
    Ok(row)
}

/// Whether a simplex is a member. One binary search.
pub(crate) fn has(chain: &Chain, id: u32) -> bool
    ensures { result ≡ set_of chain.now id }
{
    chain.ids().binary_search(&id).is_ok()
}
