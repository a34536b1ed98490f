//! Stiefel-Whitney numbers.
ghost use Rattle.std.specs.Prelude.{◌≡◌, ◌<◌, ◌≤◌, Ok, length, sum, IfOk, IfErr};
ghost use Rattle.std.specs.List.{All};
ghost use Rattle.simplex_order.specs.declared.limits.TheConstants.{MOST_VERTICES};
ghost use Rattle.homology.specs.Sets.{set_of};
ghost use Rattle.characteristic_classes.specs.Pairings.{on_top};
ghost use Rattle.characteristic_classes.specs.WuClasses.{product, stiefel_whitney_number, whitney_class};
ghost use Rattle.cochain_values.specs.Cochains.{StandsOn};
ghost use Rattle.wu_classes.specs.Duals.{AreCocycles, IsDual};
ghost use Rattle.wu_classes.specs.Refusals.{NumberRefuses};

use crate::NumberRefusal;
use crate::dual::{Dual, pair_classes};
use crate::top::on_top;
use crate::whitney::{whitney_cocycles, wu_cocycles};
use class_cache::Cached;
use cochain_values::Cochain;
use cup_i::cup_i;
use memory::Memory;

/// The value of the product of the Stiefel-Whitney classes of the listed degrees, in their order, on the sum of all simplices of the
/// dimension of a closed complex without degenerate classes.
///
/// `Wu`: a refusal of `duality`. `Sum`: the listed degrees have not the dimension as their sum. The time of `sw` up to the greatest of
/// these degrees, and a product of cochains for each of them but the last.
/// Source: Milnor and Stasheff, Characteristic Classes, section 4.
pub fn sw_number(version: &Cached, parts: &[u8]) -> Result<bool, NumberRefusal>
    requires some { 0 < length parts.now }
    requires few { length parts.now ≤ 1048575 }
    requires degrees { All (λ k. (0 < k) × (k ≤ 99)) parts.now }
    ensures number { IfOk result (λ number. stiefel_whitney_number version.now parts.now ≡ Ok number) }
    ensures refused { IfErr result (NumberRefuses (stiefel_whitney_number version.now parts.now)) }
{
    let _ = version.complex();
    let dual = pair_classes(version)?;
    let sum = total(parts);
    if sum != u32::from(dual.dim) {
        return Err(NumberRefusal::Sum { sum, dim: dual.dim });
    }
    let number = number_of(version, &dual, parts)?;
    Ok(number)
}

/// The sum of degrees.
fn total(parts: &[u8]) -> u32
    requires few { length parts.now ≤ 1048575 }
    requires degrees { All (λ k. k ≤ 99) parts.now }
    ensures { result ≡ sum parts.now }
{
    let mut total = 0;
    for k in parts {
        total += u32::from(*k);
    }
    total
}

/// The value of the product, where the degrees have the dimension as their sum. `Err` is want of memory.
fn number_of(m: &Cached, dual: &Dual, parts: &[u8]) -> Result<bool, Memory>
    requires dual { IsDual m.now dual.now }
    requires some { 0 < length parts.now }
    requires sum { sum parts.now ≡ dual.now.dim }
    ensures { IfOk result (λ number. number ≡ on_top m.now (product m.now parts.now)) }
{
    let _ = m.complex();
    let wu = wu_cocycles(m, dual, greatest(parts))?;
    let whitney = whitney_cocycles(m, dual, &wu)?;
    let product = product(m, &whitney, parts)?;
    Ok(on_top(&product))
}

/// The greatest of some degrees; 0 where there is none.
fn greatest(parts: &[u8]) -> u8
    ensures above { All (λ k. k ≤ result) parts.now }
    ensures small { result ≤ sum parts.now }
{
    let mut greatest = 0;
    for k in parts {
        if *k > greatest {
            greatest = *k;
        }
    }
    greatest
}

/// The cup product of the cocycles of the listed degrees, from the last on. `Err` is want of memory.
fn product(m: &Cached, whitney: &[Cochain], parts: &[u8]) -> Result<Cochain, Memory>
    requires whitney { AreCocycles m.now (whitney_class m.now) whitney.now }
    requires some { 0 < length parts.now }
    requires within { All (λ k. k < length whitney.now) parts.now }
    requires small { sum parts.now < MOST_VERTICES }
    ensures degree { IfOk result (λ a. a.degree ≡ sum parts.now) }
    ensures product { IfOk result (λ a. set_of a.ids ≡ product m.now parts.now) }
    ensures stands { IfOk result (StandsOn m.now) }
{
    let complex = m.complex();
    let last = parts.len() - 1;
    let one = &whitney[parts[last] as usize];
    let mut product = Cochain::from_ids(complex, one.degree(), one.support())?;
    for k in (0..last).rev() {
        product = cup_i(complex, 0, &whitney[parts[k] as usize], &product)?;
    }
    Ok(product)
}
