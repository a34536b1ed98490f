//! Calls on chains whose steps nobody counts.
ghost use Rattle.std.specs.Prelude.{◌≡◌, ◌<◌, IfOk};
ghost use Rattle.homology.specs.Sets.{plus, set_of};

use f2_chains::{Chain, Steps};
use memory::Memory;
use std::marker::Brand;
use std::sync::ledger::{Blank, Ledger};

/// Whether the simplex is a member. One binary search.
pub(crate) fn has(chain: &Chain, id: u32) -> bool
    ensures { result ≡ set_of chain.now id }
{
    has_by::<Brand>(chain, id, Blank::new(1))
}

/// The sum of two chains of one degree. One step for each id of either.
pub(crate) fn sum(one: &Chain, other: &Chain) -> Result<Chain, Memory>
    ensures { IfOk result (λ c. set_of c ≡ plus (set_of one.now) (set_of other.now)) }
{
    sum_by::<Brand>(one, other, Blank::new(1))
}

fn has_by<L: Ledger>(chain: &Chain, id: u32, blank: Blank) -> bool
    requires name { blank.name ≡ L.name }
    requires parts { blank.parts ≡ L.parts }
    requires some { 0 < blank.parts }
    ensures { result ≡ set_of chain.now id }
{
    let mut steps = Steps::<L>::new(blank);
    chain.has(id, &mut steps)
}

fn sum_by<L: Ledger>(one: &Chain, other: &Chain, blank: Blank) -> Result<Chain, Memory>
    requires name { blank.name ≡ L.name }
    requires parts { blank.parts ≡ L.parts }
    requires some { 0 < blank.parts }
    ensures { IfOk result (λ c. set_of c ≡ plus (set_of one.now) (set_of other.now)) }
{
    let mut steps = Steps::<L>::new(blank);
    let mut sum = one.copy()?;
    sum.add(other, &mut steps)?;
    Ok(sum)
}
