//! Sums of chains whose steps nobody counts.
ghost use Rattle.std.specs.Prelude.{◌≡◌, ◌<◌, OnOk};
ghost use Rattle.homology.specs.Sets.{plus, set_of};

use f2_chains::{Chain, Steps};
use memory::Memory;
use std::marker::Brand;
use std::sync::ledger::{Blank, Ledger};

/// Adds a chain of the same degree. One step for each id of either.
pub fn add(chain: &mut Chain, other: &Chain) -> Result<(), Memory>
    ensures { OnOk result (set_of chain.new ≡ plus (set_of chain.old) (set_of other.now)) }
{
    add_by::<Brand>(chain, other, Blank::new(1))
}

fn add_by<L: Ledger>(chain: &mut Chain, other: &Chain, blank: Blank) -> Result<(), Memory>
    requires name { blank.name ≡ L.name }
    requires parts { blank.parts ≡ L.parts }
    requires some { 0 < blank.parts }
    ensures { OnOk result (set_of chain.new ≡ plus (set_of chain.old) (set_of other.now)) }
{
    chain.add(other, &mut Steps::<L>::new(blank))
}
