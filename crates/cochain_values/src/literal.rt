//! Cochains by their simplices.
ghost use Rattle.std.specs.Prelude.{◌≡◌, [], ◌∷◌, ◌++◌, Ok, IfOk, IfErr, OnOk};
ghost use Rattle.homology.specs.Sets.{set_of, single};
ghost use Rattle.homology.specs.Chains.{IsChain};
ghost use Rattle.cochain_values.specs.Cochains.{StandsOn};
ghost use Rattle.cohomology.specs.Words.{reading, settled};
ghost use Rattle.cochain_values.specs.Refusals.{Refuses};

use crate::{Cochain, CochainRefusal};
use complex_store::Complex;
use f2_chains::Chain;
use memory::Memory;
use simplex_order::Simplex;

impl Cochain {
    /// The sum modulo 2 of the listed simplices. The list is gone through from the left.
    ///
    /// `NotThere`: this simplex is the first of the list that is absent or of another dimension, and it
    /// is absent. `Degree`: this is the first such one, and it is there, with another dimension; also
    /// where it stands twice in the list. `Memory`: none was left. One look-up for each simplex, and a sort.
    pub fn from_simplices(
        k: &Complex,
        degree: u8,
        simplices: &[Simplex],
    ) -> Result<Cochain, CochainRefusal>
        ensures degree { IfOk result (λ c. c.degree ≡ degree) }
        ensures settled { IfOk result (λ c. settled k.now degree simplices.now ≡ Ok (set_of c.ids)) }
        ensures stands { IfOk result (StandsOn k.now) }
        ensures refused { IfErr result (Refuses (settled k.now degree simplices.now)) }
    {
        let mut ids = Vec::new(k.allocator());
        for s in simplices {
            let id = place(k, degree, s)?;
            push(&mut ids, id)?;
        }
        let support = Chain::sum_of(k.allocator(), ids)?;
        Ok(Cochain { degree, support })
    }
}

/// One id more.
fn push(ids: &mut Vec<u32>, id: u32) -> Result<(), Memory>
    ensures { OnOk result (ids.new.items ≡ ids.old.items ++ id ∷ []) }
{
    ids.push(id)?;
    Ok(())
}

/// The id of a simplex, where it is there and has this dimension.
fn place(k: &Complex, degree: u8, s: &Simplex) -> Result<u32, CochainRefusal>
    ensures read { IfOk result (λ id. reading k.now degree s.now ≡ Ok id) }
    ensures there { IfOk result (λ id. IsChain k.now degree (single id)) }
    ensures refused { IfErr result (Refuses (reading k.now degree s.now)) }
{
    let Some(id) = k.find(s) else {
        return Err(CochainRefusal::NotThere(s.copy()));
    };
    if s.dim() != degree {
        return Err(CochainRefusal::Degree(s.copy()));
    }
    Ok(id)
}
