//! The dimension of a closed complex, and its fundamental cycle.
ghost use Rattle.std.specs.Prelude.{◌≡◌, ◌<◌, ◌≤◌, IfOk, IfErr};
ghost use Rattle.homology.specs.Sets.{set_of};
ghost use Rattle.homology.specs.Complexes.{Complex as Simplices, IsComplex};
ghost use Rattle.homology.specs.Chains.{IsChain};
ghost use Rattle.homology.specs.Kinds.{ids};
ghost use Rattle.manifolds.specs.Closed.{top};
ghost use Rattle.characteristic_classes.specs.Pairings.{dual, on_top};
ghost use Rattle.cochain_values.specs.Cochains.{StandsOn};
ghost use Rattle.wu_classes.specs.Duals.{IsTop};
ghost use Rattle.wu_classes.specs.Refusals.{WuRefuses};

use crate::WuRefusal;
use class_cache::Cached;
use cochain_values::Cochain;
use f2_chains::Chain;
use manifold_links::closed;
use memory::Memory;

/// The dimension of a closed complex.
pub(crate) fn dimension(m: &Cached) -> Result<u8, WuRefusal>
    ensures top { IfOk result (IsTop m.now) }
    ensures refused { IfErr result (WuRefuses (dual m.now)) }
{
    let _ = m.complex();
    match closed(m.model()) {
        Ok(n) => Ok(n),
        Err(refusal) => Err(WuRefusal::Closed(refusal)),
    }
}

/// The fundamental cycle: the sum of all simplices of the dimension `n`. `Err` is want of memory.
pub(crate) fn top_chain(m: &Cached, n: u8) -> Result<Chain, Memory>
    ensures set { IfOk result (λ c. set_of c ≡ set_of (ids m.now n)) }
    ensures chain { IfOk result (λ c. IsChain m.now n (set_of c)) }
{
    let k = m.complex();
    let mut ids = Vec::new(k.allocator());
    for id in k.of_dimension(n).iter() {
        ids.push(*id)?;
    }
    let chain = Chain::from_ascending(k.allocator(), &ids)?;
    Ok(chain)
}

/// Whether a cochain of the dimension of the complex has the value 1 on the sum of all its simplices of this dimension. At once.
pub(crate) fn on_top(a: &Cochain) -> bool
    ensures { (K : Simplices) → IsComplex K → StandsOn K a.now → a.now.degree ≡ top K → result ≡ on_top K (set_of a.now.ids) }
{
    a.support().ids().len() % 2 == 1
}
