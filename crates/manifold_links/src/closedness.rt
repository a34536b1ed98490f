//! Closed complexes.
ghost use Rattle.std.specs.Prelude.{◌≡◌, ◌+◌, ◌<◌, length, IfOk, IfErr, IfSome, Ok};
ghost use Rattle.homology.specs.Complexes.{IsComplex, dim, dimensions, simplex_at};
ghost use Rattle.manifolds.specs.Closed.{closed, faulty_ridges, times, top};
ghost use Rattle.manifold_links.specs.Counts.{AreCounted};
ghost use Rattle.manifold_links.specs.Covers.{is_covered};
ghost use Rattle.manifold_links.specs.Firsts.{IsFirst};
ghost use Rattle.manifold_links.specs.Refusals.{ClosedRefuses};

use crate::ClosedRefusal;
use crate::cover::cover_of;
use crate::first::with_next;
use crate::simplices::simplex;
use at_model::Model;
use complex_store::Complex;

/// The dimension n of a closed complex: one that is not empty, in which each simplex lies in an n-simplex, and each simplex of
/// dimension n - 1 in exactly two. Points alone are closed of dimension 0.
///
/// `Nothing`: the complex is empty. `NotPure`: this is the first simplex in simplex order that lies in no n-simplex. `Ridge`: there
/// is no such one, and this is the first of dimension n - 1 that does not lie in two, and in how many it lies. `Memory`: none was left.
/// A step for each face of each simplex, and a comparison for each simplex that fails. No look-up.
/// Source: H. Seifert and W. Threlfall, A Textbook of Topology, section 24.
pub fn closed(m: &Model) -> Result<u8, ClosedRefusal>
    ensures dimension { IfOk result (λ n. closed m.now ≡ Ok n) }
    ensures refused { IfErr result (ClosedRefuses (closed m.now)) }
{
    let k = m.complex();
    let Some(n) = k.dim() else {
        return Err(ClosedRefusal::Nothing);
    };
    let cover = cover_of(k, n)?;
    if let Some(id) = cover.uncovered {
        return Err(ClosedRefusal::NotPure(simplex(k, id)));
    }
    if let Some(id) = first_faulty_ridge(k, n, &cover.counts) {
        return Err(ClosedRefusal::Ridge {
            simplex: simplex(k, id),
            times: times(k, id, &cover.counts),
        });
    }
    Ok(n)
}

/// The first simplex of one dimension less in simplex order that does not lie in two of the dimension `n` of the complex.
fn first_faulty_ridge(k: &Complex, n: u8, counts: &[u32]) -> Option<u32>
    requires complex { IsComplex k.now }
    requires dimension { n + 1 ≡ dimensions k.now }
    requires fits { length counts.now ≡ length k.now }
    requires counted { AreCounted k.now (is_covered k.now) 0 counts.now }
    ensures first { IsFirst k.now (faulty_ridges k.now) result }
    ensures ridge { IfSome result (λ id. dim k.now id + 1 ≡ top k.now) }
{
    let Some(p) = n.checked_sub(1) else {
        return None;
    };
    let mut first = None;
    for id in k.of_dimension(p).iter() {
        let times = times(k, *id, counts);
        first = with_next(k, first, *id, times != 2);
    }
    first
}

/// In how many simplices of the dimension of the complex a simplex of one dimension less lies: in as many as it has covered cofaces. At once.
fn times(k: &Complex, id: u32, counts: &[u32]) -> u32
    requires complex { IsComplex k.now }
    requires there { id < length k.now }
    requires ridge { dim k.now id + 1 ≡ top k.now }
    requires fits { length counts.now ≡ length k.now }
    requires counted { AreCounted k.now (is_covered k.now) 0 counts.now }
    ensures { result ≡ times k.now (simplex_at k.now id) }
{
    counts[id as usize]
}
