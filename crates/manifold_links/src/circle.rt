//! Links that are circles.
ghost use Rattle.std.specs.Prelude.{◌≡◌, ℕ, ◌<◌, true, length, IfOk, IfSome};
ghost use Rattle.homology.specs.Sets.{set_of};
ghost use Rattle.homology.specs.Complexes.{IsComplex, incidence, simplex_at};
ghost use Rattle.manifolds.specs.Links.{degrees_left, link_betti, sphere_counts};
ghost use Rattle.manifold_links.specs.Circles.{IsBeside, IsWalked};
ghost use Rattle.manifold_links.specs.CofaceLists.{AreCofaces};

use crate::coface_lists::CofaceLists;
use crate::lists::are_same;
use crate::star::has;
use complex_store::Complex;
use f2_chains::in_order;
use memory::Memory;

/// Where a walk around a simplex is: at a coface of it, by an edge, which is a coface of that.
#[derive(Drop)]
struct Place {
    coface: u32,
    edge: u32,
}

/// Whether the link of a simplex is seen to be a circle, `left` being 2: each of its cofaces has two cofaces, and a walk from one to another
/// over these comes to all. A few steps for each coface, one for each coface of that at which the walk ends, and what it takes to put the
/// cofaces in order; no look-up. `Err` is want of memory.
pub(crate) fn is_circle(
    k: &Complex,
    cofaces: &CofaceLists,
    id: u32,
    left: usize,
) -> Result<bool, Memory>
    requires complex { IsComplex k.now }
    requires there { id < length k.now }
    requires cofaces { AreCofaces k.now cofaces.now }
    requires left { left ≡ degrees_left k.now (simplex_at k.now id) }
    ensures { IfOk result (λ circle. circle ≡ true → link_betti k.now (simplex_at k.now id) ≡ sphere_counts left) }
{
    if left != 2 {
        return Ok(false);
    }
    let around = cofaces.of(id);
    if around.len() < 3 {
        return Ok(false);
    }
    let start = around[0];
    let walked = walk(k, cofaces, id, start, around.len())?;
    let all = in_order(walked);
    Ok(are_same(&all, around))
}

/// The cofaces of a simplex to which a walk from one of them comes in so many steps, as long as each has two cofaces.
fn walk(
    k: &Complex,
    cofaces: &CofaceLists,
    id: u32,
    start: u32,
    steps: usize,
) -> Result<Vec<u32>, Memory>
    requires complex { IsComplex k.now }
    requires cofaces { AreCofaces k.now cofaces.now }
    requires start { start < length k.now }
    ensures { IfOk result (λ walked. (z : ℕ) → set_of walked.items z ≡ true → IsWalked k.now id start z) }
{
    let mut walked = Vec::new(k.allocator());
    let mut at = Place {
        coface: start,
        edge: start,
    };
    for _step in 0..steps {
        let Some(place) = step(k, cofaces, id, &at) else {
            return Ok(walked);
        };
        walked.push(at.coface)?;
        at = place;
    }
    Ok(walked)
}

/// The next place of a walk: over the edge by which it did not come, where there are two edges. `None`: there are not, or nothing is beyond.
fn step(k: &Complex, cofaces: &CofaceLists, id: u32, at: &Place) -> Option<Place>
    requires complex { IsComplex k.now }
    requires cofaces { AreCofaces k.now cofaces.now }
    requires there { at.now.coface < length k.now }
    ensures { IfSome result (λ place. IsBeside k.now id at.now.coface place.coface) }
{
    let edges = cofaces.of(at.coface);
    if edges.len() != 2 {
        return None;
    }
    let edge = other(edges, at.edge);
    let coface = beyond(k, id, at.coface, edge)?;
    Some(Place { coface, edge })
}

/// The one of two edges that is not the edge given, where that is one of them.
fn other(edges: &[u32], edge: u32) -> u32
    requires { length edges.now ≡ 2 }
    ensures { set_of edges.now result ≡ true }
{
    if edges[0] == edge {
        return edges[1];
    }
    edges[0]
}

/// A face of an edge that has a simplex as a face and is not the coface from which a walk comes.
fn beyond(k: &Complex, id: u32, from: u32, edge: u32) -> Option<u32>
    requires complex { IsComplex k.now }
    requires there { edge < length k.now }
    ensures { IfSome result (λ w. (incidence k.now w edge ≡ true) × (incidence k.now id w ≡ true)) }
{
    for face in k.faces(edge) {
        if is_other(k, id, from, *face) {
            return Some(*face);
        }
    }
    None
}

/// Whether a simplex is another than that with the id `from`, and has a simplex as a face.
fn is_other(k: &Complex, id: u32, from: u32, coface: u32) -> bool
    requires { coface < length k.now }
    ensures { result ≡ true → incidence k.now id coface ≡ true }
{
    if coface == from {
        return false;
    }
    has(k.faces(coface), id)
}
