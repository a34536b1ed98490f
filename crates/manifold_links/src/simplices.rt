//! Simplices by their ids, and the degrees that they leave.
ghost use Rattle.std.specs.Prelude.{◌≡◌, ◌<◌, ◌≤◌, length};
ghost use Rattle.homology.specs.Complexes.{dimensions, simplex_at};
ghost use Rattle.manifolds.specs.Links.{degrees_left};

use complex_store::Complex;
use simplex_order::Simplex;

/// The simplex with this id. At once.
pub(crate) fn simplex(k: &Complex, id: u32) -> Simplex
    requires { id < length k.now }
    ensures { result ≡ simplex_at k.now id }
{
    let Some(simplex) = k.simplex(id) else {
        unreachable!()
    };
    simplex
}

/// One more than the dimension of a sphere whose join with a simplex has the dimension of the complex.
pub(crate) fn degrees_left(k: &Complex, id: u32) -> usize
    requires { id < length k.now }
    ensures value { result ≡ degrees_left k.now (simplex_at k.now id) }
    ensures few { result ≤ 256 }
{
    usize::from(k.dimensions()).saturating_sub(k.vertices(id).len())
}
