//! The rows of the classes of degree 0, by the canonical cocycles that are kept.
ghost use Rattle.std.specs.Prelude.{◌≡◌, ◌+◌, ◌<◌, length, take, IfOk, IfSome};
ghost use Rattle.std.specs.List.{All};
ghost use Rattle.homology.specs.Sets.{set_of};
ghost use Rattle.homology.specs.ListSums.{odd_over};
ghost use Rattle.homology.specs.Complexes.{simplex_at};
ghost use Rattle.homology.specs.Kinds.{betti};
ghost use Rattle.products.specs.Products.{value_at};
ghost use Rattle.manifolds.specs.Closed.{top};
ghost use Rattle.characteristic_classes.specs.Pairings.{row};

use crate::row::has;
use class_cache::Cached;
use complex_store::{Complex, faces};
use elimination::Row;
use f2_chains::Chain;
use memory::Memory;

/// The row of the class with this number of degree 0: for each class of the dimension `n`, whether an odd number of simplices of its canonical
/// cocycle begin with a vertex of that of the first. `None` where one of these is not kept. For each of those simplices `n` steps and a
/// binary search. `Err` is want of memory.
pub(crate) fn row_of_points(m: &Cached, n: u8, number: u32) -> Result<Option<Row>, Memory>
    requires dimension { top m.now ≡ n }
    ensures width { IfOk result (λ o. IfSome o (λ r. length r ≡ betti m.now n)) }
    ensures row { IfOk result (λ o. IfSome o (λ r. r ≡ row m.now 0 number)) }
{
    let complex = m.complex();
    let Some(points) = m.kept_cocycle(0, number) else {
        return Ok(None);
    };
    let mut row = Row::zeros(complex.allocator(), m.betti(n))?;
    for k in 0..m.betti(n) {
        let Some(cocycle) = m.kept_cocycle(n, k) else {
            return Ok(None);
        };
        if an_odd_number_begin(complex, points, cocycle.ids(), n) {
            row.set(k);
        }
    }
    Ok(Some(row))
}

/// Whether an odd number of simplices of dimension `n` begin with one of these vertices.
fn an_odd_number_begin(complex: &Complex, points: &Chain, ids: &[u32], n: u8) -> bool
    requires within { All (λ x. x < length complex.now) ids.now }
    requires dimension { All (λ x. length (simplex_at complex.now x) ≡ n + 1) ids.now }
    ensures { result ≡ odd_over ids.now (λ x. value_at complex.now (set_of points.now) (take 1 (simplex_at complex.now x))) }
{
    let mut odd = false;
    for x in ids {
        if begins(complex, points, *x, n) {
            odd = !odd;
        }
    }
    odd
}

/// Whether a simplex of dimension `n` begins with one of these vertices.
fn begins(complex: &Complex, points: &Chain, x: u32, n: u8) -> bool
    requires there { x < length complex.now }
    requires dimension { length (simplex_at complex.now x) ≡ n + 1 }
    ensures { result ≡ value_at complex.now (set_of points.now) (take 1 (simplex_at complex.now x)) }
{
    let _ = complex.len();
    has(points, faces::front(complex, x, usize::from(n)))
}
