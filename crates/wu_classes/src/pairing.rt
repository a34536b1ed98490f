//! The pairing of cohomology classes.
ghost use Rattle.std.specs.Prelude.{◌≡◌, Ok, map, IfOk, IfErr};
ghost use Rattle.characteristic_classes.specs.Pairings.{duality, pairings};
ghost use Rattle.wu_classes.specs.Duals.{IsDual};
ghost use Rattle.wu_classes.specs.Refusals.{WuRefuses};
ghost use Rattle.wu_classes.specs.Values.{rows_of};

use crate::WuRefusal;
use crate::dual::{Dual, pair_classes};
use class_cache::Cached;
use elimination::Basis;
use memory::Memory;
use std::alloc::Global;

/// The pairings of the cohomology classes of a closed complex.
#[derive(Drop)]
pub struct Pairing {
    /// For each degree p from 0 to the dimension n, in the order of the class numbers a row for each class of degree p: for each class of
    /// degree n - p whether the two pair to 1.
    pub rows: Vec<Vec<Vec<bool>>>,
}

/// The pairings of the classes of a closed complex without degenerate classes.
///
/// `Nothing`, `NotPure`, `Ridge`: the complex is not closed, as `manifold_links::closed` tells. `Degenerate`: this class pairs to zero
/// with every class of the complementary degree; it is the first such one, of the least degree, and in it of the least greatest number.
/// `Memory`: none was left. The rows of the degrees up to half the dimension are found, and those of the others are their columns.
///
/// Where the canonical cocycles of all classes are kept: in degree 0 a step for each vertex of the simplices of those of the
/// dimension, and in the other degrees a cap product for each class, and for each pair of classes a binary search in the longer of this
/// product and the second cocycle for each simplex of the shorter. Else, where there is a class for 64 simplices: one reduction a simplex, then
/// for each degree one pass over the simplices of the greatest dimension, with a step for each pair of a class of the front face and one of the
/// back face. With fewer classes, or more than 4,000,000 steps in a degree: for each class one pass over the model, one cap product and one
/// reduction. And for each class a step for 64 entries of each row of its degree.
/// Source: Munkres, Elements of Algebraic Topology, sections 67 and 68.
pub fn duality(version: &Cached) -> Result<Pairing, WuRefusal>
    ensures rows { IfOk result (λ pairing. duality version.now ≡ Ok (rows_of pairing)) }
    ensures refused { IfErr result (WuRefuses (duality version.now)) }
{
    let dual = pair_classes(version)?;
    let pairing = pairings(version, &dual)?;
    Ok(pairing)
}

/// The pairings of all degrees. `Err` is want of memory.
fn pairings(m: &Cached, dual: &Dual) -> Result<Pairing, Memory>
    requires { IsDual m.now dual.now }
    ensures { IfOk result (λ pairing. rows_of pairing ≡ pairings m.now) }
{
    let alloc = m.complex().allocator();
    let mut rows = Vec::new(alloc);
    for p in 0..dual.dim + 1 {
        rows.push(entries(alloc, &dual.bases[p as usize])?)?;
    }
    Ok(Pairing { rows })
}

/// The rows entry by entry. `Err` is want of memory.
fn entries(alloc: Global, basis: &Basis) -> Result<Vec<Vec<bool>>, Memory>
    ensures { IfOk result (λ rows. map (λ row. row.items) rows.items ≡ basis.now.rows) }
{
    let mut rows = Vec::new(alloc);
    for k in 0..basis.len() {
        rows.push(basis.row(k).entries()?)?;
    }
    Ok(rows)
}
