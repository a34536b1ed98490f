//! Links that are boundaries of simplices.
ghost use Rattle.std.specs.Prelude.{◌≡◌, ◌+◌, ◌<◌, ◌≤◌, ◌&&◌, ℕ, true, not, cond, length, nat_eq, slice_index_or, IfOk};
ghost use Rattle.std.specs.List.{All};
ghost use Rattle.homology.specs.Sets.{set_of};
ghost use Rattle.homology.specs.Complexes.{IsComplex};
ghost use Rattle.homology.specs.Growth.{capacity};
ghost use Rattle.cochain_values.specs.Marks.{marked};
ghost use Rattle.manifold_links.specs.Counts.{AreBounds, cofaces_from, is_bounded};

use crate::counts::{count_all, zeros};
use crate::simplices::degrees_left;
use complex_store::Complex;
use memory::Memory;
use std::alloc::Global;

/// How many cofaces each simplex has, and whether its link is seen to be the boundary of a simplex.
#[derive(Drop)]
pub(crate) struct Bounds {
    pub(crate) counts: Vec<u32>,
    pub(crate) marks: Vec<bool>,
}

/// The numbers of cofaces, and marks of the simplices whose links are seen by these to be boundaries of simplices, from the last id down, since
/// cofaces have greater ids. A step for each face of each simplex. `Err` is want of memory.
pub(crate) fn bounds_of(k: &Complex) -> Result<Bounds, Memory>
    ensures { IfOk result (λ bounds. AreBounds k.now 0 bounds.counts.items bounds.marks.items) }
{
    let mut counts = zeros(k.allocator(), k.len())?;
    let mut marks = all_marked(k.allocator(), k.len())?;
    for id in (0..k.len()).rev() {
        mark_down(k, id, &mut counts, &mut marks);
    }
    Ok(Bounds { counts, marks })
}

/// Marks for all numbers below `n`. `Err` is want of memory.
fn all_marked(alloc: Global, n: u32) -> Result<Vec<bool>, Memory>
    ensures set { IfOk result (λ marks. (q : ℕ) → q < n → marked marks.items q ≡ true) }
    ensures fits { IfOk result (λ marks. length marks.items ≡ n) }
{
    let marks = vec![in alloc; true; n as usize]?;
    Ok(marks)
}

/// Leaves the mark of a simplex where it is bounded, takes it and those of its faces where it is not, and counts it at its faces.
fn mark_down(k: &Complex, id: u32, counts: &mut [u32], marks: &mut [bool])
    requires complex { IsComplex k.now }
    requires small { length k.now ≤ capacity }
    requires there { id < length k.now }
    requires later { AreBounds k.now (id + 1) counts.old marks.old }
    ensures { AreBounds k.now id counts.new marks.new }
{
    let bounded = is_bounded(k, id, counts, marks);
    let faces = k.faces(id);
    count_all(counts, faces);
    set(marks, id, bounded);
    if !bounded {
        unmark_all(marks, faces);
    }
}

/// Whether the link of a simplex is seen to be the boundary of a simplex: it has the dimension of the complex, or one coface more than vertices are
/// left to that, and the link of each of these is such a boundary. At once.
fn is_bounded(k: &Complex, id: u32, counts: &[u32], marks: &[bool]) -> bool
    requires there { id < length k.now }
    requires fits_counts { length counts.now ≡ length k.now }
    requires fits_marks { length marks.now ≡ length k.now }
    requires counted { slice_index_or counts.now id 0 ≡ cofaces_from k.now (λ t. true) 0 id }
    requires marked { marked marks.now id ≡ nat_eq (cofaces_from k.now (λ t. not (is_bounded k.now t)) 0 id) 0 }
    ensures { result ≡ is_bounded k.now id }
{
    let left = degrees_left(k, id);
    left == 0 || has_just(counts, marks, id, left + 1)
}

/// Whether a simplex has so many cofaces, and is marked. At once.
fn has_just(counts: &[u32], marks: &[bool], id: u32, wanted: usize) -> bool
    requires counts { id < length counts.now }
    requires marks { id < length marks.now }
    ensures { result ≡ (nat_eq (slice_index_or counts.now id 0) wanted && marked marks.now id) }
{
    counts[id as usize] as usize == wanted && marks[id as usize]
}

/// Gives a number this mark. At once.
fn set(marks: &mut [bool], id: u32, mark: bool)
    requires { id < length marks.old }
    ensures set { (q : ℕ) → marked marks.new q ≡ cond (nat_eq q id) mark (marked marks.old q) }
    ensures fits { length marks.new ≡ length marks.old }
{
    marks[id as usize] = mark;
}

/// Takes the marks of these numbers.
fn unmark_all(marks: &mut [bool], ids: &[u32])
    requires { All (λ id. id < length marks.old) ids.now }
    ensures set { (q : ℕ) → marked marks.new q ≡ (not (set_of ids.now q) && marked marks.old q) }
    ensures fits { length marks.new ≡ length marks.old }
{
    for id in ids {
        set(marks, *id, false);
    }
}
