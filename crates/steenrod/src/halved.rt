//! The Bockstein of a cocycle by the faces of the cofaces of its members.
ghost use Rattle.std.specs.Prelude.{◌≡◌, ◌+◌, ◌-◌, ◌%◌, ◌<◌, ◌&&◌, ◌==◌, length, slice_index, IfOk};
ghost use Rattle.std.specs.List.{All, filter};
ghost use Rattle.std.specs.List.Sorted.{IsStrictlyIncreasing};
ghost use Rattle.homology.specs.Sets.{set_of};
ghost use Rattle.homology.specs.Complexes.{IsComplex, simplex_at};
ghost use Rattle.homology.specs.Chains.{IsCocycle};
ghost use Rattle.products.specs.Products.{value_at};
ghost use Rattle.cohomology_operations.specs.Bocksteins.{bockstein, faces_with};
ghost use Rattle.cochain_values.specs.Marks.{marked};

use cochain_values::Cochain;
use cochain_values::marks::marks_of;
use complex_store::Complex;
use cup_i::cofaces_of_members;
use f2_chains::Chain;
use memory::Memory;

/// The simplices at which the Bockstein of a cocycle is 1: the coboundary with alternating signs of its values as the integers 0 and 1,
/// halved, modulo 2. It can be 1 only over a member. A step for each coface of each member and each face of these, and a mark for each
/// id of the complex. `Err` is want of memory.
pub(crate) fn halved(k: &Complex, a: &Cochain) -> Result<Chain, Memory>
    requires complex { IsComplex k.now }
    requires cocycle { IsCocycle k.now a.now.degree (set_of a.now.ids) }
    ensures { IfOk result (λ c. set_of c ≡ bockstein k.now (set_of a.now.ids)) }
{
    if a.degree() == 0 {
        return Ok(Chain::new(k.allocator()));
    }
    let over = cofaces_of_members(k, false, a, 1)?;
    let marks = marks_of(k.allocator(), k.len(), a.support().ids())?;
    let support = odd_halves(k, &marks, &over)?;
    Chain::from_ascending(k.allocator(), &support)
}

/// Those of some simplices at which half of the coboundary with signs is odd.
fn odd_halves(k: &Complex, marks: &[bool], ids: &[u32]) -> Result<Vec<u32>, Memory>
    requires complex { IsComplex k.now }
    requires fits { length marks.now ≡ length k.now }
    requires within { All (λ x. x < length k.now) ids.now }
    requires wide { All (λ x. 1 < length (simplex_at k.now x)) ids.now }
    ensures { IfOk result (λ odd. odd.items ≡ filter (bockstein k.now (marked marks.now)) ids.now) }
{
    let mut odd = Vec::new(k.allocator());
    for id in ids {
        if is_half_odd(k, marks, *id) {
            odd.push(*id)?;
        }
    }
    Ok(odd)
}

/// Whether half of the coboundary with signs is odd at a simplex. Two steps for each face.
fn is_half_odd(k: &Complex, marks: &[bool], id: u32) -> bool
    requires complex { IsComplex k.now }
    requires fits { length marks.now ≡ length k.now }
    requires there { id < length k.now }
    requires wide { 1 < length (simplex_at k.now id) }
    ensures { result ≡ bockstein k.now (marked marks.now) id }
{
    let plus = faces_with(k, marks, id, 0);
    let minus = faces_with(k, marks, id, 1);
    plus.abs_diff(minus) / 2 % 2 == 1
}

/// How many faces, each without a place that leaves this rest when divided by 2, are marked. A step for each face.
fn faces_with(k: &Complex, marks: &[bool], id: u32, rest: usize) -> usize
    requires complex { IsComplex k.now }
    requires fits { length marks.now ≡ length k.now }
    requires there { id < length k.now }
    requires wide { 1 < length (simplex_at k.now id) }
    ensures { result ≡ faces_with (value_at k.now (marked marks.now)) rest (simplex_at k.now id) }
{
    let faces = k.faces(id);
    let mut count = 0usize;
    for place in 0..faces.len() {
        if counts(marks, faces, place, rest) {
            count += 1;
        }
    }
    count
}

/// Whether a place leaves this rest, and the face without it, which stands as far from the end of the list, is marked. At once.
fn counts(marks: &[bool], faces: &[u32], place: usize, rest: usize) -> bool
    requires place { place < length faces.now }
    requires within { All (λ t. t < length marks.now) faces.now }
    ensures { result ≡ ((place % 2 == rest) && marked marks.now (slice_index faces.now (length faces.now - 1 - place))) }
{
    place % 2 == rest && marks[faces[faces.len() - 1 - place] as usize]
}
