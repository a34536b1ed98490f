//! The cofaces of the members of a cochain, one vertex more at a time.
ghost use Rattle.std.specs.Prelude.{◌≡◌, ℕ, ◌+◌, ◌<◌, ◌++◌, length, IfOk, OnOk};
ghost use Rattle.std.specs.List.{All, filter, list_any};
ghost use Rattle.std.specs.List.Sorted.{IsStrictlyIncreasing};
ghost use Rattle.homology.specs.Sets.{set_of};
ghost use Rattle.homology.specs.Complexes.{IsComplex, simplex_at};
ghost use Rattle.cochain_values.specs.Cochains.{StandsOn};
ghost use Rattle.cup_i.specs.Above.{is_kept, kept_cofaces, IsAbove};

use cochain_values::Cochain;
use complex_store::{Complex, faces};
use f2_chains::in_order;
use memory::Memory;

/// The simplices with so many vertices more than the members of a cochain, among them all that have a member as a face, or, where
/// `behind` is set, all that have one as the face of their first vertices; ascending. On the way one step for each coface of each
/// simplex that is reached. `Err` is want of memory.
pub fn above(k: &Complex, behind: bool, a: &Cochain, more: u8) -> Result<Vec<u32>, Memory>
    requires complex { IsComplex k.now }
    requires stands { StandsOn k.now a.now }
    ensures { IfOk result (λ ids. IsAbove k.now behind (set_of a.now.ids) (a.now.degree + 1 + more) ids.items) }
{
    let mut level = Vec::new(k.allocator());
    level.extend_from_slice(a.support().ids())?;
    for done in 0..more {
        let next = next_level(k, behind, &level)?;
        level = next;
    }
    Ok(level)
}

/// The cofaces of some simplices that are kept, ascending.
fn next_level(k: &Complex, behind: bool, level: &[u32]) -> Result<Vec<u32>, Memory>
    requires complex { IsComplex k.now }
    requires within { All (λ u. u < length k.now) level.now }
    ensures ascending { IfOk result (λ next. IsStrictlyIncreasing next.items) }
    ensures members { IfOk result (λ next. (z : ℕ) → set_of next.items z ≡ list_any (λ u. set_of (kept_cofaces k.now behind u) z) level.now) }
{
    let mut next = Vec::new(k.allocator());
    for id in level {
        let cofaces = k.cofaces(*id)?;
        push_kept(k, behind, *id, &cofaces, &mut next)?;
    }
    Ok(in_order(next))
}

/// Appends those of some cofaces of a simplex that are kept.
fn push_kept(
    k: &Complex,
    behind: bool,
    id: u32,
    cofaces: &[u32],
    next: &mut Vec<u32>,
) -> Result<(), Memory>
    requires complex { IsComplex k.now }
    requires there { id < length k.now }
    requires within { All (λ c. c < length k.now) cofaces.now }
    requires wide { All (λ c. 1 < length (simplex_at k.now c)) cofaces.now }
    ensures { OnOk result (next.new.items ≡ next.old.items ++ filter (is_kept k.now behind id) cofaces.now) }
{
    for coface in cofaces {
        if is_kept(k, behind, id, *coface) {
            next.push(*coface)?;
        }
    }
    Ok(())
}

/// Whether a coface is kept: each is, or, where `behind` is set, those whose further vertex comes last. At once.
fn is_kept(k: &Complex, behind: bool, id: u32, coface: u32) -> bool
    requires complex { IsComplex k.now }
    requires there { id < length k.now }
    requires within { coface < length k.now }
    requires wide { 1 < length (simplex_at k.now coface) }
    ensures { result ≡ is_kept k.now behind id coface }
{
    !behind || faces::without(k, coface, 0) == id
}
