//! The rows of a pairing, found together.
ghost use Rattle.std.specs.Prelude.{◌≡◌, ℕ, ◌-◌, ◌<◌, ◌≤◌, [], length, slice_index, slice_index_or, IfOk, IfSome};
ghost use Rattle.std.specs.List.{All};
ghost use Rattle.std.specs.List.Sorted.{IsStrictlyIncreasing};
ghost use Rattle.homology.specs.Sets.{set_of};
ghost use Rattle.homology.specs.Growth.{capacity};
ghost use Rattle.cohomology.specs.Classes.{essentials};
ghost use Rattle.manifolds.specs.Closed.{top};
ghost use Rattle.characteristic_classes.specs.Pairings.{pairing};
ghost use Rattle.elimination.specs.Rows.{Given, entry, row_at};
ghost use Rattle.wu_classes.specs.Duals.{IsPairing, IsTop};
ghost use Rattle.wu_classes.specs.Sums.{AreMaps};

use crate::columns::columns;
use crate::face_sums::face_sums;
use class_cache::Cached;
use elimination::{Basis, Row};
use f2_chains::Chain;
use memory::Memory;
use std::alloc::Global;

/// The rows of the pairing of degree `p`, where those of the lesser degrees are given: where one of these is the complementary degree, its
/// columns; else as [`rows_together`]. `Err` is want of memory.
pub(crate) fn all_rows(
    m: &Cached,
    maps: &Option<Vec<Chain>>,
    bases: &[Basis],
    n: u8,
    p: u8,
    essential: &[u32],
) -> Result<Option<Vec<Row>>, Memory>
    requires top { IsTop m.now n }
    requires degree { p ≤ n }
    requires maps { IfSome maps.now (λ maps. AreMaps m.now maps.items) }
    requires count { length bases.now ≡ p }
    requires earlier { (q : ℕ) (g : Given) → q < p → IsPairing m.now q (slice_index_or bases.now q g) }
    requires essential { essential.now ≡ essentials m.now (n - p) }
    ensures { IfOk result (λ o. IfSome o (λ rows. rows.items ≡ pairing m.now p)) }
{
    let complex = m.complex();
    if n - p < p {
        let rows = columns(complex.allocator(), &bases[(n - p) as usize])?;
        return Ok(Some(rows));
    }
    let rows = rows_together(m, maps, n, p, essential)?;
    Ok(rows)
}

/// The rows of the pairing of degree `p`, where f of all simplices is at hand, and the sums of it take no more than 4,000,000 steps; else
/// `None`. One pass over the simplices of the dimension `n`. `Err` is want of memory.
fn rows_together(
    m: &Cached,
    maps: &Option<Vec<Chain>>,
    n: u8,
    p: u8,
    essential: &[u32],
) -> Result<Option<Vec<Row>>, Memory>
    requires maps { IfSome maps.now (λ maps. AreMaps m.now maps.items) }
    requires dimension { top m.now ≡ n }
    requires degree { p ≤ n }
    requires essential { essential.now ≡ essentials m.now (n - p) }
    ensures { IfOk result (λ o. IfSome o (λ rows. rows.items ≡ pairing m.now p)) }
{
    let Some(maps) = maps else {
        return Ok(None);
    };
    let complex = m.complex();
    let _ = complex.len();
    let Some(sums) = face_sums(complex, maps, n, p)? else {
        return Ok(None);
    };
    let first = m.essential(p)?;
    let rows = rows_at(complex.allocator(), &sums, &first, essential)?;
    Ok(Some(rows))
}

/// The rows of the chains of the first simplices, read at the second ones.
fn rows_at(
    alloc: Global,
    chains: &[Chain],
    first: &[u32],
    second: &[u32],
) -> Result<Vec<Row>, Memory>
    requires first { All (λ h. h < length chains.now) first.now }
    requires ascending { IsStrictlyIncreasing second.now }
    requires small { length second.now ≤ capacity }
    ensures count { IfOk result (λ rows. length rows.items ≡ length first.now) }
    ensures widths { IfOk result (λ rows. (j : ℕ) → j < length first.now → length (row_at rows.items j) ≡ length second.now) }
    ensures entries { IfOk result (λ rows. (j : ℕ) → j < length first.now → (k : ℕ) → k < length second.now
        → entry (row_at rows.items j) k ≡ set_of (slice_index_or chains.now (slice_index first.now j) []) (slice_index second.now k)) }
{
    let mut rows = Vec::with_capacity(alloc, first.len())?;
    for h in first {
        let row = row_of_members(alloc, &chains[*h as usize], second)?;
        rows.push(row)?;
    }
    Ok(rows)
}

/// Whether each of these simplices is a member of the chain: a binary search for each member. `Err` is want of memory.
pub(crate) fn row_of_members(alloc: Global, chain: &Chain, simplices: &[u32]) -> Result<Row, Memory>
    requires ascending { IsStrictlyIncreasing simplices.now }
    requires small { length simplices.now ≤ capacity }
    ensures width { IfOk result (λ r. length r ≡ length simplices.now) }
    ensures entries { IfOk result (λ r. (k : ℕ) → k < length simplices.now → entry r k ≡ set_of chain.now (slice_index simplices.now k)) }
{
    let mut row = Row::zeros(alloc, simplices.len() as u32)?;
    for id in chain.ids() {
        match simplices.binary_search(id) {
            Ok(place) => row.set(place as u32),
            Err(_) => {}
        }
    }
    Ok(row)
}
