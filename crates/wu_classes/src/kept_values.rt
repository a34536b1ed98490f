//! The values of the canonical cocycles that are kept.
ghost use Rattle.std.specs.Prelude.{◌≡◌, ℕ, ◌<◌, ◌∷◌, [], length, IfOk, IfSome};
ghost use Rattle.std.specs.List.Sorted.{IsStrictlyIncreasing};
ghost use Rattle.homology.specs.ListSums.{odd_over};
ghost use Rattle.homology.specs.Kinds.{betti};
ghost use Rattle.characteristic_classes.specs.Pairings.{cocycle};
ghost use Rattle.elimination.specs.Rows.{entry};

use class_cache::Cached;
use elimination::Row;
use f2_chains::Chain;
use memory::Memory;

/// The values of the canonical cocycles of all classes of a degree on a chain; `None` where one of them is not kept. For each class a binary
/// search in the longer of cocycle and chain for each simplex of the shorter. `Err` is want of memory.
pub(crate) fn kept_values(m: &Cached, degree: u8, chain: &Chain) -> Result<Option<Row>, Memory>
    ensures width { IfOk result (λ o. IfSome o (λ r. length r ≡ betti m.now degree)) }
    ensures values { IfOk result (λ o. IfSome o (λ r. (k : ℕ) → k < betti m.now degree
        → entry r k ≡ odd_over chain.now (cocycle m.now degree (k ∷ [])))) }
    ensures ascending { IsStrictlyIncreasing chain.now }
{
    let _ = chain.ids();
    let mut row = Row::zeros(m.complex().allocator(), m.betti(degree))?;
    for k in 0..m.betti(degree) {
        let Some(cocycle) = m.kept_cocycle(degree, k) else {
            return Ok(None);
        };
        if chain.has_odd_in_common(cocycle) {
            row.set(k);
        }
    }
    Ok(Some(row))
}
