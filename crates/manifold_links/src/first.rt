//! The first in simplex order of some simplices.
ghost use Rattle.std.specs.Prelude.{◌≡◌, ℕ, ◌<◌, ◌⊎◌, Bool, List, ◌∷◌, ◌++◌, [], cond, length, IfSome, Some};
ghost use Rattle.std.specs.List.{filter};
ghost use Rattle.std.specs.Ordering.{is_lt};
ghost use Rattle.homology.specs.Complexes.{simplex_at};
ghost use Rattle.homology.specs.Order.{simplex_cmp};
ghost use Rattle.manifold_links.specs.Firsts.{IsFirst};

use complex_store::Complex;
use simplex_order::laws::order;

/// The first of some simplices and one more, where that counts. At once.
pub(crate) fn with_next(k: &Complex, first: Option<u32>, id: u32, counts: bool) -> Option<u32>
    requires there { id < length k.now }
    requires first { IfSome first (λ f. f < length k.now) }
    ensures first { (test : ℕ → Bool) (xs : List ℕ) → test id ≡ counts → IsFirst k.now (filter test xs) first
        → IsFirst k.now (filter test (xs ++ id ∷ [])) result }
    ensures either { (result ≡ first) ⊎ (result ≡ Some id) }
{
    if counts && comes_before(k, id, first) {
        Some(id)
    } else {
        first
    }
}

/// Whether a simplex comes before the first of some others, or there is no other. At once.
pub(crate) fn comes_before(k: &Complex, id: u32, first: Option<u32>) -> bool
    requires there { id < length k.now }
    requires first { IfSome first (λ f. f < length k.now) }
    ensures { (xs : List ℕ) → IsFirst k.now xs first → IsFirst k.now (xs ++ id ∷ []) (cond result (Some id) first) }
{
    match first {
        None => true,
        Some(other) => is_less(k, id, other),
    }
}

/// Whether a simplex comes before another. At once.
fn is_less(k: &Complex, id: u32, other: u32) -> bool
    requires there { id < length k.now }
    requires other { other < length k.now }
    ensures { result ≡ is_lt (simplex_cmp (simplex_at k.now id) (simplex_at k.now other)) }
{
    let (Some(one), Some(two)) = (k.simplex(id), k.simplex(other)) else {
        unreachable!()
    };
    order(&one, &two).is_lt()
}
