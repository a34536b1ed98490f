//! The laws of canonical bounds, each as the contract of a function that does nothing.
ghost use Rattle.std.specs.Prelude.{◌≡◌, ℕ, ◌+◌, ◌<◌, [], length};
ghost use Rattle.std.specs.List.Sorted.{IsStrictlyIncreasing};
ghost use Rattle.homology.specs.Sets.{Ids, set_of, evaluate};
ghost use Rattle.homology.specs.Complexes.{Complex, IsComplex};
ghost use Rattle.homology.specs.Chains.{IsChain, IsCoboundary};
ghost use Rattle.homology.specs.Contractions.{IsContraction};
ghost use Rattle.cohomology.specs.Classes.{IsCanonicalBound, canonical_bound};

/// Each coboundary of degree 1 or more has exactly one canonical bound, and the search finds it, as an ascending list. In
/// degree 0 the list is empty.
pub fn one_bound()
    ensures found { (K : Complex) → IsComplex K → (p : ℕ) (e : Ids) → IsChain K (p + 1) e → IsCoboundary K (p + 1) e
        → IsCanonicalBound K p e (set_of (canonical_bound K (p + 1) e)) × IsStrictlyIncreasing (canonical_bound K (p + 1) e) }
    ensures one { (K : Complex) → IsComplex K → (p : ℕ) (e u v : Ids) → IsCanonicalBound K p e u → IsCanonicalBound K p e v → u ≡ v }
    ensures zero { (K : Complex) (e : Ids) → canonical_bound K 0 e ≡ [] }
{}

/// By the contraction: the canonical bound of a coboundary e has the y with e(phi y) = 1.
pub fn bound_by_contraction()
    ensures { (K : Complex) → IsComplex K → (f g phi : ℕ → Ids) → IsContraction K f g phi → (p : ℕ) (e : Ids) → IsChain K p e
        → IsCoboundary K p e → (y : ℕ) → y < length K → set_of (canonical_bound K p e) y ≡ evaluate (length K) e (phi y) }
{}
