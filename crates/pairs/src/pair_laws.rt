//! The laws of pairs, each as the contract of a function that does nothing.
ghost use Rattle.std.specs.Prelude.{◌≡◌, ◌↔◌, ℕ, ◌<◌, ◌+◌, true, false, List, [], length, None, Some};
ghost use Rattle.homology.specs.Sets.{Ids, empty};
ghost use Rattle.homology.specs.Complexes.{Complex, IsComplex, simplex_at};
ghost use Rattle.homology.specs.Growth.{is_there};
ghost use Rattle.homology.specs.Chains.{IsChain, IsCocycle, coboundary};
ghost use Rattle.pairs.specs.Pairs.{not_within, IsPart, moved, IsRelativeChain, IsRelativeCocycle, is_relatively_positive, is_relatively_bounding, relative_betti};
ghost use Rattle.homology.specs.Kinds.{is_positive, is_bounding, betti};
ghost use Rattle.pairs.specs.Sequences.{connecting_cochain};

/// Nothing is refused exactly where A is a part of K; what is told is a simplex of A that is not in K.
pub fn part_by_search()
    ensures accepted { (K A : Complex) → (not_within K A ≡ None) ↔ IsPart K A }
    ensures told { (K A : Complex) (s : List ℕ) → not_within K A ≡ Some s → (is_there A s ≡ true) × (is_there K s ≡ false) }
{}

/// A cochain of the whole has on the part the values that it has in the whole. So a cochain of the part, taken as one of the whole, has the
/// values of the part on it, and no others.
///
/// The relative cochains are those that are zero on the part.
/// The coboundary of what a cochain is on the part is what its coboundary is there.
pub fn restriction()
    ensures restricted { (K A : Complex) → IsComplex K → (c : Ids) (t y : ℕ) → t < length A → y < length K
        → simplex_at A t ≡ simplex_at K y → moved K A c t ≡ c y }
    ensures back { (K A : Complex) → IsComplex K → IsComplex A → IsPart K A → (p : ℕ) (a : Ids) → IsChain A p a
        → moved K A (moved A K a) ≡ a }
    ensures outside { (K A : Complex) (a : Ids) (y : ℕ) → is_there A (simplex_at K y) ≡ false → moved A K a y ≡ false }
    ensures relative { (K A : Complex) → IsComplex K → IsComplex A → IsPart K A → (p : ℕ) (c : Ids) → IsChain K p c
        → (moved K A c ≡ empty) ↔ IsRelativeChain K A p c }
    ensures coboundary { (K A : Complex) → IsComplex K → IsComplex A → IsPart K A → (c : Ids)
        → coboundary A (moved K A c) ≡ moved K A (coboundary K c) }
{}

/// The maps of the sequence take cocycles to cocycles: a cocycle of the whole is one on the part, a relative cocycle is one of the whole, and
/// the connecting cochain of a cocycle of the part is a relative cocycle.
pub fn cocycles_of_the_pair()
    ensures restricted { (K A : Complex) → IsComplex K → IsComplex A → IsPart K A → (p : ℕ) (z : Ids) → IsCocycle K p z
        → IsCocycle A p (moved K A z) }
    ensures included { (K A : Complex) (p : ℕ) (r : Ids) → IsRelativeCocycle K A p r → IsCocycle K p r }
    ensures connected { (K A : Complex) → IsComplex K → IsComplex A → IsPart K A → (p : ℕ) (a : Ids) → IsCocycle A p a
        → IsRelativeCocycle K A (p + 1) (connecting_cochain K A a) }
{}

/// Beside the empty complex the relative kinds and Betti numbers of K are its own; beside K itself there are none.
pub fn least_and_greatest_part()
    ensures least { (K : Complex) → IsComplex K → IsPart K []
        × ((x : ℕ) → is_relatively_positive K [] x ≡ is_positive K x)
        × ((x : ℕ) → is_relatively_bounding K [] x ≡ is_bounding K x)
        × ((p : ℕ) → relative_betti K [] p ≡ betti K p) }
    ensures greatest { (K : Complex) → IsPart K K × ((p : ℕ) → relative_betti K K p ≡ 0) }
{}
