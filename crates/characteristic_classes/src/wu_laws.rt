//! The laws of Wu classes, each as the contract of a function that does nothing.
ghost use Rattle.std.specs.Prelude.{◌≡◌, ◌↔◌, ℕ, ◌-◌, ◌<◌, ◌≤◌, true, List, [], ◌∷◌, Ok};
ghost use Rattle.homology.specs.ListSums.{odd_over};
ghost use Rattle.homology.specs.Complexes.{Complex, IsComplex};
ghost use Rattle.homology.specs.Kinds.{betti};
ghost use Rattle.cohomology.specs.Classes.{IsClass};
ghost use Rattle.cohomology_operations.specs.Squares.{square};
ghost use Rattle.manifolds.specs.Closed.{closed, top};
ghost use Rattle.characteristic_classes.specs.Pairings.{cocycle, is_degenerate, on_top, pair};
ghost use Rattle.characteristic_classes.specs.WuClasses.{is_wu, wu_class};

/// In a closed complex a class word is a Wu class exactly where the rows of its numbers add up to the values of the squares of the
/// classes of the complementary degree.
pub fn wu_by_rows()
    ensures { (K : Complex) → IsComplex K → (n : ℕ) → closed K ≡ Ok n → (k : ℕ) → k ≤ top K → (v : List ℕ) → IsClass K k v
        → (is_wu K k v ≡ true)
        ↔ ((l : ℕ) → l < betti K (top K - k)
        → odd_over v (λ j. pair K k (j ∷ []) (l ∷ [])) ≡ on_top K (square K k (top K - k) (cocycle K (top K - k) (l ∷ [])))) }
{}

/// There is a Wu class, where the zero word alone is degenerate in the complementary degree, and not two, where it is in this one. The
/// search finds it.
pub fn one_wu_class()
    ensures word { (K : Complex) (k : ℕ) → IsClass K k (wu_class K k) }
    ensures exists { (K : Complex) → IsComplex K → (n : ℕ) → closed K ≡ Ok n → (k : ℕ) → k ≤ top K
        → ((w : List ℕ) → IsClass K (top K - k) w → is_degenerate K (top K - k) w ≡ true → w ≡ [])
        → is_wu K k (wu_class K k) ≡ true }
    ensures one { (K : Complex) → IsComplex K → (n : ℕ) → closed K ≡ Ok n → (k : ℕ) → k ≤ top K
        → ((w : List ℕ) → IsClass K k w → is_degenerate K k w ≡ true → w ≡ [])
        → (v w : List ℕ) → IsClass K k v → IsClass K k w → is_wu K k v ≡ true → is_wu K k w ≡ true → v ≡ w }
    ensures found { (K : Complex) → IsComplex K → (n : ℕ) → closed K ≡ Ok n → (k : ℕ) → k ≤ top K
        → ((w : List ℕ) → IsClass K k w → is_degenerate K k w ≡ true → w ≡ [])
        → (v : List ℕ) → IsClass K k v
        → ((l : ℕ) → l < betti K (top K - k)
        → odd_over v (λ j. pair K k (j ∷ []) (l ∷ [])) ≡ on_top K (square K k (top K - k) (cocycle K (top K - k) (l ∷ []))))
        → wu_class K k ≡ v }
{}
