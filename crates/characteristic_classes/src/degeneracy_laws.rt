//! The laws of degenerate classes, each as the contract of a function that does nothing.
ghost use Rattle.std.specs.Prelude.{◌≡◌, ◌↔◌, ℕ, ◌-◌, ◌<◌, ◌≤◌, true, false, List, [], ◌∷◌, ◌++◌, slice_index_or, None, Some};
ghost use Rattle.std.specs.List.{All};
ghost use Rattle.homology.specs.Sets.{empty};
ghost use Rattle.homology.specs.ListSums.{odd_over, sum_over};
ghost use Rattle.homology.specs.Complexes.{Complex, IsComplex};
ghost use Rattle.homology.specs.Kinds.{betti};
ghost use Rattle.cohomology.specs.Classes.{IsClass};
ghost use Rattle.manifolds.specs.Closed.{top};
ghost use Rattle.characteristic_classes.specs.Pairings.{pair, row, is_degenerate, first_degenerate, IsFirstDegenerate};

/// A class word is degenerate exactly where the rows of its numbers add up to zero.
pub fn degenerate_by_rows()
    ensures { (K : Complex) → IsComplex K → (p : ℕ) (v : List ℕ) → IsClass K p v
        → (is_degenerate K p v ≡ true)
        ↔ ((k : ℕ) → k < betti K (top K - p) → odd_over v (λ j. pair K p (j ∷ []) (k ∷ [])) ≡ false) }
{}

/// So it is degenerate exactly where the sum of these rows, as sets of places, is empty.
pub fn degenerate_by_sum_of_rows()
    ensures { (K : Complex) → IsComplex K → (p : ℕ) (v : List ℕ) → IsClass K p v
        → (is_degenerate K p v ≡ true) ↔ (sum_over v (λ j q. slice_index_or (row K p j) q false) ≡ empty) }
{}

/// Two degenerate class words of one degree with the same greatest number are equal, where the zero word alone is degenerate among those
/// with lesser numbers: their sum is degenerate, and the greatest number cancels.
pub fn one_degenerate()
    ensures { (K : Complex) → IsComplex K → (p g : ℕ) (u v : List ℕ) → IsClass K p (u ++ g ∷ []) → IsClass K p (v ++ g ∷ [])
        → is_degenerate K p (u ++ g ∷ []) ≡ true → is_degenerate K p (v ++ g ∷ []) ≡ true
        → ((w : List ℕ) → IsClass K p w → All (λ k. k < g) w → is_degenerate K p w ≡ true → w ≡ [])
        → u ++ g ∷ [] ≡ v ++ g ∷ [] }
{}

/// The search finds no degenerate class exactly where in each degree the zero word alone is degenerate.
pub fn no_degenerate()
    ensures none { (K : Complex)
        → ((p : ℕ) → p ≤ top K → (w : List ℕ) → IsClass K p w → is_degenerate K p w ≡ true → w ≡ [])
        → first_degenerate K ≡ None }
    ensures each { (K : Complex) → IsComplex K → first_degenerate K ≡ None
        → (p : ℕ) (w : List ℕ) → IsClass K p w → is_degenerate K p w ≡ true → w ≡ [] }
{}

/// Else it finds the degenerate class word of the least degree and with the least greatest number: where in each lesser degree, and among
/// the words of this degree with lesser numbers, the zero word alone is degenerate.
pub fn first_degenerate_found()
    ensures { (K : Complex) → IsComplex K → (p g : ℕ) (u : List ℕ) → IsClass K p (u ++ g ∷ [])
        → is_degenerate K p (u ++ g ∷ []) ≡ true
        → ((q : ℕ) → q < p → (w : List ℕ) → IsClass K q w → is_degenerate K q w ≡ true → w ≡ [])
        → ((w : List ℕ) → IsClass K p w → All (λ k. k < g) w → is_degenerate K p w ≡ true → w ≡ [])
        → first_degenerate K ≡ Some (p, u ++ g ∷ []) }
{}

/// What the search finds is that word.
pub fn first_degenerate_told()
    ensures { (K : Complex) (p : ℕ) (w : List ℕ) → first_degenerate K ≡ Some (p, w) → IsFirstDegenerate K p w }
{}

/// Where the zero word alone is degenerate there are no more classes than in the complementary degree; where this is so in both, there
/// are as many.
pub fn betti_numbers_of_dual()
    ensures few { (K : Complex) → IsComplex K → (p : ℕ) → ((w : List ℕ) → IsClass K p w → is_degenerate K p w ≡ true → w ≡ [])
        → betti K p ≤ betti K (top K - p) }
    ensures same { (K : Complex) → IsComplex K → (p : ℕ) → p ≤ top K
        → ((w : List ℕ) → IsClass K p w → is_degenerate K p w ≡ true → w ≡ [])
        → ((w : List ℕ) → IsClass K (top K - p) w → is_degenerate K (top K - p) w ≡ true → w ≡ [])
        → betti K p ≡ betti K (top K - p) }
{}
