//! The laws of the pairing, each as the contract of a function that does nothing.
ghost use Rattle.std.specs.Prelude.{◌≡◌, ℕ, ◌-◌, ◌<◌, ◌≤◌, Bool, false, List, [], ◌∷◌, Ok, length, slice_index_or};
ghost use Rattle.homology.specs.Sets.{Ids, set_of, image};
ghost use Rattle.homology.specs.ListSums.{odd_over, sum_over};
ghost use Rattle.homology.specs.Complexes.{Complex, IsComplex};
ghost use Rattle.homology.specs.Chains.{IsCocycle};
ghost use Rattle.homology.specs.Kinds.{ids, betti};
ghost use Rattle.homology.specs.Contractions.{IsContraction};
ghost use Rattle.cohomology.specs.Classes.{IsClass, essential_at, class_of};
ghost use Rattle.products.specs.Products.{cup};
ghost use Rattle.products.specs.Caps.{cap};
ghost use Rattle.manifolds.specs.Closed.{closed, top};
ghost use Rattle.characteristic_classes.specs.Pairings.{cocycle, on_top, pair, pairing, row};

/// A class number below the Betti number is a class word, and the canonical cocycle of a class word is the sum of those of its numbers.
pub fn cocycle_of_word()
    ensures one { (K : Complex) (p k : ℕ) → k < betti K p → IsClass K p (k ∷ []) }
    ensures cocycle { (K : Complex) → IsComplex K → (p : ℕ) (w : List ℕ) → IsClass K p w → IsCocycle K p (cocycle K p w) }
    ensures terms { (K : Complex) → IsComplex K → (p : ℕ) (w : List ℕ) → IsClass K p w
        → cocycle K p w ≡ sum_over w (λ j. cocycle K p (j ∷ [])) }
{}

/// The pairing of a degree has a row for each class, and the row an entry for each class of the complementary degree: whether the two pair
/// to 1. Past its end an entry is read as zero.
pub fn entries_of_pairing()
    ensures count { (K : Complex) (p : ℕ) → length (pairing K p) ≡ betti K p }
    ensures row { (K : Complex) (p j : ℕ) (d : List Bool) → j < betti K p → slice_index_or (pairing K p) j d ≡ row K p j }
    ensures width { (K : Complex) (p j : ℕ) → length (row K p j) ≡ betti K (top K - p) }
    ensures entry { (K : Complex) (p j k : ℕ) → k < betti K (top K - p) → slice_index_or (row K p j) k false ≡ pair K p (j ∷ []) (k ∷ []) }
    ensures beyond { (K : Complex) (p j k : ℕ) → betti K (top K - p) ≤ k → slice_index_or (row K p j) k false ≡ false }
{}

/// A row of the pairing by the contraction: f of the cap product of the canonical cocycle of the class and the sum of all simplices of
/// the dimension, read at the essential simplices of the complementary degree. The complex need not be closed.
pub fn row_by_contraction()
    ensures row { (K : Complex) → IsComplex K → (f g phi : ℕ → Ids) → IsContraction K f g phi → (p : ℕ) (v : List ℕ) → IsClass K p v
        → (k : ℕ) → k < betti K (top K - p)
        → pair K p v (k ∷ []) ≡ image (length K) f (cap K p (cocycle K p v) (set_of (ids K (top K)))) (essential_at K (top K - p) k) }
    ensures of_chain { (K : Complex) → IsComplex K → (p : ℕ) (v : List ℕ) → IsClass K p v → (c : Ids)
        → ((f g phi : ℕ → Ids) → IsContraction K f g phi
        → image (length K) f (cap K p (cocycle K p v) (set_of (ids K (top K)))) ≡ c)
        → (k : ℕ) → k < betti K (top K - p) → pair K p v (k ∷ []) ≡ c (essential_at K (top K - p) k) }
{}

/// The pairing is additive: that of class words is the sum of its entries.
pub fn pairing_of_words()
    ensures first { (K : Complex) → IsComplex K → (p : ℕ) (v : List ℕ) → IsClass K p v → (w : List ℕ)
        → pair K p v w ≡ odd_over v (λ j. pair K p (j ∷ []) w) }
    ensures second { (K : Complex) → IsComplex K → (p : ℕ) (v w : List ℕ) → IsClass K (top K - p) w
        → pair K p v w ≡ odd_over w (λ k. pair K p v (k ∷ [])) }
    ensures entries { (K : Complex) → IsComplex K → (p : ℕ) (v w : List ℕ) → IsClass K p v → IsClass K (top K - p) w
        → pair K p v w ≡ odd_over v (λ j. odd_over w (λ k. pair K p (j ∷ []) (k ∷ []))) }
{}

/// In a closed complex the pairing is symmetric, and it is the value of the product of any two cocycles of the classes.
pub fn pairing_of_closed()
    ensures symmetric { (K : Complex) → IsComplex K → (n : ℕ) → closed K ≡ Ok n → (p : ℕ) → p ≤ top K → (v w : List ℕ) → IsClass K p v
        → IsClass K (top K - p) w → pair K p v w ≡ pair K (top K - p) w v }
    ensures classes { (K : Complex) → IsComplex K → (n : ℕ) → closed K ≡ Ok n → (p : ℕ) → p ≤ top K → (a b : Ids) → IsCocycle K p a
        → IsCocycle K (top K - p) b → on_top K (cup K 0 a b) ≡ pair K p (class_of K p a) (class_of K (top K - p) b) }
{}
