//! The laws of canonical cocycles, each as the contract of a function that does nothing.
ghost use Rattle.std.specs.Prelude.{◌≡◌, ℕ, ◌<◌, List, [], ◌∷◌, map, length};
ghost use Rattle.std.specs.List.Sorted.{IsStrictlyIncreasing};
ghost use Rattle.homology.specs.Sets.{Ids, plus, set_of, evaluate};
ghost use Rattle.homology.specs.ListSums.{odd_over};
ghost use Rattle.homology.specs.Complexes.{Complex, IsComplex};
ghost use Rattle.homology.specs.Kinds.{betti};
ghost use Rattle.homology.specs.Contractions.{IsContraction};
ghost use Rattle.cohomology.specs.Classes.{essential_at, IsClass, simplices_of, IsCanonical, canonical};

/// Each class word has exactly one canonical cocycle, and the search finds it, as an ascending list.
pub fn one_canonical()
    ensures found { (K : Complex) → IsComplex K → (p : ℕ) (w : List ℕ) → IsClass K p w
        → IsCanonical K p w (set_of (canonical K p w)) × IsStrictlyIncreasing (canonical K p w) }
    ensures one { (K : Complex) → IsComplex K → (p : ℕ) (w : List ℕ) (a b : Ids) → IsCanonical K p w a → IsCanonical K p w b → a ≡ b }
{}

/// By the contraction: the canonical cocycle of one class has the simplices t with the essential simplex of the class in f t,
/// and that of a word is the sum of those of its classes: the values at f t of the simplices of the word.
pub fn canonical_by_contraction()
    ensures class { (K : Complex) → IsComplex K → (f g phi : ℕ → Ids) → IsContraction K f g phi → (p k : ℕ) → k < betti K p
        → (t : ℕ) → t < length K → set_of (canonical K p (k ∷ [])) t ≡ f t (essential_at K p k) }
    ensures word { (K : Complex) → IsComplex K → (f g phi : ℕ → Ids) → IsContraction K f g phi → (p : ℕ) (w : List ℕ) → IsClass K p w
        → (t : ℕ) → t < length K → set_of (canonical K p w) t ≡ odd_over (map (essential_at K p) w) (f t) }
    ensures values { (K : Complex) → IsComplex K → (f g phi : ℕ → Ids) → IsContraction K f g phi → (p : ℕ) (w : List ℕ) → IsClass K p w
        → (t : ℕ) → t < length K → set_of (canonical K p w) t ≡ evaluate (length K) (simplices_of K p w) (f t) }
{}

/// The canonical cocycle of a sum of words is the sum of theirs.
pub fn canonical_of_sum()
    ensures { (K : Complex) → IsComplex K → (p : ℕ) (w v s : List ℕ) → IsClass K p w → IsClass K p v → IsClass K p s
        → set_of s ≡ plus (set_of w) (set_of v)
        → set_of (canonical K p s) ≡ plus (set_of (canonical K p w)) (set_of (canonical K p v)) }
{}
