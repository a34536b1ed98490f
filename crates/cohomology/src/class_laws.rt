//! The laws of class words, each as the contract of a function that does nothing.
ghost use Rattle.std.specs.Prelude.{◌≡◌, ◌↔◌, ℕ, ◌<◌, true, List, [], map, length};
ghost use Rattle.std.specs.List.{filter, range_with_len};
ghost use Rattle.std.specs.List.Sorted.{IsStrictlyIncreasing};
ghost use Rattle.homology.specs.Parity.{xor};
ghost use Rattle.homology.specs.Sets.{Ids, single, plus, set_of, evaluate};
ghost use Rattle.homology.specs.ListSums.{sum_over};
ghost use Rattle.homology.specs.Complexes.{Complex, IsComplex, dim};
ghost use Rattle.homology.specs.Chains.{IsCocycle, IsCoboundary, coboundary};
ghost use Rattle.homology.specs.Kinds.{is_essential, betti};
ghost use Rattle.homology.specs.Contractions.{IsContraction};
ghost use Rattle.cohomology.specs.Classes.{essentials, essential_at, IsClass, simplices_of, canonical, class_of};

/// The essential simplices of a degree, ascending, are numbered from 0: each number below the Betti number belongs to one, and each
/// of them has a number. The simplices of a word have that of a number exactly where the word has the number, and
/// are their sum.
pub fn class_numbers()
    ensures count { (K : Complex) (p : ℕ) → length (essentials K p) ≡ betti K p }
    ensures ascending { (K : Complex) (p : ℕ) → IsStrictlyIncreasing (essentials K p) }
    ensures essential { (K : Complex) (p k : ℕ) → k < betti K p
        → (is_essential K (essential_at K p k) ≡ true) × (essential_at K p k < length K) × (dim K (essential_at K p k) ≡ p) }
    ensures number { (K : Complex) → IsComplex K → (p h : ℕ) → is_essential K h ≡ true → dim K h ≡ p
        → (k : ℕ) × (k < betti K p) × (essential_at K p k ≡ h) }
    ensures word { (K : Complex) (p : ℕ) (w : List ℕ) → IsClass K p w → (k : ℕ) → k < betti K p
        → simplices_of K p w (essential_at K p k) ≡ set_of w k }
    ensures terms { (K : Complex) (p : ℕ) (w : List ℕ) → IsClass K p w → simplices_of K p w ≡ sum_over (map (essential_at K p) w) single }
{}

/// Each cocycle differs by a coboundary from the canonical cocycle of exactly one class word, and the search finds that word. So
/// class words and classes of cocycles correspond one to one.
pub fn one_class()
    ensures found { (K : Complex) → IsComplex K → (p : ℕ) (a : Ids) → IsCocycle K p a
        → IsClass K p (class_of K p a) × IsCoboundary K p (plus a (set_of (canonical K p (class_of K p a)))) }
    ensures one { (K : Complex) → IsComplex K → (p : ℕ) (a : Ids) (w v : List ℕ) → IsClass K p w → IsClass K p v
        → IsCoboundary K p (plus a (set_of (canonical K p w))) → IsCoboundary K p (plus a (set_of (canonical K p v))) → w ≡ v }
    ensures canonical { (K : Complex) → IsComplex K → (p : ℕ) (w : List ℕ) → IsClass K p w → class_of K p (set_of (canonical K p w)) ≡ w }
{}

/// By the contraction: the class word of a cocycle a has the k with a(g h) = 1 for the essential simplex h of k, and with u(y) =
/// a(phi y) the sum of a and the coboundary of u is the canonical cocycle of that word.
pub fn class_by_contraction()
    ensures class { (K : Complex) → IsComplex K → (f g phi : ℕ → Ids) → IsContraction K f g phi → (p : ℕ) (a : Ids) → IsCocycle K p a
        → class_of K p a ≡ filter (λ k. evaluate (length K) a (g (essential_at K p k))) (range_with_len 0 (betti K p)) }
    ensures bound { (K : Complex) → IsComplex K → (f g phi : ℕ → Ids) → IsContraction K f g phi → (p : ℕ) (a : Ids) → IsCocycle K p a
        → (x : ℕ) → x < length K
        → xor (a x) (coboundary K (λ y. evaluate (length K) a (phi y)) x) ≡ set_of (canonical K p (class_of K p a)) x }
{}

/// Two cocycles have one class word exactly where their sum is a coboundary, and a cocycle is a coboundary exactly where its
/// class word is empty.
pub fn same_class()
    ensures same { (K : Complex) → IsComplex K → (p : ℕ) (a b : Ids) → IsCocycle K p a → IsCocycle K p b
        → (class_of K p a ≡ class_of K p b) ↔ IsCoboundary K p (plus a b) }
    ensures zero { (K : Complex) → IsComplex K → (p : ℕ) (a : Ids) → IsCocycle K p a → (class_of K p a ≡ []) ↔ IsCoboundary K p a }
{}

/// The class word of a sum of cocycles is the sum of their words.
pub fn class_of_sum()
    ensures { (K : Complex) → IsComplex K → (p : ℕ) (a b : Ids) → IsCocycle K p a → IsCocycle K p b
        → set_of (class_of K p (plus a b)) ≡ plus (set_of (class_of K p a)) (set_of (class_of K p b)) }
{}
