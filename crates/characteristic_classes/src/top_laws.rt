//! The laws of the values of cochains on the fundamental cycle of a closed complex, each as the contract of a
//! function that does nothing.
ghost use Rattle.std.specs.Prelude.{◌≡◌, ℕ, ◌+◌, ◌-◌, ◌<◌, ◌≤◌, ◌%◌, false, List, [], ◌∷◌, Ok, length, nat_eq};
ghost use Rattle.std.specs.List.Sorted.{IsStrictlyIncreasing};
ghost use Rattle.homology.specs.Parity.{xor};
ghost use Rattle.homology.specs.Sets.{Ids, empty, plus, set_of, evaluate};
ghost use Rattle.homology.specs.ListSums.{odd_over};
ghost use Rattle.homology.specs.Complexes.{Complex, IsComplex, dim, simplex_at};
ghost use Rattle.homology.specs.Chains.{IsChain, IsCocycle, IsCycle, IsCoboundary, AreCohomologous};
ghost use Rattle.homology.specs.Kinds.{ids};
ghost use Rattle.cohomology.specs.Classes.{IsClass, class_of};
ghost use Rattle.products.specs.Products.{cup};
ghost use Rattle.cohomology_operations.specs.Squares.{square};
ghost use Rattle.manifolds.specs.Closed.{closed, times, top};
ghost use Rattle.characteristic_classes.specs.Pairings.{cocycle, on_top};

/// The dimension that is told of a closed complex is its dimension, and there each simplex of one dimension less lies in two of this
/// dimension.
pub fn dimension_of_closed()
    ensures dimension { (K : Complex) (n : ℕ) → closed K ≡ Ok n → n ≡ top K }
    ensures ridges { (K : Complex) (n : ℕ) → closed K ≡ Ok n → (q : ℕ) → q < length K → dim K q + 1 ≡ top K → times K (simplex_at K q) ≡ 2 }
{}

/// The sum of all simplices of the dimension of a closed complex is a cycle: its fundamental cycle.
pub fn fundamental_cycle()
    ensures { (K : Complex) → IsComplex K → (n : ℕ) → closed K ≡ Ok n → IsCycle K (top K) (set_of (ids K (top K))) }
{}

/// The value on this sum, in any complex, is that of a cochain on a chain, and it is additive.
pub fn value_on_top()
    ensures value { (K : Complex) (a : Ids) → on_top K a ≡ evaluate (length K) a (set_of (ids K (top K))) }
    ensures sum { (K : Complex) (a b : Ids) → on_top K (plus a b) ≡ xor (on_top K a) (on_top K b) }
    ensures zero { (K : Complex) → on_top K empty ≡ false }
{}

/// Of listed simplices of this dimension it is their number modulo 2.
pub fn value_of_list()
    ensures { (K : Complex) (xs : List ℕ) → IsStrictlyIncreasing xs → IsChain K (top K) (set_of xs)
        → on_top K (set_of xs) ≡ nat_eq (length xs % 2) 1 }
{}

/// In a closed complex it is zero at coboundaries, so cohomologous cocycles have one value.
pub fn value_of_class()
    ensures coboundary { (K : Complex) → IsComplex K → (n : ℕ) → closed K ≡ Ok n → (e : Ids) → IsCoboundary K (top K) e → on_top K e ≡ false }
    ensures cohomologous { (K : Complex) → IsComplex K → (n : ℕ) → closed K ≡ Ok n → (a b : Ids) → AreCohomologous K (top K) a b
        → on_top K a ≡ on_top K b }
{}

/// The value of a product of cocycles of complementary degrees on a closed complex, and that of a square, depend on the classes of the
/// cocycles alone.
pub fn values_of_operations()
    ensures product { (K : Complex) → IsComplex K → (n : ℕ) → closed K ≡ Ok n → (p : ℕ) → p ≤ top K → (a c b d : Ids)
        → AreCohomologous K p a c → AreCohomologous K (top K - p) b d → on_top K (cup K 0 a b) ≡ on_top K (cup K 0 c d) }
    ensures square { (K : Complex) → IsComplex K → (n : ℕ) → closed K ≡ Ok n → (k : ℕ) → k ≤ top K → (a b : Ids)
        → AreCohomologous K (top K - k) a b → on_top K (square K k (top K - k) a) ≡ on_top K (square K k (top K - k) b) }
    ensures class { (K : Complex) → IsComplex K → (n : ℕ) → closed K ≡ Ok n → (k : ℕ) → k ≤ top K → (a : Ids) → IsCocycle K (top K - k) a
        → on_top K (square K k (top K - k) a) ≡ on_top K (square K k (top K - k) (cocycle K (top K - k) (class_of K (top K - k) a))) }
{}

/// The value of the square of a class is additive: that of a class word is the sum of those of its numbers.
pub fn square_of_word()
    ensures { (K : Complex) → IsComplex K → (n : ℕ) → closed K ≡ Ok n → (k : ℕ) → k ≤ top K → (w : List ℕ) → IsClass K (top K - k) w
        → on_top K (square K k (top K - k) (cocycle K (top K - k) w))
        ≡ odd_over w (λ l. on_top K (square K k (top K - k) (cocycle K (top K - k) (l ∷ [])))) }
{}
