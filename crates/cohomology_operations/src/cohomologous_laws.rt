//! The laws of cocycles of one class, each as the contract of a function that does nothing.
ghost use Rattle.std.specs.Prelude.{◌≡◌, ◌≢◌, ◌↔◌, ℕ, ◌+◌, ◌<◌, [], Ok, Err};
ghost use Rattle.homology.specs.Sets.{Ids, plus, set_of};
ghost use Rattle.homology.specs.Complexes.{Complex, IsComplex, simplex_at};
ghost use Rattle.homology.specs.Chains.{IsCocycle, AreCohomologous};
ghost use Rattle.homology.specs.Kinds.{betti};
ghost use Rattle.cohomology.specs.Classes.{essential_at, class_of};
ghost use Rattle.products.specs.Products.{cup};
ghost use Rattle.cohomology_operations.specs.Squares.{square};
ghost use Rattle.cohomology_operations.specs.Bocksteins.{bockstein};
ghost use Rattle.cohomology_operations.specs.Cohomologous.{NotCohomologous, Degrees, Differs, cohomologous};

/// The test of two cocycles passes exactly where they have one degree and are cohomologous, so where their class words are the same. Of two
/// degrees these are told. Of one degree the essential simplex of the first number is told that is in one of the two class words
/// alone.
pub fn cohomologous()
    ensures cohomologous { (K : Complex) → IsComplex K → (p : ℕ) (a b : Ids) → IsCocycle K p a → IsCocycle K p b
        → (cohomologous K (p, a) (p, b) ≡ Ok tt) ↔ AreCohomologous K p a b }
    ensures degrees { (K : Complex) (p q : ℕ) (a b : Ids) → p ≢ q → cohomologous K (p, a) (q, b) ≡ Err (Degrees p q) }
    ensures differs { (K : Complex) → IsComplex K → (p : ℕ) (a b : Ids) → IsCocycle K p a → IsCocycle K p b → (why : NotCohomologous)
        → cohomologous K (p, a) (p, b) ≡ Err why
        → (k : ℕ) × (why ≡ Differs (simplex_at K (essential_at K p k))) × (k < betti K p)
        × (set_of (class_of K p a) k ≢ set_of (class_of K p b) k)
        × ((j : ℕ) → j < k → set_of (class_of K p a) j ≡ set_of (class_of K p b) j) }
{}

/// The sums of the products, of the squares and of the Bocksteins of cohomologous cocycles are of the zero class: they are
/// coboundaries.
pub fn results_of_cohomologous_cocycles()
    ensures product { (K : Complex) → IsComplex K → (p p2 q q2 : ℕ) (a a2 b b2 : Ids) → IsCocycle K p a → IsCocycle K p2 a2
        → IsCocycle K q b → IsCocycle K q2 b2 → cohomologous K (p, a) (p2, a2) ≡ Ok tt → cohomologous K (q, b) (q2, b2) ≡ Ok tt
        → class_of K (p + q) (plus (cup K 0 a b) (cup K 0 a2 b2)) ≡ [] }
    ensures square { (K : Complex) → IsComplex K → (k p p2 : ℕ) (a a2 : Ids) → IsCocycle K p a → IsCocycle K p2 a2
        → cohomologous K (p, a) (p2, a2) ≡ Ok tt → class_of K (p + k) (plus (square K k p a) (square K k p a2)) ≡ [] }
    ensures bockstein { (K : Complex) → IsComplex K → (p p2 : ℕ) (a a2 : Ids) → IsCocycle K p a → IsCocycle K p2 a2
        → cohomologous K (p, a) (p2, a2) ≡ Ok tt → class_of K (p + 1) (plus (bockstein K a) (bockstein K a2)) ≡ [] }
{}
