//! The laws of Stiefel-Whitney classes, each as the contract of a function that does nothing.
ghost use Rattle.std.specs.Prelude.{◌≡◌, ℕ, List, Ok};
ghost use Rattle.std.specs.List.{All, sum};
ghost use Rattle.homology.specs.Sets.{Ids};
ghost use Rattle.homology.specs.Complexes.{Complex, IsComplex};
ghost use Rattle.homology.specs.Chains.{IsCocycle, AreCohomologous};
ghost use Rattle.cohomology.specs.Classes.{IsClass};
ghost use Rattle.manifolds.specs.Closed.{closed, top};
ghost use Rattle.characteristic_classes.specs.Pairings.{on_top};
ghost use Rattle.characteristic_classes.specs.WuClasses.{product, product_of, whitney_class, whitney_cochain};

/// The sum of squares of Wu classes is a cocycle, and the Stiefel-Whitney class is its class word.
pub fn whitney_class_of_cocycle()
    ensures cocycle { (K : Complex) → IsComplex K → (k : ℕ) → IsCocycle K k (whitney_cochain K k) }
    ensures word { (K : Complex) → IsComplex K → (k : ℕ) → IsClass K k (whitney_class K k) }
{}

/// The product of Stiefel-Whitney classes is a cocycle whose degree is the sum of theirs.
pub fn product_of_whitney_classes()
    ensures { (K : Complex) → IsComplex K → (parts : List ℕ) → IsCocycle K (sum parts) (product K parts) }
{}

/// A Stiefel-Whitney number is the value of the product of any cocycles of the classes.
pub fn number_of_classes()
    ensures { (K : Complex) → IsComplex K → (n : ℕ) → closed K ≡ Ok n → (a : ℕ → Ids) (parts : List ℕ)
        → All (λ k. AreCohomologous K k (a k) (whitney_cochain K k)) parts → sum parts ≡ top K
        → on_top K (product_of K a parts) ≡ on_top K (product K parts) }
{}
