//! The laws of products of classes, each as the contract of a function that does nothing.
ghost use Rattle.std.specs.Prelude.{◌≡◌, ℕ, ◌+◌};
ghost use Rattle.homology.specs.Sets.{Ids};
ghost use Rattle.homology.specs.Complexes.{Complex, IsComplex};
ghost use Rattle.homology.specs.Chains.{IsCocycle, AreCohomologous};
ghost use Rattle.cohomology.specs.Classes.{class_of};
ghost use Rattle.products.specs.Products.{cup};

/// The product with index 0 of cocycles of degrees p and q is a cocycle of degree p + q. Cohomologous factors have cohomologous
/// products, so the class word of the product depends on the class words of the factors alone.
pub fn product_of_classes()
    ensures cocycle { (K : Complex) → IsComplex K → (p q : ℕ) (a b : Ids) → IsCocycle K p a → IsCocycle K q b
        → IsCocycle K (p + q) (cup K 0 a b) }
    ensures cohomologous { (K : Complex) → IsComplex K → (p q : ℕ) (a c b d : Ids) → AreCohomologous K p a c → AreCohomologous K q b d
        → AreCohomologous K (p + q) (cup K 0 a b) (cup K 0 c d) }
    ensures class { (K : Complex) → IsComplex K → (p q : ℕ) (a c b d : Ids) → IsCocycle K p a → IsCocycle K p c → IsCocycle K q b
        → IsCocycle K q d → class_of K p a ≡ class_of K p c → class_of K q b ≡ class_of K q d
        → class_of K (p + q) (cup K 0 a b) ≡ class_of K (p + q) (cup K 0 c d) }
{}

/// Products of classes commute: the two products of cocycles are cohomologous, so they have one class word.
pub fn product_commutes()
    ensures cohomologous { (K : Complex) → IsComplex K → (p q : ℕ) (a b : Ids) → IsCocycle K p a → IsCocycle K q b
        → AreCohomologous K (p + q) (cup K 0 a b) (cup K 0 b a) }
    ensures class { (K : Complex) → IsComplex K → (p q : ℕ) (a b : Ids) → IsCocycle K p a → IsCocycle K q b
        → class_of K (p + q) (cup K 0 a b) ≡ class_of K (p + q) (cup K 0 b a) }
{}
