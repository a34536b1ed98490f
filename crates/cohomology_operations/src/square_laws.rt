//! The laws of Steenrod squares, each as the contract of a function that does nothing.
ghost use Rattle.std.specs.Prelude.{◌≡◌, ℕ, ◌+◌, ◌<◌};
ghost use Rattle.homology.specs.Sets.{Ids, empty, plus};
ghost use Rattle.homology.specs.Complexes.{Complex, IsComplex};
ghost use Rattle.homology.specs.Chains.{IsChain, IsCocycle, AreCohomologous};
ghost use Rattle.cohomology.specs.Classes.{class_of};
ghost use Rattle.products.specs.Products.{cup};
ghost use Rattle.cohomology_operations.specs.Squares.{square};

/// Sq^k of a cocycle of degree p is a cocycle of degree p + k. Cohomologous cocycles have cohomologous
/// squares, so the class word of the square depends on that of the cocycle alone.
pub fn square_of_class()
    ensures cocycle { (K : Complex) → IsComplex K → (k p : ℕ) (a : Ids) → IsCocycle K p a → IsCocycle K (p + k) (square K k p a) }
    ensures cohomologous { (K : Complex) → IsComplex K → (k p : ℕ) (a b : Ids) → AreCohomologous K p a b
        → AreCohomologous K (p + k) (square K k p a) (square K k p b) }
    ensures class { (K : Complex) → IsComplex K → (k p : ℕ) (a b : Ids) → IsCocycle K p a → IsCocycle K p b
        → class_of K p a ≡ class_of K p b → class_of K (p + k) (square K k p a) ≡ class_of K (p + k) (square K k p b) }
{}

/// Squares of classes are additive: the square of a sum of cocycles is cohomologous to the sum of their squares.
pub fn square_is_additive()
    ensures { (K : Complex) → IsComplex K → (k p : ℕ) (a b : Ids) → IsCocycle K p a → IsCocycle K p b
        → AreCohomologous K (p + k) (square K k p (plus a b)) (plus (square K k p a) (square K k p b)) }
{}

/// Sq^0 is the cochain itself, in the degree p Sq^p is the product of the cochain with itself, and
/// beyond p it is zero. A square has the dimension p + k alone.
pub fn squares_by_degree()
    ensures zero { (K : Complex) → IsComplex K → (p : ℕ) (a : Ids) → IsChain K p a → square K 0 p a ≡ a }
    ensures degree { (K : Complex) (p : ℕ) (a : Ids) → square K p p a ≡ cup K 0 a a }
    ensures beyond { (K : Complex) (k p : ℕ) (a : Ids) → p < k → square K k p a ≡ empty }
    ensures chain { (K : Complex) → IsComplex K → (k p : ℕ) (a : Ids) → IsChain K p a → IsChain K (p + k) (square K k p a) }
{}
