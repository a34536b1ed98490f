//! The laws of the Bockstein, each as the contract of a function that does nothing.
ghost use Rattle.std.specs.Prelude.{◌≡◌, ℕ, ◌+◌, ◌%◌, false, ◌<◌, length};
ghost use Rattle.homology.specs.Sets.{Ids, empty, plus};
ghost use Rattle.homology.specs.Complexes.{Complex, IsComplex, simplex_at};
ghost use Rattle.homology.specs.Chains.{IsCocycle, AreCohomologous, coboundary};
ghost use Rattle.cohomology.specs.Classes.{class_of};
ghost use Rattle.products.specs.Products.{value_at};
ghost use Rattle.cohomology_operations.specs.Squares.{square};
ghost use Rattle.cohomology_operations.specs.Bocksteins.{faces_with, difference, bockstein};

/// At a simplex at which a cochain has no coboundary the difference that the Bockstein halves is even.
pub fn bockstein_halves()
    ensures { (K : Complex) → IsComplex K → (a : Ids) (x : ℕ) → x < length K → coboundary K a x ≡ false
        → difference (faces_with (value_at K a) 0 (simplex_at K x)) (faces_with (value_at K a) 1 (simplex_at K x)) % 2 ≡ 0 }
{}

/// The Bockstein of a cocycle is its Sq^1, as a set of simplices. In degree 0 both are empty.
pub fn bockstein_is_square()
    ensures square { (K : Complex) → IsComplex K → (p : ℕ) (a : Ids) → IsCocycle K p a → bockstein K a ≡ square K 1 p a }
    ensures degree_zero { (K : Complex) → IsComplex K → (a : Ids) → IsCocycle K 0 a → bockstein K a ≡ empty }
{}

/// The Bockstein of a cocycle of degree p is a cocycle of degree p + 1. Cohomologous cocycles have cohomologous Bocksteins, so
/// the class word of the Bockstein depends on that of the cocycle alone; and it is additive.
pub fn bockstein_of_class()
    ensures cocycle { (K : Complex) → IsComplex K → (p : ℕ) (a : Ids) → IsCocycle K p a → IsCocycle K (p + 1) (bockstein K a) }
    ensures cohomologous { (K : Complex) → IsComplex K → (p : ℕ) (a b : Ids) → AreCohomologous K p a b
        → AreCohomologous K (p + 1) (bockstein K a) (bockstein K b) }
    ensures class { (K : Complex) → IsComplex K → (p : ℕ) (a b : Ids) → IsCocycle K p a → IsCocycle K p b
        → class_of K p a ≡ class_of K p b → class_of K (p + 1) (bockstein K a) ≡ class_of K (p + 1) (bockstein K b) }
    ensures sum { (K : Complex) → IsComplex K → (p : ℕ) (a b : Ids) → IsCocycle K p a → IsCocycle K p b
        → AreCohomologous K (p + 1) (bockstein K (plus a b)) (plus (bockstein K a) (bockstein K b)) }
{}
