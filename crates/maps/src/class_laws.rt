//! The laws of maps on products and classes, each as the contract of a function that does nothing.
ghost use Rattle.std.specs.Prelude.{◌≡◌, ℕ};
ghost use Rattle.homology.specs.Sets.{Ids};
ghost use Rattle.homology.specs.Complexes.{Complex, IsComplex};
ghost use Rattle.homology.specs.Chains.{IsCocycle, AreCohomologous};
ghost use Rattle.cohomology.specs.Classes.{class_of};
ghost use Rattle.products.specs.Products.{cup};
ghost use Rattle.cohomology_operations.specs.Squares.{square};
ghost use Rattle.maps.specs.Maps.{IsMap, pull};

/// The cup-i product of two cochains that are pulled back is the pull of their product, as a set of simplices, for every i.
pub fn product_of_pulls()
    ensures { (K A : Complex) → IsComplex K → IsComplex A → (m : ℕ → ℕ) → IsMap K A m → (i : ℕ) (b c : Ids)
        → cup K i (pull K A m b) (pull K A m c) ≡ pull K A m (cup A i b c) }
{}

/// So the square of a cochain that is pulled back is the pull of its square.
pub fn square_of_pull()
    ensures { (K A : Complex) → IsComplex K → IsComplex A → (m : ℕ → ℕ) → IsMap K A m → (e p : ℕ) (b : Ids)
        → square K e p (pull K A m b) ≡ pull K A m (square A e p b) }
{}

/// The pull of a cocycle is a cocycle. Cohomologous cocycles have cohomologous pulls, so the class word of the pull depends on that
/// of the cocycle alone.
pub fn pull_of_class()
    ensures cocycle { (K A : Complex) → IsComplex K → IsComplex A → (m : ℕ → ℕ) → IsMap K A m → (p : ℕ) (b : Ids)
        → IsCocycle A p b → IsCocycle K p (pull K A m b) }
    ensures cohomologous { (K A : Complex) → IsComplex K → IsComplex A → (m : ℕ → ℕ) → IsMap K A m → (p : ℕ) (b c : Ids)
        → AreCohomologous A p b c → AreCohomologous K p (pull K A m b) (pull K A m c) }
    ensures class { (K A : Complex) → IsComplex K → IsComplex A → (m : ℕ → ℕ) → IsMap K A m → (p : ℕ) (b c : Ids)
        → IsCocycle A p b → IsCocycle A p c → class_of A p b ≡ class_of A p c
        → class_of K p (pull K A m b) ≡ class_of K p (pull K A m c) }
{}
