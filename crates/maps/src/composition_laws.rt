//! The laws of one map after another, each as the contract of a function that does nothing.
ghost use Rattle.std.specs.Prelude.{◌≡◌, ℕ};
ghost use Rattle.homology.specs.Sets.{Ids};
ghost use Rattle.homology.specs.Complexes.{Complex, IsComplex};
ghost use Rattle.homology.specs.Chains.{IsChain};
ghost use Rattle.maps.specs.Maps.{IsMap, pull};

/// A map from K to A and then one from A to B are a map from K to B, and a cochain of B is pulled back along it as it is along the
/// two in turn.
pub fn composition()
    ensures map { (K A B : Complex) → IsComplex A → (m l : ℕ → ℕ) → IsMap K A m → IsMap A B l → IsMap K B (λ u. l (m u)) }
    ensures pulled { (K A B : Complex) → IsComplex K → IsComplex A → IsComplex B → (m l : ℕ → ℕ) → IsMap K A m → IsMap A B l → (c : Ids)
        → pull K A m (pull A B l c) ≡ pull K B (λ u. l (m u)) c }
{}

/// The map that leaves each vertex where it is, is one, and leaves each cochain.
pub fn identity()
    ensures map { (K : Complex) → IsComplex K → IsMap K K (λ u. u) }
    ensures pulled { (K : Complex) → IsComplex K → (p : ℕ) (b : Ids) → IsChain K p b → pull K K (λ u. u) b ≡ b }
{}
