//! The relative cohomology of a pair is the reduced cohomology of the whole with a cone over the part: L, with the apex v. A relative cochain goes
//! to the cochain of L that is zero at all other simplices. Each law is the contract of a function that does nothing.
ghost use Rattle.std.specs.Prelude.{◌≡◌, ℕ, suc, true, false, List, [], ◌∷◌};
ghost use Rattle.std.specs.List.Sorted.{IsStrictlyIncreasing};
ghost use Rattle.homology.specs.Sets.{Ids, plus};
ghost use Rattle.homology.specs.Complexes.{Complex, IsComplex};
ghost use Rattle.homology.specs.Growth.{is_there};
ghost use Rattle.homology.specs.Chains.{IsCocycle, IsCoboundary};
ghost use Rattle.products.specs.Products.{value_at};
ghost use Rattle.pairs.specs.Pairs.{IsPart, moved, IsRelativeCocycle, IsRelativeCoboundary};
ghost use Rattle.pairs.specs.Cones.{IsConed, with_cone};

/// Where v may stand in front of the simplices of K, there is such a complex.
pub fn cone_exists()
    ensures { (K A : Complex) (v : ℕ) → IsComplex K → IsComplex A → IsPart K A
        → ((t : List ℕ) → is_there K t ≡ true → IsStrictlyIncreasing (v ∷ t))
        → IsComplex (with_cone K A v) × IsConed K A v (with_cone K A v) }
{}

/// Relative cocycles go to cocycles, relative coboundaries to coboundaries, and only these.
pub fn relative_to_cone()
    ensures cocycle { (K A L : Complex) (v : ℕ) → IsComplex K → IsComplex A → IsComplex L → IsPart K A → IsConed K A v L → (p : ℕ) (r : Ids)
        → IsRelativeCocycle K A p r → IsCocycle L p (moved K L r) }
    ensures bounding { (K A L : Complex) (v : ℕ) → IsComplex K → IsComplex A → IsComplex L → IsPart K A → IsConed K A v L → (p : ℕ) (r : Ids)
        → IsRelativeCoboundary K A p r → IsCoboundary L p (moved K L r) }
    ensures coboundary { (K A L : Complex) (v : ℕ) → IsComplex K → IsComplex A → IsComplex L → IsPart K A → IsConed K A v L → (p : ℕ) (r : Ids)
        → IsRelativeCocycle K A (suc p) r → IsCoboundary L (suc p) (moved K L r) → IsRelativeCoboundary K A (suc p) r }
{}

/// A cocycle of L of degree 1 or more differs by a coboundary from what some relative cocycle goes to. One of degree 0 that is zero at the apex is
/// what a relative cocycle goes to: the classes of degree 0 that are zero at a point are the reduced ones.
pub fn cone_to_relative()
    ensures onto { (K A L : Complex) (v : ℕ) → IsComplex K → IsComplex A → IsComplex L → IsPart K A → IsConed K A v L → (p : ℕ) (c : Ids)
        → IsCocycle L (suc p) c → (r : Ids) × IsRelativeCocycle K A (suc p) r × IsCoboundary L (suc p) (plus c (moved K L r)) }
    ensures zero { (K A L : Complex) (v : ℕ) → IsComplex K → IsComplex A → IsComplex L → IsPart K A → IsConed K A v L → (c : Ids)
        → IsCocycle L 0 c → value_at L c (v ∷ []) ≡ false → (r : Ids) × IsRelativeCocycle K A 0 r × (c ≡ moved K L r) }
{}
