//! The laws of maps on chains and cochains, each as the contract of a function that does nothing.
ghost use Rattle.std.specs.Prelude.{◌≡◌, ◌↔◌, ℕ, ◌<◌, ◌≤◌, true, false, List, [], ◌∷◌, map, length, None, Some};
ghost use Rattle.homology.specs.Sets.{Ids, plus, evaluate};
ghost use Rattle.homology.specs.Complexes.{Complex, IsComplex, simplex_at};
ghost use Rattle.homology.specs.Growth.{is_there};
ghost use Rattle.homology.specs.Chains.{IsChain, boundary, coboundary};
ghost use Rattle.maps.specs.Maps.{Turned, NoImage, turns, spans, has_image, refusal, IsMap, push, pull};

/// Nothing is refused exactly where the map keeps the order of the vertices of each edge, and each simplex has its image. An edge
/// that is told is turned; where a simplex is told, it has no image, and no edge is turned.
pub fn refusals()
    ensures accepted { (K A : Complex) (m : ℕ → ℕ) → (refusal K A m ≡ None) ↔ IsMap K A m }
    ensures turned { (K A : Complex) (m : ℕ → ℕ) (e : List ℕ) → refusal K A m ≡ Some (Turned e)
        → (is_there K e ≡ true) × (turns m e ≡ true) }
    ensures no_image { (K A : Complex) (m : ℕ → ℕ) (s : List ℕ) → refusal K A m ≡ Some (NoImage s)
        → (is_there K s ≡ true) × (has_image A m s ≡ false) × ((u v : ℕ) → is_there K (u ∷ v ∷ []) ≡ true → m u ≤ m v) }
{}

/// A cochain that is pulled back has at a simplex its value at the image, whose vertices are those of the simplex mapped one by
/// one; where the image has fewer vertices, it is zero.
pub fn values_of_pull()
    ensures at_image { (K A : Complex) → IsComplex K → IsComplex A → (m : ℕ → ℕ) → IsMap K A m → (b : Ids) (x y : ℕ)
        → x < length K → y < length A → simplex_at A y ≡ map m (simplex_at K x) → pull K A m b x ≡ b y }
    ensures collapsed { (K A : Complex) → IsComplex K → IsComplex A → (m : ℕ → ℕ) → IsMap K A m → (b : Ids) (x y : ℕ)
        → x < length K → y < length A → spans (map m (simplex_at K x)) (simplex_at A y) ≡ true
        → length (simplex_at A y) < length (simplex_at K x) → pull K A m b x ≡ false }
{}

/// Chains go to chains of the same degree, and cochains come from cochains of the same degree.
pub fn degrees_stay()
    ensures chains { (K A : Complex) (m : ℕ → ℕ) (p : ℕ) (c : Ids) → IsChain K p c → IsChain A p (push K A m c) }
    ensures cochains { (K A : Complex) → IsComplex K → IsComplex A → (m : ℕ → ℕ) → IsMap K A m → (p : ℕ) (b : Ids)
        → IsChain A p b → IsChain K p (pull K A m b) }
{}

/// The pull is the transpose of the push: the value of a cochain that is pulled back, at a chain, is that of the cochain at the image
/// of the chain. It is additive.
pub fn pull_transposes()
    ensures transpose { (K A : Complex) (m : ℕ → ℕ) (b c : Ids)
        → evaluate (length K) (pull K A m b) c ≡ evaluate (length A) b (push K A m c) }
    ensures sum { (K A : Complex) (m : ℕ → ℕ) (a b : Ids) → pull K A m (plus a b) ≡ plus (pull K A m a) (pull K A m b) }
{}

/// The push is a chain map: the boundary of the image of a chain is the image of its boundary.
pub fn chain_map()
    ensures { (K A : Complex) → IsComplex K → IsComplex A → (m : ℕ → ℕ) → IsMap K A m → (c : Ids)
        → boundary A (push K A m c) ≡ push K A m (boundary K c) }
{}

/// The coboundary of a cochain that is pulled back is the pull of its coboundary.
pub fn coboundary_of_pull()
    ensures { (K A : Complex) → IsComplex K → IsComplex A → (m : ℕ → ℕ) → IsMap K A m → (b : Ids)
        → coboundary K (pull K A m b) ≡ pull K A m (coboundary A b) }
{}
