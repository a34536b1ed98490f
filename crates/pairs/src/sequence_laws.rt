//! The laws of the maps of the exact sequence of a pair, each as the contract of a function that does nothing.
ghost use Rattle.std.specs.Prelude.{◌≡◌, ◌↔◌, ℕ, suc, ◌<◌, ◌+◌, true, false, List, ◌∷◌, length, Some, Ok, Err};
ghost use Rattle.homology.specs.Sets.{Ids, empty, plus, set_of, evaluate};
ghost use Rattle.homology.specs.Complexes.{Complex, IsComplex, simplex_at};
ghost use Rattle.homology.specs.Growth.{is_there};
ghost use Rattle.homology.specs.Chains.{IsChain, IsCocycle, IsCoboundary, boundary};
ghost use Rattle.cohomology.specs.Searches.{first_broken};
ghost use Rattle.cohomology.specs.Classes.{essential_at, class_of};
ghost use Rattle.pairs.specs.Pairs.{IsPart, moved, IsRelativeCycle, IsRelativeCocycle};
ghost use Rattle.pairs.specs.RelativeClasses.{relative_class_of};
ghost use Rattle.pairs.specs.Sequences.{NotCocycle, Stops, OnPart, Differs, connect, extend, lift, shrink};

/// `extend` gives a cocycle of the whole that restricts to a, exactly where there is one.
///
/// Why `extend` refuses: exactly where the coboundary of a in the part is 1 at x first; or exactly where a is a cocycle and no cocycle of the whole
/// restricts to it, and then the chain that is told is a relative cycle whose boundary, in the part, has an odd number of members in a.
pub fn extending()
    ensures given { (K A : Complex) → IsComplex K → IsComplex A → IsPart K A → (p : ℕ) (a c : Ids) → IsChain A p a
        → extend K A p a ≡ Ok c → IsCocycle A p a × IsCocycle K p c × (moved K A c ≡ a) }
    ensures taken { (K A : Complex) → IsComplex K → IsComplex A → IsPart K A → (p : ℕ) (a b : Ids) → IsChain A p a
        → IsCocycle K p b → moved K A b ≡ a → (c : Ids) × (extend K A p a ≡ Ok c) }
    ensures broken { (K A : Complex) (p x : ℕ) (a : Ids) → (extend K A p a ≡ Err (NotCocycle x)) ↔ (first_broken A a ≡ Some x) }
    ensures stops { (K A : Complex) → IsComplex K → IsComplex A → IsPart K A → (p : ℕ) (a : Ids) (z : List ℕ) → IsChain A p a
        → extend K A p a ≡ Err (Stops z)
        → IsCocycle A p a × ((b : Ids) → IsCocycle K p b → moved K A b ≡ a → ⊥) × IsRelativeCycle K A (suc p) (set_of z)
        × (evaluate (length K) (moved A K a) (boundary K (set_of z)) ≡ true) }
    ensures stopped { (K A : Complex) → IsComplex K → IsComplex A → IsPart K A → (p : ℕ) (a : Ids) → IsCocycle A p a
        → ((b : Ids) → IsCocycle K p b → moved K A b ≡ a → ⊥) → (z : List ℕ) × (extend K A p a ≡ Err (Stops z)) }
{}

/// `lift` gives a cocycle of the part, exactly where r is a relative cocycle that is a coboundary in the whole; where r has degree 1 or more,
/// `connect` of it is the relative class word of r. In degree 0 both are empty.
///
/// Why `lift` refuses: exactly where the coboundary of r is 1 at x first; or r is a cocycle, and x is its first member in the part; or r is a
/// relative cocycle that is no coboundary in the whole, and then the first essential simplex of its class word there is told.
pub fn lifting()
    ensures given { (K A : Complex) → IsComplex K → (p : ℕ) (r c : Ids) → IsChain K p r
        → lift K A p r ≡ Ok c → IsRelativeCocycle K A p r × IsCoboundary K p r }
    ensures connects { (K A : Complex) → IsComplex K → IsComplex A → IsPart K A → (p : ℕ) (r c : Ids) → IsChain K (suc p) r
        → lift K A (suc p) r ≡ Ok c → IsCocycle A p c × (connect K A p c ≡ relative_class_of K A (suc p) r) }
    ensures zero { (K A : Complex) → IsComplex K → (r c : Ids) → IsChain K 0 r → lift K A 0 r ≡ Ok c
        → (r ≡ empty) × (c ≡ empty) }
    ensures taken { (K A : Complex) → IsComplex K → (p : ℕ) (r : Ids) → IsRelativeCocycle K A p r
        → IsCoboundary K p r → (c : Ids) × (lift K A p r ≡ Ok c) }
    ensures broken { (K A : Complex) (p x : ℕ) (r : Ids) → (lift K A p r ≡ Err (NotCocycle x)) ↔ (first_broken K r ≡ Some x) }
    ensures on_part { (K A : Complex) (p x : ℕ) (r : Ids) → IsChain K p r
        → lift K A p r ≡ Err (OnPart x)
        → IsCocycle K p r × (x < length K) × (r x ≡ true) × (is_there A (simplex_at K x) ≡ true)
        × ((y : ℕ) → y < x → r y ≡ true → is_there A (simplex_at K y) ≡ false) }
    ensures first_on_part { (K A : Complex) (p x : ℕ) (r : Ids) → IsCocycle K p r → x < length K → r x ≡ true
        → is_there A (simplex_at K x) ≡ true → ((y : ℕ) → y < x → r y ≡ true → is_there A (simplex_at K y) ≡ false)
        → lift K A p r ≡ Err (OnPart x) }
    ensures differs { (K A : Complex) → IsComplex K → (p h : ℕ) (r : Ids) → IsChain K p r
        → lift K A p r ≡ Err (Differs h) → IsRelativeCocycle K A p r × (IsCoboundary K p r → ⊥) }
    ensures different { (K A : Complex) → IsComplex K → (p k : ℕ) (w : List ℕ) (r : Ids) → IsRelativeCocycle K A p r
        → class_of K p r ≡ k ∷ w → lift K A p r ≡ Err (Differs (essential_at K p k)) }
{}

/// `shrink` gives a relative cocycle in the class of z, exactly where z is a cocycle that is a coboundary on the part.
///
/// Why `shrink` refuses: exactly where the coboundary of z is 1 at x first; or z is a cocycle that is no coboundary on the part, and then the
/// first essential simplex of its class word there is told.
pub fn shrinking()
    ensures given { (K A : Complex) → IsComplex K → IsComplex A → IsPart K A → (p : ℕ) (z c : Ids) → IsChain K p z
        → shrink K A p z ≡ Ok c
        → IsCocycle K p z × IsCoboundary A p (moved K A z) × IsRelativeCocycle K A p c × IsCoboundary K p (plus z c) }
    ensures taken { (K A : Complex) → IsComplex K → IsComplex A → IsPart K A → (p : ℕ) (z : Ids) → IsCocycle K p z
        → IsCoboundary A p (moved K A z) → (c : Ids) × (shrink K A p z ≡ Ok c) }
    ensures broken { (K A : Complex) (p x : ℕ) (z : Ids) → (shrink K A p z ≡ Err (NotCocycle x)) ↔ (first_broken K z ≡ Some x) }
    ensures differs { (K A : Complex) → IsComplex K → IsComplex A → IsPart K A → (p h : ℕ) (z : Ids) → IsChain K p z
        → shrink K A p z ≡ Err (Differs h) → IsCocycle K p z × (IsCoboundary A p (moved K A z) → ⊥) }
    ensures different { (K A : Complex) (p k : ℕ) (w : List ℕ) (z : Ids) → IsCocycle K p z → class_of A p (moved K A z) ≡ k ∷ w
        → shrink K A p z ≡ Err (Differs (essential_at A p k)) }
{}
