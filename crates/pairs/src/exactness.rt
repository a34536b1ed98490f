//! The exact sequence of a pair at its three places, on cocycles, each as the contract of a function that does nothing.
ghost use Rattle.std.specs.Prelude.{◌≡◌, ◌↔◌, ℕ, suc, []};
ghost use Rattle.homology.specs.Sets.{Ids, plus};
ghost use Rattle.homology.specs.Complexes.{Complex, IsComplex};
ghost use Rattle.homology.specs.Chains.{IsCocycle, IsCoboundary, AreCohomologous};
ghost use Rattle.pairs.specs.Pairs.{IsPart, moved, IsRelativeCocycle, IsRelativeCoboundary};
ghost use Rattle.pairs.specs.Sequences.{connecting_cochain, connect};
ghost use Rattle.pairs.specs.Exactness.{ComesFromWhole, ComesFromPair, ComesFromPart};

/// A class of the part comes from the whole exactly where the connecting map takes it to zero.
pub fn exact_at_the_part()
    ensures comes { (K A : Complex) → IsComplex K → IsComplex A → IsPart K A → (p : ℕ) (a : Ids) → IsCocycle A p a
        → IsRelativeCoboundary K A (suc p) (connecting_cochain K A a) → ComesFromWhole K A p a }
    ensures goes { (K A : Complex) → IsComplex K → IsComplex A → IsPart K A → (p : ℕ) (a : Ids) → IsCocycle A p a
        → ComesFromWhole K A p a → IsRelativeCoboundary K A (suc p) (connecting_cochain K A a) }
{}

/// A class of the whole comes from the pair exactly where it is zero on the part.
pub fn exact_at_the_whole()
    ensures comes { (K A : Complex) → IsComplex K → IsComplex A → IsPart K A → (p : ℕ) (z : Ids) → IsCocycle K p z
        → IsCoboundary A p (moved K A z) → ComesFromPair K A p z }
    ensures goes { (K A : Complex) → IsComplex K → IsComplex A → IsPart K A → (p : ℕ) (z : Ids) → IsCocycle K p z
        → ComesFromPair K A p z → IsCoboundary A p (moved K A z) }
{}

/// A relative class of degree 1 or more comes from the part by the connecting map exactly where it is zero in the whole. In degree 0
/// no class but zero is zero in the whole.
pub fn exact_at_the_pair()
    ensures comes { (K A : Complex) → IsComplex K → IsComplex A → IsPart K A → (p : ℕ) (r : Ids) → IsRelativeCocycle K A (suc p) r
        → IsCoboundary K (suc p) r → ComesFromPart K A p r }
    ensures goes { (K A : Complex) → IsComplex K → IsComplex A → IsPart K A → (p : ℕ) (r : Ids) → IsRelativeCocycle K A (suc p) r
        → ComesFromPart K A p r → IsCoboundary K (suc p) r }
    ensures zero { (K A : Complex) (r : Ids) → IsRelativeCocycle K A 0 r → IsCoboundary K 0 r → IsRelativeCoboundary K A 0 r }
{}

/// The three maps of the sequence take classes to classes: a coboundary of the whole is one on the part, a relative coboundary is one of the
/// whole, and cohomologous cocycles of the part connect to one relative class. The connecting map is additive, and takes a class to zero exactly
/// where it comes from the whole.
pub fn maps_on_classes()
    ensures restricted { (K A : Complex) → IsComplex K → IsComplex A → IsPart K A → (p : ℕ) (e : Ids) → IsCoboundary K p e
        → IsCoboundary A p (moved K A e) }
    ensures included { (K A : Complex) (p : ℕ) (e : Ids) → IsRelativeCoboundary K A p e → IsCoboundary K p e }
    ensures connected { (K A : Complex) → IsComplex K → IsComplex A → IsPart K A → (p : ℕ) (a b : Ids) → AreCohomologous A p a b
        → connect K A p a ≡ connect K A p b }
    ensures additive { (K A : Complex) (a b : Ids)
        → connecting_cochain K A (plus a b) ≡ plus (connecting_cochain K A a) (connecting_cochain K A b) }
    ensures zero { (K A : Complex) → IsComplex K → IsComplex A → IsPart K A → (p : ℕ) (a : Ids) → IsCocycle A p a
        → (connect K A p a ≡ []) ↔ ComesFromWhole K A p a }
{}
