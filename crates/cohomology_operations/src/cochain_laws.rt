//! The laws of coboundaries and of products of cocycles, as sets of simplices, each as the contract of a function that does
//! nothing.
ghost use Rattle.std.specs.Prelude.{◌≡◌, ℕ, suc};
ghost use Rattle.homology.specs.Sets.{Ids, empty, plus};
ghost use Rattle.homology.specs.Complexes.{Complex, IsComplex};
ghost use Rattle.homology.specs.Chains.{IsCocycle, coboundary};
ghost use Rattle.products.specs.Products.{cup, cup_below};

/// A coboundary has no coboundary. Cocycles are the cochains whose coboundary is empty as a set, also past the last id.
pub fn coboundary_of_coboundary()
    ensures twice { (K : Complex) → IsComplex K → (a : Ids) → coboundary K (coboundary K a) ≡ empty }
    ensures of_cocycle { (K : Complex) → IsComplex K → (p : ℕ) (a : Ids) → IsCocycle K p a → coboundary K a ≡ empty }
{}

/// The product with index 0 of sets without a coboundary changes by a coboundary, where each factor changes by one.
pub fn product_of_changes()
    ensures { (K : Complex) → IsComplex K → (a b : Ids) → coboundary K a ≡ empty → coboundary K b ≡ empty → (u v : Ids)
        → plus (cup K 0 (plus a (coboundary K u)) (plus b (coboundary K v))) (cup K 0 a b)
        ≡ coboundary K (plus (plus (cup K 0 u b) (cup K 0 a v)) (cup K 0 u (coboundary K v))) }
{}

/// The two products of index i of sets without a coboundary, one with the factors exchanged, differ by the coboundary of the next
/// product.
pub fn product_exchanged()
    ensures { (K : Complex) → IsComplex K → (i : ℕ) (a b : Ids) → coboundary K a ≡ empty → coboundary K b ≡ empty
        → plus (cup K i a b) (cup K i b a) ≡ coboundary K (cup K (suc i) a b) }
{}

/// The product of index i of a sum with itself, where the terms have no coboundary, is the sum of those of the terms and the
/// coboundary of their next product.
pub fn square_of_sum()
    ensures { (K : Complex) → IsComplex K → (i : ℕ) (a b : Ids) → coboundary K a ≡ empty → coboundary K b ≡ empty
        → plus (cup K i (plus a b) (plus a b)) (plus (cup K i a a) (cup K i b b)) ≡ coboundary K (cup K (suc i) a b) }
{}

/// The product of index i with itself, of a set without a coboundary, changes by a coboundary, where the set changes by one.
pub fn square_of_change()
    ensures { (K : Complex) → IsComplex K → (i : ℕ) (a : Ids) → coboundary K a ≡ empty → (u : Ids)
        → plus (cup K i (plus a (coboundary K u)) (plus a (coboundary K u))) (cup K i a a)
        ≡ coboundary K (plus (plus (cup K (suc i) a (coboundary K u)) (cup K i u (coboundary K u))) (cup_below K i u u)) }
{}
