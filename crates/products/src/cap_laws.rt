//! The laws of cap products, each as the contract of a function that does nothing.
ghost use Rattle.std.specs.Prelude.{◌≡◌, ℕ, ◌+◌, length};
ghost use Rattle.homology.specs.Sets.{Ids, plus, evaluate};
ghost use Rattle.homology.specs.Complexes.{Complex, IsComplex};
ghost use Rattle.homology.specs.Chains.{IsChain, boundary, coboundary};
ghost use Rattle.products.specs.Products.{cup};
ghost use Rattle.products.specs.Caps.{cap};

/// The cap product of a cochain of degree p and a chain of degree p + q is a chain of degree q.
pub fn degree_of_cap()
    ensures { (K : Complex) → IsComplex K → (p : ℕ) (a : Ids) → IsChain K p a → (q : ℕ) (c : Ids) → IsChain K (p + q) c
        → IsChain K q (cap K p a c) }
{}

/// The cap product with a is the transpose of the cup product with a on the left: the value of a cochain b at the cap product
/// of a and c is that of the cup product of a and b at c.
pub fn cap_transposes_product()
    ensures { (K : Complex) → IsComplex K → (p : ℕ) (a : Ids) → IsChain K p a → (b c : Ids)
        → evaluate (length K) b (cap K p a c) ≡ evaluate (length K) (cup K 0 a b) c }
{}

/// The boundary of a cap product: the cap product of the coboundary, and that of the boundary.
pub fn boundary_of_cap()
    ensures { (K : Complex) → IsComplex K → (p : ℕ) (a : Ids) → IsChain K p a → (c : Ids)
        → boundary K (cap K p a c) ≡ plus (cap K (p + 1) (coboundary K a) c) (cap K p a (boundary K c)) }
{}
