//! The laws of cup-i products, each as the contract of a function that does nothing.
ghost use Rattle.std.specs.Prelude.{◌≡◌, ℕ, ◌+◌, ◌<◌, Bool, true, false, not, ◌&&◌, ◌||◌, List, zero, suc, length, take, drop};
ghost use Rattle.std.specs.List.Sorted.{IsStrictlyIncreasing};
ghost use Rattle.std.specs.List.{All};
ghost use Rattle.homology.specs.Parity.{xor, odd};
ghost use Rattle.homology.specs.Sets.{Ids, plus, set_of};
ghost use Rattle.homology.specs.ListSums.{odd_over};
ghost use Rattle.homology.specs.Simplices.{same_list};
ghost use Rattle.homology.specs.Complexes.{Complex, IsComplex, simplex_at, dim};
ghost use Rattle.homology.specs.Growth.{is_there};
ghost use Rattle.homology.specs.Chains.{IsChain, coboundary};
ghost use Rattle.products.specs.Products.{odd_of, value_at, product_at, cup, cup_below};
ghost use Rattle.products.specs.Splittings.{splittings, over_faces, walks};

/// The value of a cochain at a list of vertices: at those of a simplex of the complex it is whether the simplex is a member,
/// and zero at all others.
pub fn values_at_lists()
    ensures of_simplices { (K : Complex) → IsComplex K → (a : Ids) (y : ℕ) → y < length K → value_at K a (simplex_at K y) ≡ a y }
    ensures of_others { (K : Complex) (a : Ids) (s : List ℕ) → is_there K s ≡ false → value_at K a s ≡ false }
{}

/// The sets of positions and their halves, by which the product is defined, are Steenrod's splittings: the cup-i product at
/// a list of vertices sums over its splittings with i + 1 shared vertices, of which the single ones before the first shared
/// one go to the first factor.
pub fn halves_are_splittings()
    ensures of_lists { (i : ℕ) (A B : List ℕ → Bool) (s : List ℕ)
        → product_at i A B s ≡ odd_of (splittings (suc i) true s) (λ p. A p.0 && B p.1) }
    ensures of_simplices { (K : Complex) (i : ℕ) (a b : Ids) (x : ℕ)
        → cup K i a b x ≡ odd_of (splittings (suc i) true (simplex_at K x)) (λ p. value_at K a p.0 && value_at K b p.1) }
{}

/// The law of splittings, for all functions A and B of lists: to leave one vertex out of either list of a splitting, or out of
/// the list before it is split, comes to the splittings with one shared vertex less, from either side.
pub fn law_of_splittings()
    ensures some_shared { (k : ℕ) (first : Bool) (A B : List ℕ → Bool) (s : List ℕ)
        → xor (xor (odd_of (splittings (suc k) first s) (λ p. over_faces A p.0 && B p.1))
        (odd_of (splittings (suc k) first s) (λ p. A p.0 && over_faces B p.1)))
        (over_faces (λ t. odd_of (splittings (suc k) first t) (λ p. A p.0 && B p.1)) s)
        ≡ xor (odd_of (splittings k first s) (λ p. A p.0 && B p.1)) (odd_of (splittings k (not first) s) (λ p. A p.0 && B p.1)) }
    ensures none_shared { (first : Bool) (A B : List ℕ → Bool) (s : List ℕ)
        → xor (xor (odd_of (splittings zero first s) (λ p. over_faces A p.0 && B p.1))
        (odd_of (splittings zero first s) (λ p. A p.0 && over_faces B p.1)))
        (over_faces (λ t. odd_of (splittings zero first t) (λ p. A p.0 && B p.1)) s) ≡ false }
{}

/// A cup-i product is additive in each factor.
pub fn product_of_sums()
    ensures first { (K : Complex) (i : ℕ) (a c b : Ids) → cup K i (plus a c) b ≡ plus (cup K i a b) (cup K i c b) }
    ensures second { (K : Complex) (i : ℕ) (a b c : Ids) → cup K i a (plus b c) ≡ plus (cup K i a b) (cup K i a c) }
{}

/// The product of cochains of degrees p and q has members of dimension p + q - i alone, so none where i exceeds p + q.
pub fn degree_of_product()
    ensures { (K : Complex) → IsComplex K → (i p q : ℕ) (a b : Ids) → IsChain K p a → IsChain K q b
        → (x : ℕ) → cup K i a b x ≡ true → (x < length K) × (dim K x + i ≡ p + q) }
{}

/// The product with index 0 is that of Alexander and Whitney: of the front face with p + 1 vertices, where a has degree p, and
/// the back face that begins with its last vertex.
pub fn product_of_index_zero()
    ensures { (K : Complex) → IsComplex K → (p : ℕ) (a : Ids) → IsChain K p a → (b : Ids) (x : ℕ)
        → cup K 0 a b x ≡ (value_at K a (take (p + 1) (simplex_at K x)) && value_at K b (drop p (simplex_at K x))) }
{}

/// The coboundary of a cup-i product, for all sets of simplices a and b and every i: the products with the coboundary of one
/// factor, and the two products with an index less by one, which are empty at i = 0.
pub fn coboundary_of_product()
    ensures { (K : Complex) → IsComplex K → (i : ℕ) (a b : Ids)
        → coboundary K (cup K i a b)
        ≡ plus (plus (cup K i (coboundary K a) b) (cup K i a (coboundary K b))) (plus (cup_below K i a b) (cup_below K i b a)) }
{}

/// The walk finds the splittings of an ascending list: modulo 2, two lists are one of them once where it passes, and not where
/// it does not.
pub fn walks_find_splittings()
    ensures { (k : ℕ) (first : Bool) (p q s : List ℕ) → IsStrictlyIncreasing s
        → odd_of (splittings k first s) (λ r. same_list r.0 p && same_list r.1 q) ≡ walks k first p q s }
{}

/// The product by pairs: a pair of members of a and b counts at the simplices along which its walk passes.
pub fn product_by_pairs()
    ensures of_sets { (K : Complex) → IsComplex K → (i : ℕ) (a b : Ids) (x : ℕ)
        → cup K i a b x
        ≡ odd (length K) (λ y. odd (length K) (λ z.
        (a y && b z) && walks (suc i) true (simplex_at K y) (simplex_at K z) (simplex_at K x))) }
    ensures of_lists { (K : Complex) → IsComplex K → (i : ℕ) (ys zs : List ℕ)
        → IsStrictlyIncreasing ys → All (λ y. y < length K) ys → IsStrictlyIncreasing zs → All (λ z. z < length K) zs → (x : ℕ)
        → cup K i (set_of ys) (set_of zs) x
        ≡ odd_over ys (λ y. odd_over zs (λ z. walks (suc i) true (simplex_at K y) (simplex_at K z) (simplex_at K x))) }
{}

/// Where the walk of p and q along s passes, s has just the vertices of p and q. So, of all ascending
/// lists, it can pass along their union alone.
pub fn pair_at_its_union()
    ensures union { (k : ℕ) (first : Bool) (p q s : List ℕ) → walks k first p q s ≡ true
        → (v : ℕ) → set_of s v ≡ (set_of p v || set_of q v) }
    ensures at_union { (k : ℕ) (first : Bool) (p q u s : List ℕ) → IsStrictlyIncreasing u → IsStrictlyIncreasing s
        → ((v : ℕ) → set_of u v ≡ (set_of p v || set_of q v))
        → walks k first p q s ≡ (same_list s u && walks k first p q u) }
{}
