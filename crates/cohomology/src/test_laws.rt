//! The laws of the tests of cochains, each as the contract of a function that does nothing.
ghost use Rattle.std.specs.Prelude.{◌≡◌, ◌↔◌, ℕ, ◌<◌, true, false, List, length, MatchOption};
ghost use Rattle.std.specs.List.{Contains};
ghost use Rattle.homology.specs.Sets.{Ids};
ghost use Rattle.homology.specs.Complexes.{Complex};
ghost use Rattle.homology.specs.Chains.{IsChain, IsCocycle, IsCoboundary, coboundary};
ghost use Rattle.cohomology.specs.Searches.{is_cocycle, is_coboundary, first_broken};
ghost use Rattle.cohomology.specs.Classes.{IsClass, classes};

/// A cochain passes the test for cocycles exactly where it is one.
pub fn cocycle_by_test()
    ensures { (K : Complex) (p : ℕ) (a : Ids) → IsChain K p a → (is_cocycle K a ≡ true) ↔ IsCocycle K p a }
{}

/// A cochain passes the search for a cochain with it as the coboundary exactly where it is a coboundary.
pub fn coboundary_by_test()
    ensures { (K : Complex) (p : ℕ) (e : Ids) → IsChain K p e → (is_coboundary K p e ≡ true) ↔ IsCoboundary K p e }
{}

/// The first id at which the coboundary of a cochain is 1: there it is, and at no earlier one. Where none is found there is none.
pub fn broken_by_search()
    ensures { (K : Complex) (a : Ids)
        → MatchOption (first_broken K a) ((x : ℕ) → x < length K → coboundary K a x ≡ false)
        (λ x. (x < length K) × (coboundary K a x ≡ true) × ((y : ℕ) → y < x → coboundary K a y ≡ false)) }
{}

/// The listed class words are all ascending lists of class numbers.
pub fn classes_by_search()
    ensures { (K : Complex) (p : ℕ) (w : List ℕ) → Contains (classes K p) w ↔ IsClass K p w }
{}
