//! The laws of shellings, each as the contract of a function that does nothing.
ghost use Rattle.std.specs.Prelude.{◌≡◌, ℕ, true, false, List, None, Some};
ghost use Rattle.homology.specs.Complexes.{Complex, IsComplex};
ghost use Rattle.homology.specs.Growth.{is_there};
ghost use Rattle.manifolds.specs.Links.{link, degrees_left, passes};
ghost use Rattle.shellings.specs.Shellings.{NotThere, fault, shelling};

/// A simplex that is not there is refused before all else, and only of one that is there is the list looked at.
pub fn refusal_of_absent()
    ensures absent { (K : Complex) (s : List ℕ) (F : List (List ℕ)) → is_there K s ≡ false → shelling K s F ≡ Some (NotThere s) }
    ensures there { (K : Complex) (s : List ℕ) (F : List (List ℕ)) → is_there K s ≡ true
        → shelling K s F ≡ fault (link K s) (degrees_left K s) F }
{}

/// Where nothing is refused, the link passes: it has the Betti numbers of a sphere of the dimension that is left.
pub fn link_of_shelling()
    ensures { (K : Complex) → IsComplex K → (s : List ℕ) (F : List (List ℕ)) → shelling K s F ≡ None → passes K s ≡ true }
{}
