//! The laws of operations on class words, each as the contract of a function that does nothing.
ghost use Rattle.std.specs.Prelude.{◌≡◌, ℕ, ◌+◌, ◌≤◌, true, List, []};
ghost use Rattle.homology.specs.Sets.{Ids};
ghost use Rattle.homology.specs.Complexes.{Complex, IsComplex};
ghost use Rattle.homology.specs.Chains.{IsCocycle, IsCoboundary};
ghost use Rattle.homology.specs.Kinds.{betti};
ghost use Rattle.cohomology.specs.Classes.{class_of};
ghost use Rattle.cohomology_operations.specs.Bocksteins.{bockstein};
ghost use Rattle.operation_spaces.specs.Spaces.{IsSubspace, IsLinear, dimension};
ghost use Rattle.operation_spaces.specs.OperationSpaces.{Operation, Bockstein, raises, value_of, kernel, image, decomposable, image_below, page};

/// A square and the Bockstein are linear on class words.
pub fn operations_are_linear()
    ensures { (K : Complex) → IsComplex K → (op : Operation) (p : ℕ) → IsLinear (betti K p) (betti K (p + raises op)) (value_of K op p) }
{}

/// The kernel of an operation in degree p, its image from degree p, and the decomposable classes of degree p are subspaces.
pub fn spaces_of_operations()
    ensures kernel { (K : Complex) → IsComplex K → (op : Operation) (p : ℕ) → IsSubspace (betti K p) (kernel K op p) }
    ensures image { (K : Complex) → IsComplex K → (op : Operation) (p : ℕ) → IsSubspace (betti K (p + raises op)) (image K op p) }
    ensures decomposable { (K : Complex) (p : ℕ) → IsSubspace (betti K p) (decomposable K p) }
{}

/// The dimensions of the kernel in degree p and of the image from degree p add up to the Betti number of degree p.
pub fn dimensions_of_operations()
    ensures { (K : Complex) → IsComplex K → (op : Operation) (p : ℕ)
        → dimension (betti K p) (kernel K op p) + dimension (betti K (p + raises op)) (image K op p) ≡ betti K p }
{}

/// The Bockstein of the Bockstein of a cocycle is a coboundary, so its class is zero.
pub fn bockstein_of_bockstein()
    ensures coboundary { (K : Complex) → IsComplex K → (p : ℕ) (a : Ids) → IsCocycle K p a
        → IsCoboundary K (p + 1 + 1) (bockstein K (bockstein K a)) }
    ensures class { (K : Complex) → IsComplex K → (p : ℕ) (a : Ids) → IsCocycle K p a
        → class_of K (p + 1 + 1) (bockstein K (bockstein K a)) ≡ [] }
{}

/// So the image of the Bockstein lies in its kernel, and the page number never falls below zero: with the dimension of the image from
/// one degree less it adds up to that of the kernel.
pub fn pages_of_bockstein()
    ensures image_in_kernel { (K : Complex) → IsComplex K → (p : ℕ) (w : List ℕ) → image K Bockstein p w ≡ true
        → kernel K Bockstein (p + 1) w ≡ true }
    ensures page { (K : Complex) → IsComplex K → (p : ℕ)
        → page K p + image_below K p ≡ dimension (betti K p) (kernel K Bockstein p) }
{}
