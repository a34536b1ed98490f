//! The laws of subspaces of words and of linear maps, each as the contract of a function that does nothing.
ghost use Rattle.std.specs.Prelude.{◌≡◌, ℕ, ◌+◌, Bool, List};
ghost use Rattle.operation_spaces.specs.Spaces.{IsSubspace, basis, dimension, IsBasis, IsLinear, kernel_of, image_of};

/// Each subspace has exactly one basis, and the search finds it.
pub fn one_basis()
    ensures found { (n : ℕ) (S : List ℕ → Bool) → IsSubspace n S → IsBasis n S (basis n S) }
    ensures one { (n : ℕ) (S : List ℕ → Bool) → IsSubspace n S → (B : List (List ℕ)) → IsBasis n S B → B ≡ basis n S }
{}

/// The kernel and the image of a linear map are subspaces.
pub fn spaces_of_linear()
    ensures kernel { (n m : ℕ) (f : List ℕ → List ℕ) → IsLinear n m f → IsSubspace n (kernel_of f) }
    ensures image { (n m : ℕ) (f : List ℕ → List ℕ) → IsLinear n m f → IsSubspace m (image_of n f) }
{}

/// Their dimensions add up to the number of entries of the words that the map takes.
pub fn dimensions_of_linear()
    ensures { (n m : ℕ) (f : List ℕ → List ℕ) → IsLinear n m f → dimension n (kernel_of f) + dimension m (image_of n f) ≡ n }
{}
