//! The laws of what is told of closed complexes without degenerate classes, and of others, each as the contract of a function that does
//! nothing.
ghost use Rattle.std.specs.Prelude.{◌≡◌, ◌≢◌, ℕ, List, map, None, Some, Ok, Err};
ghost use Rattle.std.specs.List.{range_with_len, sum};
ghost use Rattle.homology.specs.Complexes.{Complex, dimensions};
ghost use Rattle.manifolds.specs.Closed.{NotClosed, closed, top};
ghost use Rattle.characteristic_classes.specs.Pairings.{NotDual, Unclosed, Degenerate, dual, duality, first_degenerate, on_top, pairings};
ghost use Rattle.characteristic_classes.specs.WuClasses.{NoClasses, Sum, product, stiefel_whitney, stiefel_whitney_number, whitney_class, wu, wu_class};

/// What is told of a closed complex without degenerate classes. Of a number it is told instead where the degrees have another sum than the
/// dimension.
pub fn told_of_dual()
    ensures duality { (K : Complex) (n : ℕ) → closed K ≡ Ok n → first_degenerate K ≡ None → duality K ≡ Ok (pairings K) }
    ensures wu { (K : Complex) (n : ℕ) → closed K ≡ Ok n → first_degenerate K ≡ None
        → wu K ≡ Ok (map (λ k. (k, wu_class K k)) (range_with_len 0 (dimensions K))) }
    ensures whitney { (K : Complex) (n : ℕ) → closed K ≡ Ok n → first_degenerate K ≡ None
        → stiefel_whitney K ≡ Ok (map (λ k. (k, whitney_class K k)) (range_with_len 0 (dimensions K))) }
    ensures number { (K : Complex) (n : ℕ) → closed K ≡ Ok n → first_degenerate K ≡ None → (parts : List ℕ) → sum parts ≡ top K
        → stiefel_whitney_number K parts ≡ Ok (on_top K (product K parts)) }
    ensures sum { (K : Complex) (n : ℕ) → closed K ≡ Ok n → first_degenerate K ≡ None → (parts : List ℕ) → sum parts ≢ top K
        → stiefel_whitney_number K parts ≡ Err (Sum (sum parts) (top K)) }
{}

/// The faults: that the complex is not closed, or else its first degenerate class. Where there is none nothing is told.
pub fn faults_of_duality()
    ensures not_closed { (K : Complex) (why : NotClosed) → closed K ≡ Err why → dual K ≡ Err (Unclosed why) }
    ensures degenerate { (K : Complex) (n p : ℕ) (w : List ℕ) → closed K ≡ Ok n → first_degenerate K ≡ Some (p, w)
        → dual K ≡ Err (Degenerate p w) }
    ensures none { (K : Complex) (n : ℕ) → closed K ≡ Ok n → first_degenerate K ≡ None → dual K ≡ Ok tt }
{}

/// A fault is told alike in place of the pairings, of the classes and of a number.
pub fn told_of_faults()
    ensures duality { (K : Complex) (why : NotDual) → dual K ≡ Err why → duality K ≡ Err why }
    ensures wu { (K : Complex) (why : NotDual) → dual K ≡ Err why → wu K ≡ Err why }
    ensures whitney { (K : Complex) (why : NotDual) → dual K ≡ Err why → stiefel_whitney K ≡ Err why }
    ensures number { (K : Complex) (why : NotDual) → dual K ≡ Err why → (parts : List ℕ) → stiefel_whitney_number K parts ≡ Err (NoClasses why) }
{}
