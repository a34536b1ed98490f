//! Keys that are found by hashing.
ghost use Rattle.std.specs.Prelude.{◌≡◌, ℕ, Bool, true, nat_eq};
ghost use Rattle.std.specs.Cmp.{IsEquivalence};

use crate::Duplicate;

/// What can be found by hashing: it has a number that equal values share, and that tells most others
/// apart.
pub trait Hashed: Duplicate {
    ghost same: { Self → Self → Bool };

    ghost hash: { Self → ℕ };

    /// Whether two values are equal.
    fn is_same(&self, other: &Self) -> bool
        ensures { result ≡ same self.now other.now };

    /// The number of the value, which depends on the value alone.
    fn hash(&self) -> u32
        ensures { result ≡ hash self.now };

    /// Equality is an equivalence.
    ghost laws: { IsEquivalence same };

    /// Equal values are one and the same.
    ghost exact: { (p q : Self) → same p q ≡ true → p ≡ q };
}

impl Hashed for u32 {
    ghost use Rattle.std.specs.Prelude.{nat_eq};
    ghost use Rattle.std.proofs.Common.{rules};
    ghost use Rattle.std.specs.Cmp.{nat_eq_equiv};

    ghost same = { nat_eq };

    ghost hash = { λ n. n };

    fn is_same(&self, other: &u32) -> bool {
        self == other
    }

    fn hash(&self) -> u32 {
        *self
    }

    ghost laws = { nat_eq_equiv };

    ghost exact = { Prim.search rules };
}
