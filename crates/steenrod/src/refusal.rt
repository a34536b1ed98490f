//! Why two cocycles are not of one class, and why there is no bound of the sum of two results.
use memory::Memory;
use thiserror::Error;

/// Why two cocycles are not of one class.
#[derive(Clone, Copy, Debug, PartialEq, Eq, Error)]
pub enum ClassRefusal {
    /// They have these different degrees.
    #[error("two cocycles have different degrees")]
    Degrees {
        /// The degree of the first.
        first: u8,
        /// The degree of the second.
        second: u8,
    },
    /// Their classes differ, and this is the first essential simplex at which their class words do.
    #[error("two cocycles are not of one class")]
    Differs(u32),
    /// No memory was left.
    #[error("out of memory")]
    Memory,
}

/// Why there is no bound of the sum of two results.
#[derive(Clone, Copy, Debug, PartialEq, Eq, Error)]
pub enum SameRefusal {
    /// A cochain is no cocycle.
    #[error("a cochain is no cocycle")]
    NotCocycle {
        /// Which one: the first in the order of the parameters, counted from 0.
        which: u8,
        /// The first simplex at which its coboundary is 1.
        at: u32,
    },
    /// The two cocycles of a pair have these different degrees.
    #[error("two cocycles have different degrees")]
    Degrees {
        /// The degree of the first.
        first: u8,
        /// The degree of the second.
        second: u8,
    },
    /// The classes of a pair differ, and this is the first essential simplex at which their class words do.
    #[error("two cocycles are not of one class")]
    Differs(u32),
    /// No memory was left.
    #[error("out of memory")]
    Memory,
}

impl From<Memory> for ClassRefusal {
    ghost use Rattle.std.specs.Prelude.{◌≡◌};
    ghost use Rattle.steenrod.specs.declared.refusal.ClassRefusal.TheVariants as refusal;

    ghost from_gives = { λ _ e. e ≡ refusal.Memory };

    fn from(_error: Memory) -> ClassRefusal {
        ClassRefusal::Memory
    }
}

impl From<Memory> for SameRefusal {
    ghost use Rattle.std.specs.Prelude.{◌≡◌};
    ghost use Rattle.steenrod.specs.declared.refusal.SameRefusal.TheVariants as refusal;

    ghost from_gives = { λ _ e. e ≡ refusal.Memory };

    fn from(_error: Memory) -> SameRefusal {
        SameRefusal::Memory
    }
}

/// Why a pair of cocycles is not of one class is why there is no bound.
impl From<ClassRefusal> for SameRefusal {
    ghost use Rattle.std.specs.Prelude.{List, Result};
    ghost use Rattle.homology.specs.Sets.{Ids};
    ghost use Rattle.homology.specs.Complexes.{Complex};
    ghost use Rattle.cohomology_operations.specs.Cohomologous.{NotCohomologous};
    ghost use Rattle.steenrod.specs.Refusals.{AreTestedCocycles, ClassRefuses, SameRefuses};

    ghost from_gives = { λ r e. (K : Complex) (cs : List Ids) (v : Result (Unit {0}) NotCohomologous) → AreTestedCocycles K cs → ClassRefuses K v r → SameRefuses K cs v e };

    fn from(error: ClassRefusal) -> SameRefusal {
        match error {
            ClassRefusal::Degrees { first, second } => SameRefusal::Degrees { first, second },
            ClassRefusal::Differs(h) => SameRefusal::Differs(h),
            ClassRefusal::Memory => SameRefusal::Memory,
        }
    }
}
