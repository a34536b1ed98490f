//! Why there is no class word, no cocycle or cycle, no bound.
use memory::Memory;
use thiserror::Error;

/// Why a cochain has no class.
#[derive(Clone, Copy, Debug, PartialEq, Eq, Error)]
pub enum OpRefusal {
    /// Its coboundary is not empty, and this is the first simplex at which it is 1.
    #[error("the coboundary is not empty")]
    NotCocycle(u32),
    /// No memory was left.
    #[error("out of memory")]
    Memory,
}

/// Why class numbers name no sum of classes.
#[derive(Clone, Copy, Debug, PartialEq, Eq, Error)]
pub enum WordRefusal {
    /// This is the first listed number with no class of the degree.
    #[error("no class has this number")]
    NoClass(u32),
    /// No memory was left.
    #[error("out of memory")]
    Memory,
}

/// Why a cochain is no coboundary.
#[derive(Clone, Copy, Debug, PartialEq, Eq, Error)]
pub enum BoundRefusal {
    /// Its coboundary is not empty, and this is the first simplex at which it is 1.
    #[error("the coboundary is not empty")]
    NotCocycle(u32),
    /// It is a cocycle and no coboundary, and this is the essential simplex of the first class of its class word.
    #[error("the class is not zero")]
    Differs(u32),
    /// No memory was left.
    #[error("out of memory")]
    Memory,
}

impl From<Memory> for OpRefusal {
    ghost use Rattle.std.specs.Prelude.{◌≡◌};
    ghost use Rattle.class_solver.specs.declared.refusal.OpRefusal.TheVariants as refusal;

    ghost from_gives = { λ _ e. e ≡ refusal.Memory };

    fn from(_error: Memory) -> OpRefusal {
        OpRefusal::Memory
    }
}

impl From<Memory> for WordRefusal {
    ghost use Rattle.std.specs.Prelude.{◌≡◌};
    ghost use Rattle.class_solver.specs.declared.refusal.WordRefusal.TheVariants as refusal;

    ghost from_gives = { λ _ e. e ≡ refusal.Memory };

    fn from(_error: Memory) -> WordRefusal {
        WordRefusal::Memory
    }
}

impl From<Memory> for BoundRefusal {
    ghost use Rattle.std.specs.Prelude.{◌≡◌};
    ghost use Rattle.class_solver.specs.declared.refusal.BoundRefusal.TheVariants as refusal;

    ghost from_gives = { λ _ e. e ≡ refusal.Memory };

    fn from(_error: Memory) -> BoundRefusal {
        BoundRefusal::Memory
    }
}
