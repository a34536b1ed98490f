//! Why a complex has no pairing without degenerate classes, and why there is no Stiefel-Whitney number.
use class_solver::ClassWord;
use manifold_links::ClosedRefusal;
use memory::Memory;
use thiserror::Error;

/// Why a complex is not closed, or has a degenerate class.
#[derive(Debug, Drop, Error)]
pub enum WuRefusal {
    /// It is not closed, for this reason.
    #[error("the complex is not closed")]
    Closed(ClosedRefusal),
    /// This class pairs to zero with every class of the complementary degree: the first such one, of the least degree, and in it of the
    /// least greatest class number.
    #[error("a class pairs to zero with all classes of the complementary degree")]
    Degenerate(ClassWord),
}

impl From<Memory> for WuRefusal {
    ghost use Rattle.std.specs.Prelude.{◌≡◌};
    ghost use Rattle.manifold_links.specs.declared.refusal.ClosedRefusal.TheVariants as closed;
    ghost use Rattle.wu_classes.specs.declared.refusal.WuRefusal.TheVariants as refusal;

    ghost from_gives = { λ _ e. e ≡ refusal.Closed closed.Memory };

    fn from(_error: Memory) -> WuRefusal {
        WuRefusal::Closed(ClosedRefusal::Memory)
    }
}

/// Why there is no Stiefel-Whitney number.
#[derive(Debug, Drop, Error)]
pub enum NumberRefusal {
    /// There are no Stiefel-Whitney classes, for this reason.
    #[error("there are no Stiefel-Whitney classes")]
    Wu(WuRefusal),
    /// The listed degrees have another sum than the dimension.
    #[error("the degrees have the sum {sum}, and the dimension is {dim}")]
    Sum {
        /// Their sum.
        sum: u32,
        /// The dimension of the complex.
        dim: u8,
    },
}

impl From<WuRefusal> for NumberRefusal {
    ghost use Rattle.std.specs.Prelude.{◌≡◌};
    ghost use Rattle.wu_classes.specs.declared.refusal.NumberRefusal.TheVariants as refusal;

    ghost from_gives = { λ r e. e ≡ refusal.Wu r };

    fn from(refusal: WuRefusal) -> NumberRefusal {
        NumberRefusal::Wu(refusal)
    }
}

impl From<Memory> for NumberRefusal {
    ghost use Rattle.std.specs.Prelude.{◌≡◌};
    ghost use Rattle.manifold_links.specs.declared.refusal.ClosedRefusal.TheVariants as closed;
    ghost use Rattle.wu_classes.specs.declared.refusal.NumberRefusal.TheVariants as refusal;
    ghost use Rattle.wu_classes.specs.declared.refusal.WuRefusal.TheVariants as wu;

    ghost from_gives = { λ _ e. e ≡ refusal.Wu (wu.Closed closed.Memory) };

    fn from(_error: Memory) -> NumberRefusal {
        NumberRefusal::Wu(WuRefusal::Closed(ClosedRefusal::Memory))
    }
}
