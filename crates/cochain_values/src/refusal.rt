//! Why listed simplices are no cochain.
use memory::Memory;
use simplex_order::Simplex;
use thiserror::Error;

/// Why a list of simplices is no cochain of a degree: what is wrong with the first simplex of the list
/// that is absent or of another dimension.
#[derive(Debug, Drop, Error)]
pub enum CochainRefusal {
    /// This simplex is not one of the complex.
    #[error("a simplex is not there")]
    NotThere(Simplex),
    /// This simplex is one of the complex, and its dimension is not the degree.
    #[error("a simplex has another dimension")]
    Degree(Simplex),
    /// No memory was left.
    #[error("out of memory")]
    Memory,
}

impl From<Memory> for CochainRefusal {
    ghost use Rattle.std.specs.Prelude.{◌≡◌};
    ghost use Rattle.cochain_values.specs.declared.refusal.CochainRefusal.TheVariants as refusal;

    ghost from_gives = { λ _ e. e ≡ refusal.Memory };

    fn from(_error: Memory) -> CochainRefusal {
        CochainRefusal::Memory
    }
}
