//! Why there is no cap product.
use memory::Memory;
use thiserror::Error;

/// Why a cochain and a chain have no cap product.
#[derive(Clone, Copy, Debug, PartialEq, Eq, Error)]
pub enum CapRefusal {
    /// The degree of the cochain is greater than that of the chain.
    #[error("the degree of the cochain is greater than that of the chain")]
    Degrees {
        /// The degree of the cochain.
        cochain: u8,
        /// The degree of the chain.
        chain: u8,
    },
    /// No memory was left.
    #[error("out of memory")]
    Memory,
}

impl From<Memory> for CapRefusal {
    ghost use Rattle.std.specs.Prelude.{◌≡◌};
    ghost use Rattle.cup_i.specs.declared.refusal.CapRefusal.TheVariants as refusal;

    ghost from_gives = { λ _ e. e ≡ refusal.Memory };

    fn from(_error: Memory) -> CapRefusal {
        CapRefusal::Memory
    }
}
