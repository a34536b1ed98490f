//! Why a complex is not closed, and why its links are not those of spheres.
use memory::Memory;
use simplex_order::Simplex;
use thiserror::Error;

/// Why a complex is not closed.
#[derive(Debug, Drop, Error)]
pub enum ClosedRefusal {
    /// It has no simplex.
    #[error("the complex is empty")]
    Nothing,
    /// This simplex lies in none of the dimension of the complex: the first such one in simplex order.
    #[error("a simplex lies in none of the dimension of the complex")]
    NotPure(Simplex),
    /// A simplex of one dimension less does not lie in two of the dimension of the complex.
    #[error("a simplex lies in {times} simplices of one dimension more")]
    Ridge {
        /// The first such one in simplex order.
        simplex: Simplex,
        /// In how many it lies.
        times: u32,
    },
    /// No memory was left.
    #[error("out of memory")]
    Memory,
}

impl From<Memory> for ClosedRefusal {
    ghost use Rattle.std.specs.Prelude.{◌≡◌};
    ghost use Rattle.manifold_links.specs.declared.refusal.ClosedRefusal.TheVariants as refusal;

    ghost from_gives = { λ _ e. e ≡ refusal.Memory };

    fn from(_error: Memory) -> ClosedRefusal {
        ClosedRefusal::Memory
    }
}

/// Why the links of a complex are not all those of spheres.
#[derive(Debug, Drop, Error)]
pub enum LinkRefusal {
    /// The link of a simplex has not the Betti numbers of a sphere of the dimension that is left.
    #[error("a link has not the Betti numbers of a sphere")]
    Link {
        /// The first such simplex in simplex order.
        simplex: Simplex,
        /// The Betti numbers of its link, from degree 0 to its dimension.
        betti: Vec<u32>,
    },
    /// No memory was left.
    #[error("out of memory")]
    Memory,
}

impl From<Memory> for LinkRefusal {
    ghost use Rattle.std.specs.Prelude.{◌≡◌};
    ghost use Rattle.manifold_links.specs.declared.refusal.LinkRefusal.TheVariants as refusal;

    ghost from_gives = { λ _ e. e ≡ refusal.Memory };

    fn from(_error: Memory) -> LinkRefusal {
        LinkRefusal::Memory
    }
}
