//! Why a change does not come in.
ghost use Rattle.std.specs.Prelude.{◌≡◌, is_none};
ghost use Rattle.version_roots.specs.Judged.{back_refusal_of, cut_refusal_of, refusal_of};

use complex_store::AttachRefusal;
use memory::Memory;
use simplex_order::Simplex;
use thiserror::Error;

/// Why no simplex came in.
#[derive(Debug, Drop, Error)]
pub enum BoardRefusal {
    /// The simplex is there already, with this id.
    #[error("the simplex is there, with id {0}")]
    There(u32),
    /// This face of it, which leaves out one vertex, is not there: the least such one.
    #[error("a face is missing")]
    Face(Simplex),
    /// There is no room for all of it beside the simplices that are there, of which there are this many.
    #[error("the line is full, with {0} simplices")]
    Full(u32),
    /// No memory was left.
    #[error("out of memory")]
    Memory,
}

/// Why there was no cut.
#[derive(Debug, Drop, Error)]
pub enum CutRefusal {
    /// The line has as many cuts as it may have: this many.
    #[error("the line has {0} cuts")]
    Full(u32),
    /// No memory was left.
    #[error("out of memory")]
    Memory,
}

/// Why there was no return.
#[derive(Debug, Drop, Error)]
pub enum BackRefusal {
    /// There is no such version; the last one is this.
    #[error("the last version is {0}")]
    NoVersion(u32),
    /// The line has as many returns as it may have: this many.
    #[error("the line has {0} returns")]
    Full(u32),
    /// No memory was left.
    #[error("out of memory")]
    Memory,
}

impl BoardRefusal {
    /// Whether it is want of memory, which judges nothing.
    pub fn is_memory(&self) -> bool
        ensures { result ≡ is_none (refusal_of self.now) }
    {
        matches!(self, BoardRefusal::Memory)
    }
}

impl CutRefusal {
    /// Whether it is want of memory, which judges nothing.
    pub fn is_memory(&self) -> bool
        ensures { result ≡ is_none (cut_refusal_of self.now) }
    {
        matches!(self, CutRefusal::Memory)
    }
}

impl BackRefusal {
    /// Whether it is want of memory, which judges nothing.
    pub fn is_memory(&self) -> bool
        ensures { result ≡ is_none (back_refusal_of self.now) }
    {
        matches!(self, BackRefusal::Memory)
    }
}

impl From<Memory> for BoardRefusal {
    ghost use Rattle.std.specs.Prelude.{◌≡◌};
    ghost use Rattle.version_roots.specs.declared.refusals.BoardRefusal.TheVariants as refusal;

    ghost from_gives = { λ _ e. e ≡ refusal.Memory };

    fn from(_error: Memory) -> BoardRefusal {
        BoardRefusal::Memory
    }
}

impl From<AttachRefusal> for BoardRefusal {
    ghost use Rattle.version_roots.specs.Refusals.{SaysTheSame};

    ghost from_gives = { SaysTheSame };

    fn from(refusal: AttachRefusal) -> BoardRefusal {
        match refusal {
            AttachRefusal::There(id) => BoardRefusal::There(id),
            AttachRefusal::Face(face) => BoardRefusal::Face(face),
            AttachRefusal::Full(count) => BoardRefusal::Full(count),
            AttachRefusal::Memory => BoardRefusal::Memory,
        }
    }
}

impl From<Memory> for CutRefusal {
    ghost use Rattle.std.specs.Prelude.{◌≡◌};
    ghost use Rattle.version_roots.specs.declared.refusals.CutRefusal.TheVariants as refusal;

    ghost from_gives = { λ _ e. e ≡ refusal.Memory };

    fn from(_error: Memory) -> CutRefusal {
        CutRefusal::Memory
    }
}

impl From<Memory> for BackRefusal {
    ghost use Rattle.std.specs.Prelude.{◌≡◌};
    ghost use Rattle.version_roots.specs.declared.refusals.BackRefusal.TheVariants as refusal;

    ghost from_gives = { λ _ e. e ≡ refusal.Memory };

    fn from(_error: Memory) -> BackRefusal {
        BackRefusal::Memory
    }
}
