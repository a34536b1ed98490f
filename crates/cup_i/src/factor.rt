//! A factor of a product.
ghost use Rattle.std.specs.Prelude.{◌≡◌, ◌+◌, ◌≤◌, ◌<◌, length, IfOk};
ghost use Rattle.homology.specs.Sets.{set_of};
ghost use Rattle.cochain_values.specs.Cochains.{StandsOn};
ghost use Rattle.cochain_values.specs.Marks.{marked};
ghost use Rattle.cup_i.specs.Factors.{IsFactor};

use cochain_values::{Cochain, marks};
use complex_store::Complex;
use memory::Memory;

/// A cochain with a mark for each simplex of its complex, which tells whether the value there is 1.
#[derive(Drop)]
pub(crate) struct Factor {
    pub(crate) degree: u8,
    pub(crate) marks: Vec<bool>,
}

impl Factor {
    /// The cochain as a factor: a mark for each id of the complex, and one step for each member. `Err` is want of memory.
    pub(crate) fn new(k: &Complex, cochain: &Cochain) -> Result<Factor, Memory>
        requires { StandsOn k.now cochain.now }
        ensures degree { IfOk result (λ f. f.degree ≡ cochain.now.degree) }
        ensures set { IfOk result (λ f. marked f.marks.items ≡ set_of cochain.now.ids) }
        ensures factor { IfOk result (IsFactor k.now) }
    {
        let marks = marks::marks_of(k.allocator(), k.len(), cochain.support().ids())?;
        Ok(Factor {
            degree: cochain.degree(),
            marks,
        })
    }

    /// The number of vertices of the simplices of its degree.
    pub(crate) fn width(&self) -> usize
        ensures value { result ≡ self.now.degree + 1 }
        ensures small { result ≤ 256 }
    {
        usize::from(self.degree) + 1
    }

    /// Whether the value at the simplex with this id is 1. At once.
    pub(crate) fn at(&self, id: u32) -> bool
        requires { id < length self.now.marks.items }
        ensures { result ≡ marked self.now.marks.items id }
    {
        self.marks[id as usize]
    }
}
