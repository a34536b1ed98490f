//! What questions about a complex found.
ghost use Rattle.std.specs.Prelude.{◌≡◌, ◌<◌, length, IfSome, OnOk};
ghost use Rattle.homology.specs.Complexes.{Complex};
ghost use Rattle.class_cache.specs.Kept.{AreKept, IsKept};

use crate::front::Front;
use crate::kept::Kept;
use at_model::Model;
use memory::Memory;

/// The essential simplices, canonical cocycles, cycles and boundaries that questions about a complex found, of each degree at its own place.
/// A contract sees the complex: all that is kept is what it defines, which is the type's invariant.
pub struct Cache {
    front: Front,
    degrees: Vec<Option<Kept>>,
}

impl std::marker::Model for Cache {
    ghost use Rattle.std.specs.Prelude.{List, ℕ};
    ghost use Rattle.class_cache.specs.Kept.{AreKept};

    ghost Value = { List (List ℕ) };

    ghost view = { λ c. c.front };

    ghost invariant = { λ c. AreKept c.front c.degrees.items };
}

// Written out, so that whoever drops a cache has one call in its proof.
impl Drop for Cache {
    fn drop(self) {
        let Cache {
            front: _,
            degrees: _,
        } = self;
    }
}

impl Cache {
    /// The cache of the complex of a model, with nothing kept. It takes no memory.
    pub fn new(m: &Model) -> Cache
        ensures { result ≡ m.now }
    {
        Cache {
            front: Front::of(m),
            degrees: Vec::new(m.complex().allocator()),
        }
    }

    /// Becomes the cache of another complex, with nothing kept. In the time of letting go what was kept; it takes no memory.
    pub fn clear(&mut self, m: &Model)
        ensures { self.new ≡ m.now }
    {
        self.degrees.clear();
        self.front = Front::of(m);
    }

    /// Takes out what is kept of a degree. At once.
    pub fn take(&mut self, degree: u8) -> Option<Kept>
        ensures same { self.new ≡ self.old }
        ensures kept { IfSome result (λ k. (k.degree ≡ degree) × IsKept self.old k) }
    {
        let place = usize::from(degree);
        if place < self.degrees.len() {
            self.degrees[place].take()
        } else {
            None
        }
    }

    /// Keeps this of its degree, in place of what was kept of that. At once. `Err` is want of memory, for as many places as the degree says,
    /// and leaves the cache as it was; where something was taken out before there is room.
    pub fn put(&mut self, kept: Kept) -> Result<(), Memory>
        requires { IsKept self.old kept }
        ensures { self.new ≡ self.old }
    {
        let place = usize::from(kept.degree);
        add_places(&mut self.degrees, kept.degree)?;
        self.degrees[place] = Some(kept);
        Ok(())
    }

    /// What is kept of all degrees, in members.
    pub fn members(&self) -> usize {
        let mut members = 0usize;
        for kept in &self.degrees {
            if let Some(kept) = kept {
                members = members.saturating_add(kept.members);
            }
        }
        members
    }

    /// The number of simplices of its complex. At once.
    pub fn len(&self) -> u32
        ensures { result ≡ length self.now }
    {
        self.front.len()
    }

    /// What is kept, by the degrees. At once.
    pub(crate) fn kept(&self) -> &[Option<Kept>]
        ensures { AreKept self.now result.now }
    {
        &self.degrees
    }
}

/// Makes a place for this degree, and for each below it. `Err` is want of memory.
fn add_places(all: &mut Vec<Option<Kept>>, degree: u8) -> Result<(), Memory>
    ensures kept { (K : Complex) → AreKept K all.old.items → AreKept K all.new.items }
    ensures there { OnOk result (degree < length all.new.items) }
{
    for k in all.len()..usize::from(degree) + 1 {
        all.push(None)?;
    }
    Ok(())
}
