//! A short list in one piece of memory, shared until it is changed.
ghost use Rattle.std.specs.Prelude.{◌≡◌, ◌<◌, [], ◌∷◌, ◌++◌, length, slice_index_or, IfOk, OnOk, OnErr};
ghost use Rattle.std.specs.Arc.{arc_value};
ghost use Rattle.std.specs.Borrow.{sem};

use memory::{Duplicate, Memory};
use std::alloc::{AllocError, Global};
use std::marker::Model;
use std::sync::Arc;

/// A short list. Its copies are one and the same memory until one of them is changed: that one then
/// has items of its own, which are copies in turn.
#[derive(Drop)]
pub struct Chunk<T: Duplicate> {
    items: Arc<Vec<T>>,
}

impl<T: Duplicate> Model for Chunk<T> {
    ghost use Rattle.std.specs.Prelude.{List};
    ghost use Rattle.std.specs.Arc.{arc_value};

    ghost Value = { List T };

    ghost view = { λ c. (arc_value c.items).items };
}

impl<T: Duplicate> Chunk<T> {
    ghost use Rattle.share_rows.specs.Lends.{lends_item};

    /// The chunk without items.
    pub fn empty(alloc: Global) -> Result<Chunk<T>, Memory>
        ensures { IfOk result (λ c. c ≡ []) }
    {
        let items = Arc::new(alloc, Vec::new(alloc))?;
        Ok(Chunk { items })
    }

    /// The chunk of one item, with room for `width` items.
    pub fn single(alloc: Global, width: usize, item: T) -> Result<Chunk<T>, Memory>
        requires { 0 < width }
        ensures { IfOk result (λ c. c ≡ item ∷ []) }
    {
        let mut items = Vec::with_capacity(alloc, width)?;
        items.push_reserved(item);
        let items = Arc::new(alloc, items)?;
        Ok(Chunk { items })
    }

    /// The items.
    pub fn items(&self) -> &[T]
        ensures { result.now ≡ self.now }
    {
        self.items.as_slice()
    }

    /// The `k`-th item.
    pub fn at(&self, k: usize) -> &T
        requires { k < length self.now }
        ensures { (d : T) → result.now ≡ slice_index_or self.now k d }
    {
        &self.items[k]
    }

    /// Appends an item.
    #[inline]
    pub fn push(&mut self, item: T) -> Result<(), Memory>
        ensures pushed { OnOk result (self.new ≡ self.old ++ item ∷ []) }
        ensures unchanged { OnErr result (self.new ≡ self.old) }
    {
        self.own()?;
        match Arc::get_mut(&mut self.items) {
            Some(items) => Ok(items.push(item)?),
            // Never taken: these items were just given one owner; but no contract counts owners.
            None => Err(AllocError),
        }
    }

    /// The `k`-th item, to be changed.
    #[inline]
    pub fn edit(&mut self, k: usize) -> Result<&mut T, Memory>
        requires { k < length self.old }
        ensures* writes_back { sem 𝓛 (lends_item T.row self.entry k result) }
        ensures value { IfOk result (λ x. x.now ≡ slice_index_or self.old k x.now) }
    {
        self.own()?;
        match Arc::get_mut(&mut self.items) {
            Some(items) => Ok(&mut items[k]),
            // Never taken: these items were just given one owner; but no contract counts owners.
            None => Err(AllocError),
        }
    }

    /// Gives the chunk items of its own, where they are shared.
    #[inline(always)]
    fn own(&mut self) -> Result<(), Memory>
        ensures { self.new ≡ self.old }
    {
        match Arc::get_mut(&mut self.items) {
            Some(_) => Ok(()),
            None => {
                self.items = copied(&self.items)?;
                Ok(())
            }
        }
    }
}

/// The same items in memory of their own, with as much room.
#[cold]
#[inline(never)]
fn copied<T: Duplicate>(items: &Vec<T>) -> Result<Arc<Vec<T>>, Memory>
    ensures { IfOk result (λ copy. (arc_value copy).items ≡ items.now.items) }
{
    let alloc = *items.allocator();
    let mut copy = Vec::with_capacity(alloc, items.capacity())?;
    for item in items {
        copy.push(item.duplicate()?)?;
    }
    Ok(Arc::new(alloc, copy)?)
}

impl<T: Duplicate> Duplicate for Chunk<T> {
    fn duplicate(&self) -> Result<Chunk<T>, Memory> {
        let items = self.items.clone()?;
        Ok(Chunk { items })
    }
}
