//! A list whose shares are equal, independent and made at once.
ghost use Rattle.std.specs.Prelude.{◌≡◌, ◌+◌, ◌-◌, ◌≤◌, ◌<◌, ◌↔◌, [], ◌∷◌, ◌++◌, length, take, drop, slice_get, slice_set, slice_index_or, IfOk, IsNone, IsOk, OnOk, OnErr, IsTrue};
ghost use Rattle.std.specs.Option.{option_copied};
ghost use Rattle.std.specs.Map.Iter.{ShowsInOrder, ShowsInReverse, deref};
ghost use Rattle.share_rows.specs.Tables.{held, most};

use crate::Iter;
use crate::tree::Tree;
use memory::{Duplicate, Memory};
use std::alloc::Global;
use std::marker::Model;

/// A list of at most 16,777,216 items whose shares are equal, independent and made at once.
///
/// What did not change between a list and its share is one and the same memory. A change to a list
/// of which nothing is shared is made in place; one to a shared list first copies the chunks on its
/// way, once each: a leaf of at most 32 items, a branch of at most 32 leaves, and the top, which has
/// a pointer for each 1,024 items. The last leaf stands apart until it is full, so that a push copies
/// it alone, but for each 32nd time. Source: Driscoll, Sarnak, Sleator and Tarjan, Making data structures persistent,
/// with the radix tree of Bagwell, Ideal hash trees, as its index.
///
/// The item that was pushed last waits beside the chunks. So a push takes no memory where none
/// waits, whoever shares the chunks: a proof cannot know that a chunk has one owner, but it knows
/// that the place is free. A share copies the one item that waits, and so items are `Duplicate`.
#[derive(Drop)]
pub struct Rows<T: Duplicate> {
    alloc: Global,
    tree: Option<Tree<T>>,
    late: Option<T>,
}

impl<T: Duplicate> Model for Rows<T> {
    ghost use Rattle.std.specs.Prelude.{◌≤◌, ◌++◌, length, is_none};
    ghost use Rattle.std.specs.Option.{option_to_list};
    ghost use Rattle.share_rows.specs.Tables.{Table, held, most, table, table_code};

    ghost Value = { Table T };

    ghost coded = { table_code T.code };

    ghost view = { λ r. table (held r.tree ++ option_to_list r.late) (is_none r.late) };

    ghost invariant = { λ r. length (held r.tree ++ option_to_list r.late) ≤ most };
}

impl<T: Duplicate> Rows<T> {
    /// The empty list. It takes no memory.
    pub fn new(alloc: Global) -> Rows<T>
        ensures items { result.items ≡ [] }
        ensures room { IsTrue result.room }
    {
        Rows {
            alloc,
            tree: None,
            late: None,
        }
    }

    /// How many items there are. At once.
    pub fn len(&self) -> u32
        ensures count { result ≡ length self.now.items }
        ensures most { length self.now.items ≤ most }
    {
        let waiting = if self.late.is_some() { 1 } else { 0 };
        count(&self.tree) + waiting
    }

    /// The `k`-th item, counted from 0, and `None` where there are no more than `k`. Three pointers
    /// lead to it.
    pub fn get(&self, k: u32) -> Option<&T>
        ensures item { option_copied result ≡ slice_get self.now.items k }
        ensures absent { IsNone result ↔ (length self.now.items ≤ k) }
    {
        if let Some(tree) = &self.tree
            && k < tree.len()
        {
            return Some(tree.at(k));
        }
        if k == count(&self.tree) {
            self.late.as_ref()
        } else {
            None
        }
    }

    /// The `k`-th item of a list that has more than `k`.
    pub fn at(&self, k: u32) -> &T
        requires { k < length self.now.items }
        ensures { result.now ≡ slice_index_or self.now.items k result.now }
    {
        let Some(item) = self.get(k) else {
            unreachable!()
        };
        item
    }

    /// The items in their order, from either end. All together cost about what a slice costs.
    pub fn iter(&self) -> Iter<'_, T>
        ensures rest { result ≡ self.now.items }
        ensures most { length self.now.items ≤ most }
        ensures runs { ShowsInOrder (deref {X = T}) }
        ensures runs_back { ShowsInReverse (deref {X = T}) }
    {
        Iter {
            tree: self.tree.as_ref(),
            from: 0,
            to: count(&self.tree),
            front: &[],
            back: &[],
            late: self.late.as_ref(),
        }
    }

    /// Finds the memory for the next push, which then takes none: what waits goes into the chunks.
    /// `Err` is want of memory, and leaves the list as it was.
    pub fn reserve(&mut self) -> Result<(), Memory>
        ensures items { self.new.items ≡ self.old.items }
        ensures room { OnOk result (IsTrue self.new.room) }
        ensures kept { IsTrue self.old.room → IsTrue self.new.room }
        ensures succeeds { IsTrue self.old.room → IsOk result }
    {
        if let Some(item) = &self.late {
            append(self.alloc, &mut self.tree, item.duplicate()?)?;
            self.late = None;
        }
        Ok(())
    }

    /// Appends an item where there is room, without memory.
    pub fn push_reserved(&mut self, item: T)
        requires room { IsTrue self.old.room }
        requires most { length self.old.items < most }
        ensures items { self.new.items ≡ self.old.items ++ item ∷ [] }
    {
        self.late = Some(item);
    }

    /// Appends an item. `Err` is want of memory, and leaves the items as they were.
    pub fn push(&mut self, item: T) -> Result<(), Memory>
        requires { length self.old.items < most }
        ensures pushed { OnOk result (self.new.items ≡ self.old.items ++ item ∷ []) }
        ensures unchanged { OnErr result (self.new.items ≡ self.old.items) }
        ensures kept { OnErr result (IsTrue self.old.room → IsTrue self.new.room) }
        ensures succeeds { IsTrue self.old.room → IsOk result }
    {
        self.reserve()?;
        self.push_reserved(item);
        Ok(())
    }

    /// Puts another item in place of the `k`-th. `Err` is want of memory, and leaves the list as
    /// it was.
    pub fn set(&mut self, k: u32, item: T) -> Result<(), Memory>
        requires { k < length self.old.items }
        ensures set { OnOk result (self.new.items ≡ slice_set self.old.items k item) }
        ensures unchanged { OnErr result (self.new.items ≡ self.old.items) }
        ensures room { self.new.room ≡ self.old.room }
    {
        if k < count(&self.tree) {
            return replace(&mut self.tree, k, item);
        }
        self.late = Some(item);
        Ok(())
    }

    /// An equal list, independent of this one: in constant time, and with no memory but what a copy
    /// of one item takes. `Err` is want of memory.
    pub fn share(&self) -> Result<Rows<T>, Memory>
        ensures { IfOk result (λ copy. copy ≡ self.now) }
    {
        let tree = self.tree.duplicate()?;
        let late = self.late.duplicate()?;
        Ok(Rows {
            alloc: self.alloc,
            tree,
            late,
        })
    }
}

impl<T: Duplicate> Duplicate for Rows<T> {
    fn duplicate(&self) -> Result<Rows<T>, Memory> {
        self.share()
    }
}

/// How many items a tree has that may be missing.
fn count<T: Duplicate>(tree: &Option<Tree<T>>) -> u32
    ensures count { result ≡ length (held tree.now) }
    ensures most { result ≤ most }
{
    match tree {
        Some(tree) => tree.len(),
        None => 0,
    }
}

/// One item more in a tree that may be missing.
fn append<T: Duplicate>(alloc: Global, tree: &mut Option<Tree<T>>, item: T) -> Result<(), Memory>
    requires { length (held tree.old) < most }
    ensures appended { OnOk result (held tree.new ≡ held tree.old ++ item ∷ []) }
    ensures unchanged { OnErr result (tree.new ≡ tree.old) }
{
    match tree {
        Some(tree) => tree.push(alloc, item),
        None => {
            *tree = Some(Tree::single(alloc, item)?);
            Ok(())
        }
    }
}

/// The `k`-th item replaced in a tree that may be missing.
fn replace<T: Duplicate>(tree: &mut Option<Tree<T>>, k: u32, item: T) -> Result<(), Memory>
    requires { k < length (held tree.old) }
    ensures set { OnOk result (held tree.new ≡ slice_set (held tree.old) k item) }
    ensures unchanged { OnErr result (tree.new ≡ tree.old) }
{
    let Some(tree) = tree else { unreachable!() };
    tree.set(k, item)
}
