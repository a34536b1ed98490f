//! A list in three levels of chunks, with its last ones apart.
ghost use Rattle.std.specs.Prelude.{◌≡◌, ◌+◌, ◌-◌, ◌*◌, ◌/◌, ◌%◌, ◌<◌, ◌≤◌, ◌⊎◌, [], ◌∷◌, ◌++◌, length, slice_index_or, slice_range, slice_set, IfOk, OnOk, OnErr};
ghost use Rattle.share_rows.specs.Packs.{IsPacked, LeafIs, joined, width};
ghost use Rattle.std.specs.Borrow.{sem};
ghost use Rattle.share_rows.specs.Lends.{lends_leaf};
ghost use Rattle.share_rows.specs.Tables.{most};

use crate::chunk::Chunk;
use memory::{Duplicate, Memory};
use std::alloc::Global;
use std::marker::Model;

/// How many items a leaf has, and how many leaves a branch.
const WIDTH: u32 = 32;

/// A list that is not empty. The top has branches, a branch has leaves, and a leaf has items. The last leaf stands apart
/// until it is full: so to append an item changes that leaf alone, but for each 32nd time.
#[derive(Drop)]
pub struct Tree<T: Duplicate> {
    count: u32,
    top: Chunk<Chunk<Chunk<T>>>,
    tail: Chunk<T>,
}

impl<T: Duplicate> Model for Tree<T> {
    ghost use Rattle.std.specs.Prelude.{List};
    ghost use Rattle.share_rows.specs.Packs.{joined, all_leaves, IsTree};

    ghost Value = { List T };

    ghost view = { λ t. joined (all_leaves t.top t.tail) };

    ghost invariant = { λ t. IsTree t.count t.top t.tail };
}

impl<T: Duplicate> Tree<T> {
    /// The list of one item.
    pub fn single(alloc: Global, item: T) -> Result<Tree<T>, Memory>
        ensures { IfOk result (λ t. t ≡ item ∷ []) }
    {
        let top = Chunk::empty(alloc)?;
        let tail = Chunk::single(alloc, WIDTH as usize, item)?;
        Ok(Tree {
            count: 1,
            top,
            tail,
        })
    }

    /// How many items there are.
    pub fn len(&self) -> u32
        ensures count { result ≡ length self.now }
        ensures most { length self.now ≤ most }
    {
        self.count
    }

    /// The `k`-th item.
    pub fn at(&self, k: u32) -> &T
        requires { k < length self.now }
        ensures { result.now ≡ slice_index_or self.now k result.now }
    {
        &self.leaf(k / WIDTH)[(k % WIDTH) as usize]
    }

    /// The items from `from` on, up to `to`, that lie in one leaf.
    pub fn run(&self, from: u32, to: u32) -> &[T]
        requires order { from < to }
        requires within { to ≤ length self.now }
        ensures items { result.now ≡ slice_range self.now from (from + length result.now) }
        ensures some { 0 < length result.now }
        ensures within { from + length result.now ≤ to }
    {
        let leaf = self.leaf(from / WIDTH);
        let start = (from % WIDTH) as usize;
        let end = leaf.len().min(start + (to - from) as usize);
        &leaf[start..end]
    }

    /// The items before `to`, down to `from`, that lie in one leaf.
    pub fn run_back(&self, from: u32, to: u32) -> &[T]
        requires order { from < to }
        requires within { to ≤ length self.now }
        ensures items { result.now ≡ slice_range self.now (to - length result.now) to }
        ensures some { 0 < length result.now }
        ensures within { from + length result.now ≤ to }
    {
        let leaf = self.leaf((to - 1) / WIDTH);
        let end = ((to - 1) % WIDTH) as usize + 1;
        let start = end.saturating_sub((to - from) as usize);
        &leaf[start..end]
    }

    /// The `q`-th leaf.
    fn leaf(&self, q: u32) -> &[T]
        requires { q * width < length self.now }
        ensures { LeafIs self.now q result.now }
    {
        if self.count > (q + 1) * WIDTH {
            let branch = self.top.at((q / WIDTH) as usize);
            branch.at((q % WIDTH) as usize).items()
        } else {
            self.tail.items()
        }
    }

    /// Puts another item in place of the `k`-th.
    pub fn set(&mut self, k: u32, item: T) -> Result<(), Memory>
        requires { k < length self.old }
        ensures set { OnOk result (self.new ≡ slice_set self.old k item) }
        ensures unchanged { OnErr result (self.new ≡ self.old) }
    {
        if self.count > (k / WIDTH + 1) * WIDTH {
            set_in(&mut self.top, k, item)?;
            return Ok(());
        }
        *self.tail.edit((k % WIDTH) as usize)? = item;
        Ok(())
    }

    /// Appends an item.
    pub fn push(&mut self, alloc: Global, item: T) -> Result<(), Memory>
        requires { length self.old < most }
        ensures pushed { OnOk result (self.new ≡ self.old ++ item ∷ []) }
        ensures unchanged { OnErr result (self.new ≡ self.old) }
    {
        if self.count % WIDTH != 0 {
            self.tail.push(item)?;
            self.count += 1;
            return Ok(());
        }
        let tail = Chunk::single(alloc, WIDTH as usize, item)?;
        let full = self.tail.duplicate()?;
        push_leaf(&mut self.top, alloc, self.count / WIDTH - 1, full)?;
        self.tail = tail;
        self.count += 1;
        Ok(())
    }
}

/// Puts another item in place of the `k`-th of those in the top.
fn set_in<T: Duplicate>(top: &mut Chunk<Chunk<Chunk<T>>>, k: u32, item: T) -> Result<(), Memory>
    requires branches { IsPacked top.old }
    requires leaf { k / width < length (joined top.old) }
    requires place { k % width < length (slice_index_or (joined top.old) (k / width) []) }
    ensures branches { OnOk result (IsPacked top.new) }
    ensures leaves { OnOk result (joined top.new ≡ slice_set (joined top.old) (k / width) (slice_set (slice_index_or (joined top.old) (k / width) []) (k % width) item)) }
    ensures unchanged { OnErr result (top.new ≡ top.old) }
{
    let leaf = leaf_mut(top, k / WIDTH)?;
    *leaf.edit((k % WIDTH) as usize)? = item;
    Ok(())
}

/// The `q`-th leaf, to be changed.
#[inline]
fn leaf_mut<T: Duplicate>(top: &mut Chunk<Chunk<Chunk<T>>>, q: u32) -> Result<&mut Chunk<T>, Memory>
    requires packed { IsPacked top.old }
    requires there { q < length (joined top.old) }
    ensures* writes_back { sem 𝓛 (lends_leaf T.row top.entry q result) }
    ensures value { IfOk result (λ leaf. leaf.now ≡ slice_index_or (joined top.old) q []) }
{
    let branch = top.edit((q / WIDTH) as usize)?;
    branch.edit((q % WIDTH) as usize)
}

/// Puts a leaf after the `q` leaves that are there.
fn push_leaf<T: Duplicate>(
    top: &mut Chunk<Chunk<Chunk<T>>>,
    alloc: Global,
    q: u32,
    leaf: Chunk<T>,
) -> Result<(), Memory>
    requires branches { IsPacked top.old }
    requires count { q ≡ length (joined top.old) }
    ensures branches { OnOk result (IsPacked top.new) }
    ensures leaves { OnOk result (joined top.new ≡ joined top.old ++ leaf ∷ []) }
    ensures unchanged { OnErr result (top.new ≡ top.old) }
{
    if q % WIDTH != 0 {
        return top.edit((q / WIDTH) as usize)?.push(leaf);
    }
    top.push(Chunk::single(alloc, WIDTH as usize, leaf)?)
}

impl<T: Duplicate> Duplicate for Tree<T> {
    fn duplicate(&self) -> Result<Tree<T>, Memory> {
        let top = self.top.duplicate()?;
        let tail = self.tail.duplicate()?;
        Ok(Tree {
            count: self.count,
            top,
            tail,
        })
    }
}
