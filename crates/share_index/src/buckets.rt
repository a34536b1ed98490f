//! Which entries have hashes that belong together.
ghost use Rattle.std.specs.Prelude.{◌≡◌, ◌+◌, ◌<◌, ◌≤◌, ◌%◌, ℕ, List, [], length, slice_index_or, IfOk, IfSome, OnOk, OnErr, IsNone};
ghost use Rattle.share_rows.specs.Tables.{most};
ghost use Rattle.share_index.specs.Buckets.{IsFiled, IsLast};

use memory::Memory;
use share_rows::Rows;
use std::alloc::Global;

/// The most buckets, as many as a list may have items.
const MOST: u32 = 16_777_216;

/// How many buckets there are at first.
const FIRST: u32 = 32;

/// The places of entries, from the first on, in buckets: the remainder of its hash says in which one an
/// entry is. Each bucket has its last place, and each place has the one before it in its bucket.
#[derive(Drop)]
pub(crate) struct Buckets {
    pub(crate) last: Rows<Option<u32>>,
    pub(crate) before: Rows<Option<u32>>,
}

impl Buckets {
    /// Without buckets. It takes no memory.
    pub(crate) fn new(alloc: Global) -> Buckets
        ensures buckets { result.last.items ≡ [] }
        ensures places { result.before.items ≡ [] }
    {
        Buckets {
            last: Rows::new(alloc),
            before: Rows::new(alloc),
        }
    }

    /// A number of empty buckets.
    pub(crate) fn empty(alloc: Global, count: u32) -> Result<Buckets, Memory>
        requires { count ≤ most }
        ensures buckets { IfOk result (λ b. length b.last.items ≡ count) }
        ensures places { IfOk result (λ b. b.before.items ≡ []) }
        ensures filed { IfOk result (λ b. (hs : List ℕ) → IsFiled hs b.last.items b.before.items) }
    {
        let mut last = Rows::new(alloc);
        for _ in 0..count {
            last.push(None)?;
        }
        let before = Rows::new(alloc);
        Ok(Buckets { last, before })
    }

    /// How many buckets there are to be before one more place comes in, where there are too few.
    pub(crate) fn wanted(&self) -> Option<u32>
        ensures some { IfSome result (λ count. (0 < count) × (count ≤ most)) }
        ensures none { IsNone result → 0 < length self.now.last.items }
    {
        let count = self.last.len();
        if self.before.len() < count || count > MOST / 4 {
            None
        } else {
            Some((4 * count).max(FIRST))
        }
    }

    /// Puts the next place in the bucket of its hash. `Err` is want of memory, and leaves the places as
    /// they were.
    pub(crate) fn file(&mut self, hash: u32) -> Result<(), Memory>
        requires some { 0 < length self.old.last.items }
        requires few { length self.old.before.items < most }
        ensures filed { OnOk result ((hs : List ℕ) → IsFiled hs self.old.last.items self.old.before.items
            → length self.old.before.items < length hs → slice_index_or hs (length self.old.before.items) 0 ≡ hash
            → IsFiled hs self.new.last.items self.new.before.items) }
        ensures places { OnOk result (length self.new.before.items ≡ length self.old.before.items + 1) }
        ensures buckets { length self.new.last.items ≡ length self.old.last.items }
        ensures last_unchanged { OnErr result (self.new.last.items ≡ self.old.last.items) }
        ensures before_unchanged { OnErr result (self.new.before.items ≡ self.old.before.items) }
    {
        let bucket = hash % self.last.len();
        self.before.reserve()?;
        let before = *self.last.at(bucket);
        self.last.set(bucket, Some(self.before.len()))?;
        self.before.push_reserved(before);
        Ok(())
    }

    /// The last place in the bucket of a hash.
    pub(crate) fn last(&self, hash: u32) -> Option<u32>
        ensures { (hs : List ℕ) → IsFiled hs self.now.last.items self.now.before.items
            → IsLast hs (length self.now.last.items) (hash % length self.now.last.items) (length self.now.before.items) result }
    {
        let bucket = hash.checked_rem(self.last.len())?;
        *self.last.at(bucket)
    }

    /// The last place before this one in its bucket.
    pub(crate) fn before(&self, place: u32) -> Option<u32>
        requires { place < length self.now.before.items }
        ensures { (hs : List ℕ) → IsFiled hs self.now.last.items self.now.before.items
            → IsLast hs (length self.now.last.items) (slice_index_or hs place 0 % length self.now.last.items) place result }
    {
        *self.before.at(place)
    }

    /// The same places in buckets of their own.
    pub(crate) fn share(&self) -> Result<Buckets, Memory>
        ensures { IfOk result (λ copy. copy ≡ self.now) }
    {
        Ok(Buckets {
            last: self.last.share()?,
            before: self.before.share()?,
        })
    }
}
