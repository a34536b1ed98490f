//! The items of a list one after another.
ghost use Rattle.std.specs.Iterator.{at_most};
ghost use Rattle.std.specs.Map.Iter.{TakesFirst, TakesLast, deref};
ghost use Rattle.std.specs.Prelude.{length};

use crate::tree::Tree;
use memory::Duplicate;
use std::marker::Model;

/// The items of a list, from either end. A contract sees the list of those that are left.
#[derive(Drop)]
pub struct Iter<'a, T: Duplicate> {
    pub(crate) tree: Option<&'a Tree<T>>,
    pub(crate) from: u32,
    pub(crate) to: u32,
    /// What is left before `from`.
    pub(crate) front: &'a [T],
    /// What is left from `to` on, but for the item that waits; nothing while that one is left.
    pub(crate) back: &'a [T],
    pub(crate) late: Option<&'a T>,
}

impl<'a, T: Duplicate> Model for Iter<'a, T> {
    ghost use Rattle.std.specs.Prelude.{◌≤◌, ◌<◌, IsNone, List, ◌++◌, length, slice_range};
    ghost use Rattle.std.specs.Option.{option_to_list, option_copied};
    ghost use Rattle.share_rows.specs.Tables.{held};

    ghost Value = { List T };

    ghost view = { λ i. i.front.now ++ (slice_range (held (option_copied i.tree)) i.from i.to ++ (i.back.now ++ option_to_list (option_copied i.late))) };

    ghost invariant = { λ i. (i.from ≤ i.to) × (i.to ≤ length (held (option_copied i.tree))) × (0 < length i.back.now → IsNone i.late) };
}

impl<'a, T: Duplicate> Iterator for Iter<'a, T> {
    type Item = &'a T;

    ghost next_gives = { TakesFirst deref };

    ghost remaining = { λ s. at_most (length s) };

    #[inline]
    fn next(&mut self) -> Option<&'a T> {
        if let Some((item, rest)) = self.front.split_first() {
            self.front = rest;
            return Some(item);
        }
        if let Some(tree) = self.tree
            && self.from < self.to
        {
            let run = tree.run(self.from, self.to);
            self.from += run.len() as u32;
            self.front = &run[1..];
            return Some(&run[0]);
        }
        if let Some((item, rest)) = self.back.split_first() {
            self.back = rest;
            return Some(item);
        }
        self.late.take()
    }
}

impl<'a, T: Duplicate> DoubleEndedIterator for Iter<'a, T> {
    ghost next_back_gives = { TakesLast deref };

    #[inline]
    fn next_back(&mut self) -> Option<&'a T> {
        if let Some((item, rest)) = self.back.split_last() {
            self.back = rest;
            return Some(item);
        }
        if let Some(item) = self.late.take() {
            return Some(item);
        }
        if let Some(tree) = self.tree
            && self.from < self.to
        {
            let run = tree.run_back(self.from, self.to);
            self.to -= run.len() as u32;
            let last = run.len() - 1;
            self.back = &run[..last];
            return Some(&run[last]);
        }
        if let Some((item, rest)) = self.front.split_last() {
            self.front = rest;
            return Some(item);
        }
        None
    }
}
