//! The places of held versions.
ghost use Rattle.std.specs.Prelude.{◌≡◌, ◌+◌, ◌<◌, ◌≤◌, false, length};
ghost use Rattle.std.specs.Vec.{vec_capacity};
ghost use Rattle.session_core.specs.Places.{first_named, stands_for, with_root};

use facet_reader::Name;
use version_roots::Root;

/// A name, and the place of the root that it stands for.
#[derive(Drop)]
pub(crate) struct Named {
    pub(crate) name: Name,
    pub(crate) place: usize,
}

/// The place that a name stands for, if it is held.
pub(crate) fn place_of(names: &[Named], name: &Name) -> Option<usize>
    ensures { result ≡ first_named names.now name.now }
{
    for named in names {
        if named.name == *name {
            return Some(named.place);
        }
    }
    None
}

/// The first place below `count` that no name stands for and that is not `kept`; else `count`.
pub(crate) fn free_place(names: &[Named], kept: usize, count: usize) -> usize
    ensures within { result ≤ count }
    ensures free { result < count → stands_for names.now kept result ≡ false }
    ensures few { result ≤ length names.now + 1 }
{
    for place in 0..count {
        if !is_taken(names, kept, place) {
            return place;
        }
    }
    count
}

/// Puts a root at a place, where one is let go, or behind all. It takes no memory.
pub(crate) fn put_at(roots: &mut Vec<Root>, place: usize, root: Root)
    requires within { place ≤ length roots.old.items }
    requires room { place < vec_capacity roots.old }
    ensures items { roots.new.items ≡ with_root roots.old.items place root }
    ensures capacity { vec_capacity roots.old ≤ vec_capacity roots.new }
{
    if place < roots.len() {
        roots[place] = root;
        return;
    }
    let Ok(()) = roots.push(root) else {
        unreachable!()
    };
}

/// Whether a name stands for a place, or it is `kept`.
fn is_taken(names: &[Named], kept: usize, place: usize) -> bool
    ensures { result ≡ stands_for names.now kept place }
{
    kept == place || names.iter().any(|named| named.place == place)
}
