//! Keys in each order round the sizes at which buckets become more, keys whose hashes are all the same, and
//! shares that later changes must not reach.
use crate::{Index, Memory};
use memory::{Duplicate, Hashed};
use std::alloc::Global;
use std::marker::Model;
use std::test::Fail;

#[derive(Clone, Copy)]
enum Order {
    Ascending,
    Descending,
    Mixed,
}

/// The key that comes as the `i`-th of `n`.
fn key(order: Order, i: u32, n: u32) -> u32 {
    match order {
        Order::Ascending => i,
        Order::Descending => n.wrapping_sub(i),
        Order::Mixed => i.wrapping_mul(7_919).checked_rem(n).unwrap_or(0),
    }
}

/// Sets the keys from the `from`-th up to the `to`-th of `n`.
fn set(index: &mut Index<u32>, order: Order, from: u32, to: u32, n: u32) -> Result<(), Memory> {
    for i in from..to {
        let key = key(order, i, n);
        if index.len() < 16_777_216 {
            index.with(key, key ^ 1)?;
        }
    }
    Ok(())
}

/// Whether the map has just the first `count` of `n` keys.
fn has_just(index: &Index<u32>, order: Order, count: u32, n: u32) -> bool {
    for i in 0..n {
        let key = key(order, i, n);
        let value = if i < count { Some(key ^ 1) } else { None };
        if index.get(&key) != value {
            return false;
        }
    }
    index.len() == count
}

/// Whether shares that were taken half way and at the end, and the map itself, have what they had.
fn holds(alloc: Global, order: Order, n: u32) -> Result<bool, Memory> {
    let half = n / 2;
    let mut index = Index::new(alloc);
    set(&mut index, order, 0, half, n)?;
    let early = index.share()?;
    set(&mut index, order, half, n, n)?;
    let late = index.share()?;
    let whole = has_just(&index, order, n, n);
    if index.len() < 16_777_216 {
        index.with(key(order, 0, n), n)?;
    }
    let changed = index.get(&key(order, 0, n)) == Some(n) && index.len() == n;
    Ok(whole && changed && has_just(&early, order, half, n) && has_just(&late, order, n, n))
}

#[test]
fn orders(rt: HostRuntime) -> Result<(), Fail> {
    for n in [1, 2, 32, 33, 34, 128, 129, 130, 1_025, 3_001] {
        assert!(rt; holds(rt.alloc(), Order::Ascending, n)?);
        assert!(rt; holds(rt.alloc(), Order::Descending, n)?);
        assert!(rt; holds(rt.alloc(), Order::Mixed, n)?);
    }
    Ok(())
}

/// A thousand shares, one change between each and the next.
fn versions(alloc: Global) -> Result<Vec<Index<u32>>, Memory> {
    let mut held = Vec::new(alloc);
    let mut index = Index::new(alloc);
    for i in 0..1_000 {
        held.push(index.share()?)?;
        set(&mut index, Order::Mixed, i, i + 1, 1_000)?;
    }
    Ok(held)
}

#[test]
fn a_thousand_shares(rt: HostRuntime) -> Result<(), Fail> {
    let held = versions(rt.alloc())?;
    assert_eq!(rt; held.len(), 1_000);
    for (count, index) in held.iter().enumerate() {
        let count = u32::try_from(count).unwrap_or(0);
        assert!(rt; has_just(index, Order::Mixed, count, 1_000));
    }
    Ok(())
}

fn crosses<T: Send + Sync>(_value: &T) {}

/// A map whose keys may cross to other threads may itself.
fn index_crosses<K: Hashed + Send + Sync>(index: &Index<K>) {
    crosses(index);
}

#[test]
fn each_call(rt: HostRuntime) -> Result<(), Fail> {
    let mut index = Index::new(rt.alloc());
    assert_eq!(rt; index.get(&5), None);
    index.insert_reserved(5, 50);
    assert_eq!(rt; index.get(&5), Some(50));
    index.reserve()?;
    index.insert_reserved(3, 30);
    index.with(5, 51)?;
    let share = index.share()?;
    index.with(4, 40)?;
    index_crosses(&index);
    assert_eq!(rt; index.len(), 3);
    assert_eq!(rt; share.len(), 2);
    assert_eq!(rt; share.get(&4), None);
    assert_eq!(rt;
        (index.get(&3), index.get(&4), index.get(&5)),
        (Some(30), Some(40), Some(51))
    );
    Ok(())
}

/// A key whose hash says nothing.
#[derive(Drop)]
struct Alike {
    number: u32,
}

impl Model for Alike {
    ghost use Rattle.std.specs.Prelude.{ℕ};

    ghost Value = { ℕ };

    ghost view = { λ a. a.number };
}

impl Duplicate for Alike {
    fn duplicate(&self) -> Result<Alike, Memory> {
        Ok(Alike {
            number: self.number,
        })
    }
}

impl Hashed for Alike {
    ghost use Rattle.std.specs.Prelude.{nat_eq};
    ghost use Rattle.std.proofs.Common.{rules};
    ghost use Rattle.std.specs.Cmp.{nat_eq_equiv};

    ghost same = { nat_eq };

    ghost hash = { λ n. 7 };

    fn is_same(&self, other: &Alike) -> bool {
        self.number == other.number
    }

    fn hash(&self) -> u32 {
        7
    }

    ghost laws = { nat_eq_equiv };

    ghost exact = { Prim.search rules };
}

#[test]
fn equal_hashes(rt: HostRuntime) -> Result<(), Fail> {
    let mut index = Index::new(rt.alloc());
    for number in 0..100 {
        if index.len() < 16_777_216 {
            index.with(Alike { number }, number + 1)?;
        }
    }
    let share = index.share()?;
    if index.len() < 16_777_216 {
        index.with(Alike { number: 40 }, 7)?;
    }
    for number in 0..100 {
        let key = Alike { number };
        let value = if number == 40 { 7 } else { number + 1 };
        assert_eq!(rt; index.get(&key), Some(value));
        assert_eq!(rt; share.get(&key), Some(number + 1));
    }
    assert_eq!(rt; index.len(), 100);
    assert_eq!(rt; index.get(&Alike { number: 100 }), None);
    Ok(())
}
