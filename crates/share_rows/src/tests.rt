//! Lists compared with plain vectors, and shares that stay as they were.
use crate::Rows;
use memory::{Duplicate, Shared};
use std::process::Abort;
use std::test::Fail;

#[test]
fn each_call(rt: HostRuntime) -> Result<(), Fail> {
    let mut rows = Rows::new(rt.alloc());
    assert_eq!(rt; rows.get(0), None);
    rows.reserve()?;
    for x in [4, 5, 6] {
        push(&rt, &mut rows, x)?;
    }
    let share = rows.share()?;
    set(&rt, &mut rows, 1, 9)?;
    rows.reserve()?;
    set(&rt, &mut rows, 2, 8)?;
    same(&rt, &rows, &[4, 9, 8])?;
    same(&rt, &share, &[4, 5, 6])?;
    same(&rt, &share.duplicate()?, &[4, 5, 6])
}

#[test]
fn around_the_bounds(rt: HostRuntime) -> Result<(), Fail> {
    let mut rows = Rows::new(rt.alloc());
    let mut items = Vec::new(rt.alloc());
    for bound in [32, 256, 1_024, 65_536] {
        for x in rows.len()..bound - 2 {
            items.push(x)?;
            push(&rt, &mut rows, x)?;
        }
        let mut before = rows.share()?;
        for x in [1, 2, 3] {
            let known = items.clone()?;
            items.push(x)?;
            push(&rt, &mut rows, x)?;
            same(&rt, &before, &known)?;
            same(&rt, &rows, &items)?;
            before = rows.share()?;
        }
    }
    Ok(())
}

#[test]
fn a_thousand_shares(rt: HostRuntime) -> Result<(), Fail> {
    let mut rows = Rows::new(rt.alloc());
    let mut items = Vec::new(rt.alloc());
    for x in 0..1_100 {
        items.push(x)?;
        push(&rt, &mut rows, x)?;
    }
    let mut shares = Vec::new(rt.alloc());
    for k in 0..1_000 {
        shares.push(rows.share()?)?;
        set(&rt, &mut rows, changed(k), k)?;
    }
    assert_eq!(rt; shares.len(), 1_000);
    for k in 0..1_000u32 {
        same(&rt, &shares[k as usize], &items)?;
        let place = changed(k) as usize;
        assert!(rt; place < items.len());
        items[place] = k;
    }
    same(&rt, &rows, &items)
}

/// The place of the k-th change.
fn changed(k: u32) -> u32 {
    k % 157 * 7
}

#[test]
fn lists_of_lists(rt: HostRuntime) -> Result<(), Fail> {
    let mut inner = Rows::new(rt.alloc());
    push(&rt, &mut inner, 1)?;
    let mut outer = Rows::new(rt.alloc());
    push(&rt, &mut outer, Shared::new(rt.alloc(), inner.share()?)?)?;
    set(&rt, &mut inner, 0, 2)?;
    push(&rt, &mut outer, Shared::new(rt.alloc(), inner)?)?;
    let share = outer.share()?;
    assert_eq!(rt; share.len(), 2);
    same(&rt, share.at(0).get(), &[1])?;
    same(&rt, share.at(1).get(), &[2])
}

fn push<T: Duplicate, R: Abort>(rt: &R, rows: &mut Rows<T>, x: T) -> Result<(), Fail> {
    assert!(rt; rows.len() < 16_777_216);
    rows.push(x)?;
    Ok(())
}

fn set<R: Abort>(rt: &R, rows: &mut Rows<u32>, k: u32, x: u32) -> Result<(), Fail> {
    assert!(rt; k < rows.len());
    rows.set(k, x)?;
    Ok(())
}

/// Whether a list has these items: by their places, upwards and downwards.
fn same<R: Abort>(rt: &R, rows: &Rows<u32>, items: &[u32]) -> Result<(), Fail> {
    assert_eq!(rt; rows.len() as usize, items.len());
    for k in 0..rows.len() {
        assert_eq!(rt; rows.at(k), &items[k as usize]);
    }
    assert!(rt; rows.iter().eq(items.iter()));
    assert!(rt; rows.iter().rev().eq(items.iter().rev()));
    assert_eq!(rt; rows.get(rows.len()), None);
    Ok(())
}

/// Lists of items that cross between threads do so too.
fn cross<T: Duplicate + Send + Sync>(rows: Rows<T>) {
    crosses(rows);
}

fn crosses<X: Send + Sync + Drop>(_value: X) {}
