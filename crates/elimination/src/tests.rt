//! Each call once, with answers that were worked by hand.
ghost use Rattle.std.specs.Prelude.{◌≡◌, length, IfOk};

use crate::{Basis, Row};
use std::alloc::Global;
use std::process::Abort;
use std::test::Fail;

#[test]
fn rows(rt: HostRuntime) -> Result<(), Fail> {
    for last in [0u8, 62, 63, 64, 127] {
        let last = u32::from(last);
        let row = row_of(rt.alloc(), last + 1, &[last, last / 2])?;
        assert_eq!(rt; row.width(), last + 1);
        assert_eq!(rt; row.first_one(), Some(last / 2));
        assert_eq!(rt; row.entries()?.len(), last as usize + 1);
        let mut sum = row.copy()?;
        sum.add(&row_of(rt.alloc(), last + 1, &[last])?);
        assert_eq!(rt; at(&row, last), true);
        assert_eq!(rt; at(&sum, last), false);
    }
    let row = row_of(rt.alloc(), 65, &[64, 0, 3])?;
    assert_eq!(rt; row.ones()?.as_slice(), [0, 3, 64].as_slice());
    let entries = row_of(rt.alloc(), 3, &[1])?.entries()?;
    assert_eq!(rt; entries.as_slice(), [false, true, false].as_slice());
    assert_eq!(rt; Row::zeros(rt.alloc(), 0)?.first_one(), None);
    Ok(())
}

#[test]
fn identities(rt: HostRuntime) -> Result<(), Fail> {
    for last in [0u8, 1, 62, 63, 64, 127] {
        let last = u32::from(last);
        let basis = identity(rt.alloc(), last + 1)?;
        assert_eq!(rt; basis.len(), last + 1);
        let Some(numbers) = basis.express(&row_of(rt.alloc(), last + 1, &[0, last])?)? else {
            panic!(rt; "there are as many rows as entries")
        };
        assert_eq!(rt; numbers.as_slice().first(), Some(&0));
        assert_eq!(rt; numbers.as_slice().last(), Some(&last));
    }
    Ok(())
}

#[test]
fn dependent_rows(rt: HostRuntime) -> Result<(), Fail> {
    let mut basis = Basis::new(rt.alloc(), 4);
    assert!(rt; basis.add(row_of(rt.alloc(), 4, &[0, 1])?)?.is_none());
    assert!(rt; basis.add(row_of(rt.alloc(), 4, &[1, 2])?)?.is_none());
    assert!(rt; basis.add(row_of(rt.alloc(), 4, &[2, 3])?)?.is_none());
    let Some(numbers) = basis.add(row_of(rt.alloc(), 4, &[0, 3])?)? else {
        panic!(rt; "the sum of the three rows")
    };
    assert_eq!(rt; numbers.as_slice(), [0, 1, 2].as_slice());
    assert_eq!(rt; (basis.len(), basis.width()), (3, 4));
    assert!(rt; basis.express(&row_of(rt.alloc(), 4, &[0])?)?.is_none());
    let Some(numbers) = basis.express(&row_of(rt.alloc(), 4, &[0, 2])?)? else {
        panic!(rt; "the sum of the first two rows")
    };
    assert_eq!(rt; numbers.as_slice(), [0, 1].as_slice());
    if basis.len() < 2 {
        panic!(rt; "there are three rows")
    }
    assert_eq!(rt; basis.row(1).ones()?.as_slice(), [1, 2].as_slice());
    Ok(())
}

#[test]
fn empty_rows(rt: HostRuntime) -> Result<(), Fail> {
    let mut basis = Basis::new(rt.alloc(), 0);
    let Some(numbers) = basis.add(Row::zeros(rt.alloc(), 0)?)? else {
        panic!(rt; "the empty sum")
    };
    assert!(rt; numbers.is_empty());
    let mut wide = Basis::new(rt.alloc(), 3);
    let Some(none) = wide.add(Row::zeros(rt.alloc(), 3)?)? else {
        panic!(rt; "the empty sum")
    };
    assert!(rt; none.is_empty());
    assert!(rt; wide.express(&row_of(rt.alloc(), 3, &[2])?)?.is_none());
    Ok(())
}

/// The row with ones at these places.
fn row_of(alloc: Global, width: u32, places: &[u32]) -> Result<Row, Fail>
    ensures { IfOk result (λ r. length r ≡ width) }
{
    let mut row = Row::zeros(alloc, width)?;
    for q in places {
        if *q < width {
            row.set(*q);
        }
    }
    Ok(row)
}

/// The rows with a single one, in order.
fn identity(alloc: Global, width: u32) -> Result<Basis, Fail>
    ensures { IfOk result (λ b. b.width ≡ width) }
{
    let mut basis = Basis::new(alloc, width);
    for k in 0..width {
        let _ = basis.add(row_of(alloc, width, &[k])?)?;
    }
    Ok(basis)
}

/// The entry at a place, if it is there.
fn at(row: &Row, place: u32) -> bool {
    place < row.width() && row.get(place)
}
