//! Lines by several callers, returns, and growth anew after want of memory.
use crate::{BackRefusal, Board, BoardRefusal, Book, Entry, LocalBoard, Receipt, Root};
use simplex_order::Simplex;
use std::process::Abort;
use std::test::Fail;

/// A triangle as a facet, a cut, an edge, a cut, back to the first version, a point, a cut, and back to the empty line.
const STEPS: u32 = 8;

#[test]
fn the_line_of_a_book(rt: HostRuntime) -> Result<(), Fail> {
    let mut book = Book::new(rt.alloc());
    for step in 0..STEPS {
        take(&rt, &mut book, step)?;
    }
    let root = book.root();
    assert_eq!(rt; root.entries(), 15);
    assert_eq!(rt; root.version(), 3);
    assert_eq!(rt; root.line().returns(), 2);
    assert_eq!(rt; root.model().len(), 8);
    assert_eq!(rt; root.model().betti(0), 2);
    assert!(rt; matches!(root.line().get(7), Some(Entry::Cut { caller: 0 })));
    assert!(rt;
        matches!(
            root.line().get(14),
            Some(Entry::Back {
                caller: 1,
                version: 0
            })
        )
    );
    assert!(rt; root.line().get(15).is_none());
    Ok(())
}

/// Two books of the same line, one of which may lack memory anywhere: each step is taken again then, and the line is as before.
/// What came of it is the same. (With ample memory this compares a book with itself; `rt try --test --fail-alloc N` refuses one
/// allocation after another.)
#[test]
fn memory_again_after_want_of_it(rt: HostRuntime) -> Result<(), Fail> {
    let mut one = Book::new(rt.alloc());
    let mut other = Book::new(rt.alloc());
    for step in 0..STEPS {
        take(&rt, &mut one, step)?;
    }
    for step in 0..STEPS {
        take(&rt, &mut other, step)?;
    }
    same(&rt, one.root(), other.root())?;
    let point = simplex(&[0])?;
    assert!(rt;
        matches!(
            other.attach(3, point),
            Ok(Receipt {
                first: 15,
                added: 1,
                id: 0,
                entries: 16
            })
        )
    );
    Ok(())
}

/// Taking back what came in loses the growing model, which is grown anew from the last cut or return.
#[test]
fn growth_anew(rt: HostRuntime) -> Result<(), Fail> {
    for steps in 0..STEPS {
        let mut book = Book::new(rt.alloc());
        let mut other = Book::new(rt.alloc());
        for step in 0..steps {
            take(&rt, &mut book, step)?;
            take(&rt, &mut other, step)?;
        }
        let root = book.root().share()?;
        book.cut(2)?;
        book.take_back(root);
        for step in steps..STEPS {
            take(&rt, &mut book, step)?;
            take(&rt, &mut other, step)?;
        }
        same(&rt, book.root(), other.root())?;
    }
    Ok(())
}

#[test]
fn callers_in_turn(rt: HostRuntime) -> Result<(), Fail> {
    let mut board = LocalBoard::new(rt.alloc());
    let triangle = [simplex(&[0, 1, 2])?];
    assert!(rt;
        matches!(
            board.facet(&(), &triangle),
            Ok(Receipt {
                first: 0,
                added: 7,
                id: 6,
                entries: 7
            })
        )
    );
    board.turn(5);
    assert_eq!(rt; board.caller(), 5);
    assert_eq!(rt; board.seen(), 7);
    let receipt = board.cut(&())?;
    assert_eq!(rt; receipt.version, 1);
    assert_eq!(rt; receipt.root.entries(), 8);
    assert!(rt; matches!(board.back(&(), 2), Err(BackRefusal::NoVersion(1))));
    assert!(rt; board.back(&(), 0).is_ok());
    assert!(rt;
        matches!(
            board.attach(&(), simplex(&[0, 1])?),
            Err(BoardRefusal::Face(_))
        )
    );
    let root = board.look()?;
    assert_eq!(rt; root.entries(), 9);
    assert_eq!(rt; root.model().len(), 7);
    assert!(rt; matches!(root.line().get(7), Some(Entry::Cut { caller: 5 })));
    Ok(())
}

/// Takes a step; where memory is wanted, the line is as it was, and the step is taken again.
fn take<R: Abort>(rt: &R, book: &mut Book, step: u32) -> Result<(), Fail> {
    let entries = book.root().entries();
    if !comes_in(book, step)? {
        assert_eq!(rt; book.root().entries(), entries);
        assert!(rt; comes_in(book, step)?);
    }
    Ok(())
}

/// Whether memory was found for a step.
fn comes_in(book: &mut Book, step: u32) -> Result<bool, Fail> {
    let memory = match step {
        0 => book.facet(0, &[simplex(&[0, 1, 2])?]).is_ok(),
        2 => book.facet(0, &[simplex(&[0, 3])?]).is_ok(),
        4 => book.back(0, 1).is_ok(),
        5 => book.attach(0, simplex(&[3])?).is_ok(),
        7 => book.back(1, 0).is_ok(),
        _ => book.cut(0).is_ok(),
    };
    Ok(memory)
}

fn simplex(vertices: &[u32]) -> Result<Simplex, Fail> {
    Ok(Simplex::from_vertices(vertices)?)
}

/// Two roots are of the same line.
fn same<R: Abort>(rt: &R, one: &Root, other: &Root) -> Result<(), Fail> {
    assert_eq!(rt; one.entries(), other.entries());
    assert_eq!(rt; one.version(), other.version());
    assert_eq!(rt; one.model().len(), other.model().len());
    for degree in 0..4 {
        assert_eq!(rt; one.model().betti(degree), other.model().betti(degree));
    }
    for k in 0..one.entries() {
        assert!(rt; equal(one.line().get(k), other.line().get(k)));
    }
    Ok(())
}

fn equal(one: Option<Entry>, other: Option<Entry>) -> bool {
    match (one, other) {
        (
            Some(
                Entry::Attach {
                    caller: c,
                    simplex: s,
                },
            ),
            Some(
                Entry::Attach {
                    caller: d,
                    simplex: t,
                },
            ),
        ) => c == d && s == t,
        (Some(Entry::Cut { caller: c }), Some(Entry::Cut { caller: d })) => c == d,
        (
            Some(
                Entry::Back {
                    caller: c,
                    version: v,
                },
            ),
            Some(
                Entry::Back {
                    caller: d,
                    version: w,
                },
            ),
        ) => c == d && v == w,
        _ => false,
    }
}
