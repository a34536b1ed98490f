//! Each call once, on a filled triangle, with answers that were worked by hand.
use crate::{Cochain, CochainRefusal, boundary_of_chain};
use complex_store::Complex;
use simplex_order::Simplex;
use std::alloc::Global;
use std::test::Fail;

#[test]
fn coboundaries(rt: HostRuntime) -> Result<(), Fail> {
    let k = triangle(rt.alloc())?;
    let vertex = Cochain::from_simplices(&k, 0, &[simplex(&[4])?])?;
    let edges = vertex.coboundary(&k)?;
    assert_eq!(rt; edges.support().ids(), [3, 4].as_slice());
    assert_eq!(rt; edges.degree(), 1);
    assert_eq!(rt; edges.broken_at(&k)?, None);
    assert!(rt; edges.at(4) && !edges.at(5));
    let edge = Cochain::from_ids(
        &k,
        1,
        Cochain::from_simplices(&k, 1, &[simplex(&[4, 7])?])?.support(),
    )?;
    assert_eq!(rt; edge.broken_at(&k)?, Some(6));
    assert_eq!(rt; edges.sum(&edge)?.support().ids(), [4].as_slice());
    Ok(())
}

#[test]
fn boundaries(rt: HostRuntime) -> Result<(), Fail> {
    let k = triangle(rt.alloc())?;
    let path = [
        simplex(&[4, 7])?,
        simplex(&[5, 7])?,
        simplex(&[4, 5])?,
        simplex(&[5, 7])?,
    ];
    let edges = Cochain::from_simplices(&k, 1, &path)?;
    let ends = boundary_of_chain(&k, 1, edges.support())?;
    assert_eq!(rt; ends.ids(), [1, 2].as_slice());
    Ok(())
}

#[test]
fn refusals(rt: HostRuntime) -> Result<(), Fail> {
    let k = triangle(rt.alloc())?;
    let absent = [
        simplex(&[4, 7])?,
        simplex(&[9])?,
        simplex(&[8])?,
        simplex(&[4])?,
    ];
    let Err(CochainRefusal::NotThere(s)) = Cochain::from_simplices(&k, 1, &absent) else {
        panic!(rt; "a simplex is absent")
    };
    assert_eq!(rt; s.vertices(), [9].as_slice());
    let wide = [
        simplex(&[4, 7])?,
        simplex(&[5])?,
        simplex(&[5])?,
        simplex(&[9])?,
    ];
    let Err(CochainRefusal::Degree(s)) = Cochain::from_simplices(&k, 1, &wide) else {
        panic!(rt; "a simplex has another dimension")
    };
    assert_eq!(rt; s.vertices(), [5].as_slice());
    Ok(())
}

fn simplex(vertices: &[u32]) -> Result<Simplex, Fail> {
    Ok(Simplex::from_vertices(vertices)?)
}

/// The triangle of 4, 5 and 7 with its faces; the edge of 4 and 7 comes before that of 4 and 5.
fn triangle(alloc: Global) -> Result<Complex, Fail> {
    let mut k = Complex::new(alloc);
    for vertices in [
        [4].as_slice(),
        &[7],
        &[5],
        &[4, 7],
        &[4, 5],
        &[5, 7],
        &[4, 5, 7],
    ] {
        k.attach(simplex(vertices)?)?;
    }
    Ok(k)
}
