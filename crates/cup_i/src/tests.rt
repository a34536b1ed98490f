//! Products and cap products on the simplex with five vertices, on the projective plane with six and on a strip of triangles, with
//! answers that were computed apart: for the simplex from the sets of positions.
ghost use Rattle.std.specs.Prelude.{◌≡◌, ◌≤◌, ◌<◌, IfOk, length};
ghost use Rattle.cochain_values.specs.Cochains.{StandsOn};

use crate::{CapRefusal, cap, cup_i};
use cochain_values::Cochain;
use complex_store::Complex;
use simplex_order::Simplex;
use std::alloc::Global;
use std::test::Fail;

/// Of all pairs of faces of the simplex, with each index: how many have a product, and a sum that tells which it is.
#[test]
fn products_of_faces(rt: HostRuntime) -> Result<(), Fail> {
    let k = solid(rt.alloc())?;
    let all = [
        (80, 522_240),
        (80, 1_175_880),
        (40, 1_038_932),
        (10, 403_837),
        (1, 58_621),
        (0, 0),
    ];
    let mut i = 0u8;
    for want in all {
        assert_eq!(rt; products(&k, i)?, want, "with index {i}");
        i = i.wrapping_add(1);
    }
    Ok(())
}

fn products(k: &Complex, i: u8) -> Result<(u32, u32), Fail> {
    let mut count = 0u32;
    let mut sum = 0u32;
    for y in 0..k.len() {
        let (more, weight) = products_with(k, i, y)?;
        count = count.wrapping_add(more);
        sum = sum.wrapping_add(weight);
    }
    Ok((count, sum))
}

/// Those with this simplex as the first factor.
fn products_with(k: &Complex, i: u8, y: u32) -> Result<(u32, u32), Fail>
    requires { y < length k.now }
{
    let first = only(k, y)?;
    let mut count = 0u32;
    let mut sum = 0u32;
    for z in 0..k.len() {
        let product = cup_i(k, i, &first, &only(k, z)?)?;
        if let Some(x) = product.support().ids().first() {
            count = count.wrapping_add(1);
            sum = sum.wrapping_add(weight(*x, y, z));
        }
    }
    Ok((count, sum))
}

fn weight(x: u32, y: u32, z: u32) -> u32 {
    let pair = y
        .wrapping_add(1)
        .wrapping_mul(z.wrapping_mul(2).wrapping_add(1));
    pair.wrapping_mul(x.wrapping_add(1))
}

/// The cochain with the value 1 at this simplex alone.
fn only(k: &Complex, id: u32) -> Result<Cochain, Fail>
    requires { id < length k.now }
    ensures stands { IfOk result (StandsOn k.now) }
    ensures small { IfOk result (λ c. c.degree ≤ 99) }
{
    let Some(s) = k.simplex(id) else {
        unreachable!()
    };
    let degree = s.dim();
    Ok(Cochain::from_simplices(k, degree, &[s])?)
}

/// Of the sums of all faces of two dimensions, with an index: how many simplices the product has.
#[test]
fn products_of_sums(rt: HostRuntime) -> Result<(), Fail> {
    let k = solid(rt.alloc())?;
    let vertices = [size(&k, 0, 1, 1)?, size(&k, 0, 2, 1)?];
    assert_eq!(rt; vertices, [10, 5]);
    let edges = [size(&k, 1, 1, 2)?, size(&k, 1, 2, 1)?, size(&k, 1, 2, 2)?];
    assert_eq!(rt; edges, [10, 0, 0]);
    assert_eq!(rt; [size(&k, 1, 3, 2)?, size(&k, 1, 2, 3)?], [1, 0]);
    Ok(())
}

fn size(k: &Complex, i: u8, p: u8, q: u8) -> Result<usize, Fail>
    requires first { p ≤ 99 }
    requires second { q ≤ 99 }
{
    let first = sum(k, p)?;
    let second = sum(k, q)?;
    let product = cup_i(k, i, &first, &second)?;
    Ok(product.support().ids().len())
}

/// The cochain with the value 1 at all simplices of one dimension.
fn sum(k: &Complex, p: u8) -> Result<Cochain, Fail>
    ensures stands { IfOk result (StandsOn k.now) }
    ensures degree { IfOk result (λ c. c.degree ≡ p) }
{
    let mut simplices = Vec::new(k.allocator());
    for id in 0..k.len() {
        if let Some(s) = k.simplex(id) {
            if s.dim() == p {
                simplices.push(s)?;
            }
        }
    }
    Ok(Cochain::from_simplices(k, p, &simplices)?)
}

#[test]
fn degrees(rt: HostRuntime) -> Result<(), Fail> {
    let k = solid(rt.alloc())?;
    let wide = Cochain::from_simplices(&k, 99, &[])?;
    let product = cup_i(&k, 0, &wide, &wide)?;
    assert_eq!(rt; product.degree(), 198);
    assert!(rt; product.support().ids().is_empty());
    let past = cup_i(&k, 200, &wide, &wide)?;
    assert_eq!(rt; past.degree(), 0);
    Ok(())
}

/// The square of the class of degree 1, its products with a vertex, and with index 1.
#[test]
fn projective_plane(rt: HostRuntime) -> Result<(), Fail> {
    let k = plane(rt.alloc())?;
    let edges = class(&k)?;
    let vertex = Cochain::from_simplices(&k, 0, &[simplex(&[2])?])?;
    let triangle = k.find(&simplex(&[2, 3, 6])?);
    let square = cup_i(&k, 0, &edges, &edges)?;
    assert_eq!(rt; square.support().ids().first().copied(), triangle);
    assert_eq!(rt; square.support().ids().len(), 1);
    assert_eq!(rt;
        cup_i(&k, 1, &edges, &edges)?.support().ids(),
        edges.support().ids()
    );
    assert_eq!(rt; cup_i(&k, 0, &vertex, &edges)?.support().ids().len(), 2);
    assert_eq!(rt; cup_i(&k, 0, &edges, &vertex)?.support().ids().len(), 0);
    Ok(())
}

/// Products of few edges of a long strip, which are sought over the members of one factor.
#[test]
fn few_members(rt: HostRuntime) -> Result<(), Fail> {
    let k = strip(rt.alloc())?;
    let fronts = edges(&k, &[[3, 4], [10, 11]])?;
    let backs = edges(&k, &[[4, 5], [12, 13]])?;
    let triangle = k.find(&simplex(&[3, 4, 5])?);
    let product = cup_i(&k, 0, &fronts, &backs)?;
    assert_eq!(rt; product.support().ids().first().copied(), triangle);
    assert_eq!(rt; product.support().ids().len(), 1);
    assert_eq!(rt; cup_i(&k, 0, &backs, &fronts)?.support().ids().len(), 0);
    assert_eq!(rt;
        cup_i(&k, 1, &fronts, &fronts)?.support().ids(),
        fronts.support().ids()
    );
    let all = sum(&k, 1)?;
    let product = cup_i(&k, 0, &all, &edges(&k, &[[4, 5]])?)?;
    assert_eq!(rt; product.support().ids().first().copied(), triangle);
    assert_eq!(rt; product.support().ids().len(), 1);
    Ok(())
}

/// The triangles of three consecutive vertices of 42, and their faces.
fn strip(alloc: Global) -> Result<Complex, Fail> {
    let mut k = Complex::new(alloc);
    for v in 0..42u32 {
        k.attach(simplex(&[v])?)?;
    }
    for v in 0..41u32 {
        k.attach(simplex(&[v, v + 1])?)?;
    }
    for v in 0..40u32 {
        k.attach(simplex(&[v, v + 2])?)?;
        k.attach(simplex(&[v, v + 1, v + 2])?)?;
    }
    Ok(k)
}

/// The cochain with the value 1 at these edges.
fn edges(k: &Complex, all: &[[u32; 2]]) -> Result<Cochain, Fail>
    ensures stands { IfOk result (StandsOn k.now) }
    ensures degree { IfOk result (λ c. c.degree ≡ 1) }
{
    let mut simplices = Vec::new(k.allocator());
    for edge in all {
        simplices.push(simplex(edge)?)?;
    }
    Ok(Cochain::from_simplices(k, 1, &simplices)?)
}

/// Two back faces cancel, and a third stays.
#[test]
fn caps(rt: HostRuntime) -> Result<(), Fail> {
    let k = plane(rt.alloc())?;
    let edges = [simplex(&[1, 5])?, simplex(&[4, 5])?, simplex(&[2, 3])?];
    let edges = Cochain::from_simplices(&k, 1, &edges)?;
    let triangles = [
        simplex(&[1, 5, 6])?,
        simplex(&[4, 5, 6])?,
        simplex(&[2, 3, 6])?,
    ];
    let triangles = Cochain::from_simplices(&k, 2, &triangles)?;
    let back = k.find(&simplex(&[3, 6])?);
    let product = cap(&k, &edges, triangles.support(), 2)?;
    assert_eq!(rt; product.ids().first().copied(), back);
    assert_eq!(rt; product.ids().len(), 1);
    let wide = cap(&k, &triangles, edges.support(), 1);
    assert!(rt;
        matches!(
            wide,
            Err(CapRefusal::Degrees {
                cochain: 2,
                chain: 1
            })
        )
    );
    Ok(())
}

fn class(k: &Complex) -> Result<Cochain, Fail>
    ensures stands { IfOk result (StandsOn k.now) }
    ensures small { IfOk result (λ c. c.degree ≤ 99) }
{
    let edges = [
        simplex(&[2, 3])?,
        simplex(&[2, 5])?,
        simplex(&[3, 6])?,
        simplex(&[4, 5])?,
        simplex(&[4, 6])?,
    ];
    Ok(Cochain::from_simplices(k, 1, &edges)?)
}

fn simplex(vertices: &[u32]) -> Result<Simplex, Fail> {
    Ok(Simplex::from_vertices(vertices)?)
}

/// The complex of these simplices, in this order.
fn complex(alloc: Global, simplices: &[&[u32]]) -> Result<Complex, Fail> {
    let mut k = Complex::new(alloc);
    for vertices in simplices {
        k.attach(simplex(vertices)?)?;
    }
    Ok(k)
}

/// The simplex with the vertices 0 to 4 and its faces. The ids are the sums of the powers of two of the vertices, less one.
fn solid(alloc: Global) -> Result<Complex, Fail> {
    complex(
        alloc,
        &[
            &[0],
            &[1],
            &[0, 1],
            &[2],
            &[0, 2],
            &[1, 2],
            &[0, 1, 2],
            &[3],
            &[0, 3],
            &[1, 3],
            &[0, 1, 3],
            &[2, 3],
            &[0, 2, 3],
            &[1, 2, 3],
            &[0, 1, 2, 3],
            &[4],
            &[0, 4],
            &[1, 4],
            &[0, 1, 4],
            &[2, 4],
            &[0, 2, 4],
            &[1, 2, 4],
            &[0, 1, 2, 4],
            &[3, 4],
            &[0, 3, 4],
            &[1, 3, 4],
            &[0, 1, 3, 4],
            &[2, 3, 4],
            &[0, 2, 3, 4],
            &[1, 2, 3, 4],
            &[0, 1, 2, 3, 4],
        ],
    )
}

/// The projective plane with six vertices.
fn plane(alloc: Global) -> Result<Complex, Fail> {
    complex(
        alloc,
        &[
            &[1],
            &[2],
            &[3],
            &[4],
            &[5],
            &[6],
            &[1, 2],
            &[1, 3],
            &[1, 4],
            &[1, 5],
            &[1, 6],
            &[2, 3],
            &[2, 4],
            &[2, 5],
            &[2, 6],
            &[3, 4],
            &[3, 5],
            &[3, 6],
            &[4, 5],
            &[4, 6],
            &[5, 6],
            &[1, 2, 4],
            &[1, 2, 6],
            &[1, 3, 4],
            &[1, 3, 5],
            &[1, 5, 6],
            &[2, 3, 5],
            &[2, 3, 6],
            &[2, 4, 5],
            &[3, 4, 6],
            &[4, 5, 6],
        ],
    )
}
