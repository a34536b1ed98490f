//! Points, a circle, a filled triangle, and what is not closed; a pinched surface, and a suspension that is no manifold: each answer once.
ghost use Rattle.std.specs.Prelude.{◌≡◌, ◌<◌};

use crate::{ClosedRefusal, LinkRefusal, closed, links};
use at_model::Model;
use f2_chains::Steps;
use simplex_order::Simplex;
use std::alloc::Global;
use std::marker::Brand;
use std::process::Abort;
use std::sync::ledger::{Blank, Ledger};
use std::test::Fail;

#[test]
fn closed_complexes(rt: HostRuntime) -> Result<(), Fail> {
    let points = model(rt.alloc(), &[&[4], &[2]])?;
    assert!(rt; matches!(closed(&points), Ok(0)));
    let circle = model(rt.alloc(), HOLLOW)?;
    assert!(rt; matches!(closed(&circle), Ok(1)));
    Ok(())
}

#[test]
fn what_is_not_closed(rt: HostRuntime) -> Result<(), Fail> {
    let nothing = model(rt.alloc(), &[])?;
    assert!(rt; matches!(closed(&nothing), Err(ClosedRefusal::Nothing)));
    let tail = model(
        rt.alloc(),
        &[
            &[0],
            &[1],
            &[2],
            &[0, 1],
            &[0, 2],
            &[1, 2],
            &[0, 1, 2],
            &[9],
            &[5],
            &[5, 9],
        ],
    )?;
    let Err(ClosedRefusal::NotPure(simplex)) = closed(&tail) else {
        panic!(rt; "an edge lies in no triangle")
    };
    assert_eq!(rt; simplex.vertices(), [5].as_slice());
    let filled = model(
        rt.alloc(),
        &[&[2], &[1], &[0], &[1, 2], &[0, 2], &[0, 1], &[0, 1, 2]],
    )?;
    let Err(ClosedRefusal::Ridge { simplex, times }) = closed(&filled) else {
        panic!(rt; "an edge lies in one triangle")
    };
    assert_eq!(rt; simplex.vertices(), [0, 1].as_slice());
    assert_eq!(rt; times, 1);
    Ok(())
}

#[test]
fn links_of_spheres(rt: HostRuntime) -> Result<(), Fail> {
    let nothing = model(rt.alloc(), &[])?;
    assert!(rt; matches!(links(&nothing), Ok(())));
    let points = model(rt.alloc(), &[&[4], &[2], &[7]])?;
    assert!(rt; matches!(links(&points), Ok(())));
    let circle = model(rt.alloc(), HOLLOW)?;
    assert!(rt; matches!(links(&circle), Ok(())));
    let plane = filled(rt.alloc(), PROJECTIVE_PLANE)?;
    assert!(rt; matches!(links(&plane), Ok(())));
    let bipyramid = filled(rt.alloc(), HEXAGONAL_BIPYRAMID)?;
    assert!(rt; matches!(links(&bipyramid), Ok(())));
    let sphere = filled(
        rt.alloc(),
        &[
            &[0, 1, 2, 3],
            &[0, 1, 2, 4],
            &[0, 1, 3, 4],
            &[0, 2, 3, 4],
            &[1, 2, 3, 4],
        ],
    )?;
    assert!(rt; matches!(links(&sphere), Ok(())));
    Ok(())
}

#[test]
fn links_of_no_spheres(rt: HostRuntime) -> Result<(), Fail> {
    let triangle = filled(rt.alloc(), &[&[2, 1, 0]])?;
    let Err(LinkRefusal::Link { simplex, betti }) = links(&triangle) else {
        panic!(rt; "the link of a vertex is an edge")
    };
    assert_eq!(rt; simplex.vertices(), [0].as_slice());
    assert_eq!(rt; betti.as_slice(), [1, 0].as_slice());
    let star = model(
        rt.alloc(),
        &[&[3], &[2], &[1], &[0], &[2, 3], &[1, 3], &[0, 3]],
    )?;
    let Err(LinkRefusal::Link { simplex, betti }) = links(&star) else {
        panic!(rt; "the link of an end is a point")
    };
    assert_eq!(rt; simplex.vertices(), [0].as_slice());
    assert_eq!(rt; betti.as_slice(), [1].as_slice());
    let pinched = filled(
        rt.alloc(),
        &[
            &[4, 5, 6],
            &[0, 4, 5],
            &[0, 4, 6],
            &[0, 5, 6],
            &[0, 1, 2],
            &[0, 1, 3],
            &[0, 2, 3],
            &[1, 2, 3],
        ],
    )?;
    let Err(LinkRefusal::Link { simplex, betti }) = links(&pinched) else {
        panic!(rt; "the link of the shared vertex is two circles")
    };
    assert_eq!(rt; simplex.vertices(), [0].as_slice());
    assert_eq!(rt; betti.as_slice(), [2, 2].as_slice());
    Ok(())
}

#[test]
fn links_of_a_suspension(rt: HostRuntime) -> Result<(), Fail> {
    let suspension = filled(rt.alloc(), SUSPENSION)?;
    let Err(LinkRefusal::Link { simplex, betti }) = links(&suspension) else {
        panic!(rt; "the link of an apex is a projective plane")
    };
    assert_eq!(rt; simplex.vertices(), [7].as_slice());
    assert_eq!(rt; betti.as_slice(), [1, 1, 1].as_slice());
    Ok(())
}

/// The projective plane with six vertices.
const PROJECTIVE_PLANE: &[&[u32]] = &[
    &[1, 2, 4],
    &[1, 2, 6],
    &[1, 3, 4],
    &[1, 3, 5],
    &[1, 5, 6],
    &[2, 3, 5],
    &[2, 3, 6],
    &[2, 4, 5],
    &[3, 4, 6],
    &[4, 5, 6],
];

/// Its suspension, with the apexes 7 and 8.
const SUSPENSION: &[&[u32]] = &[
    &[1, 2, 4, 8],
    &[1, 2, 6, 8],
    &[1, 3, 4, 8],
    &[1, 3, 5, 8],
    &[1, 5, 6, 8],
    &[2, 3, 5, 8],
    &[2, 3, 6, 8],
    &[2, 4, 5, 8],
    &[3, 4, 6, 8],
    &[4, 5, 6, 8],
    &[1, 2, 4, 7],
    &[1, 2, 6, 7],
    &[1, 3, 4, 7],
    &[1, 3, 5, 7],
    &[1, 5, 6, 7],
    &[2, 3, 5, 7],
    &[2, 3, 6, 7],
    &[2, 4, 5, 7],
    &[3, 4, 6, 7],
    &[4, 5, 6, 7],
];

/// Two cones over the hexagon 0 3 1 4 2 5, with the apices 6 and 7.
const HEXAGONAL_BIPYRAMID: &[&[u32]] = &[
    &[0, 3, 6],
    &[1, 3, 6],
    &[1, 4, 6],
    &[2, 4, 6],
    &[2, 5, 6],
    &[0, 5, 6],
    &[0, 3, 7],
    &[1, 3, 7],
    &[1, 4, 7],
    &[2, 4, 7],
    &[2, 5, 7],
    &[0, 5, 7],
];

/// A hollow triangle.
const HOLLOW: &[&[u32]] = &[&[0], &[1], &[2], &[0, 1], &[0, 2], &[1, 2]];

/// The model of these simplices, one after another.
fn model(alloc: Global, simplices: &[&[u32]]) -> Result<Model, Fail> {
    model_by::<Brand>(alloc, simplices, Blank::new(1))
}

fn model_by<L: Ledger>(alloc: Global, simplices: &[&[u32]], blank: Blank) -> Result<Model, Fail>
    requires name { blank.name ≡ L.name }
    requires parts { blank.parts ≡ L.parts }
    requires some { 0 < blank.parts }
{
    let mut steps = Steps::<L>::new(blank);
    let mut model = Model::empty(alloc);
    for vertices in simplices {
        model.attach(Simplex::from_vertices(vertices)?, &mut steps)?;
    }
    Ok(model)
}

/// The model of these simplices and all their faces.
pub(crate) fn filled(alloc: Global, facets: &[&[u32]]) -> Result<Model, Fail> {
    filled_by::<Brand>(alloc, facets, Blank::new(1))
}

fn filled_by<L: Ledger>(alloc: Global, facets: &[&[u32]], blank: Blank) -> Result<Model, Fail>
    requires name { blank.name ≡ L.name }
    requires parts { blank.parts ≡ L.parts }
    requires some { 0 < blank.parts }
{
    let mut steps = Steps::<L>::new(blank);
    let mut model = Model::empty(alloc);
    for facet in facets {
        attach_faces(alloc, &mut model, facet, &mut steps)?;
    }
    Ok(model)
}

/// Attaches the faces of a simplex with at most five vertices that are missing, and the simplex.
pub(crate) fn attach_faces<L: Ledger>(
    alloc: Global,
    model: &mut Model,
    facet: &[u32],
    steps: &mut Steps<L>,
) -> Result<(), Fail> {
    for chosen in 1..32 {
        let vertices = chosen_vertices(alloc, facet, chosen)?;
        if let Ok(face) = Simplex::from_vertices(&vertices)
            && model.complex().find(&face).is_none()
        {
            model.attach(face, steps)?;
        }
    }
    Ok(())
}

/// The vertices that are chosen by the bits of a number, the first by the lowest.
fn chosen_vertices(alloc: Global, vertices: &[u32], chosen: u32) -> Result<Vec<u32>, Fail> {
    let mut left = chosen;
    let mut some = Vec::new(alloc);
    for vertex in vertices {
        if left % 2 == 1 {
            some.push(*vertex)?;
        }
        left /= 2;
    }
    Ok(some)
}
