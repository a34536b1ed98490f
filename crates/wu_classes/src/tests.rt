//! Each call on points, surfaces and complexes that are no manifolds, with answers that are known.
ghost use Rattle.std.specs.Prelude.{◌≡◌, ◌<◌};

use crate::{NumberRefusal, WuRefusal, duality, sw, sw_number, wu};
use at_model::Model;
use class_cache::Cached;
use class_solver::ClassWord;
use complex_store::AttachRefusal;
use f2_chains::Steps;
use manifold_links::ClosedRefusal;
use simplex_order::Simplex;
use std::alloc::Global;
use std::marker::Brand;
use std::process::Abort;
use std::sync::ledger::{Blank, Ledger};
use std::test::Fail;

/// All its Stiefel-Whitney classes and numbers are not zero.
#[test]
fn the_projective_plane(rt: HostRuntime) -> Result<(), Fail> {
    let model = grown(rt.alloc(), PLANE)?;
    let m = Cached::bare(&model);
    let pairing = duality(&m)?;
    assert_eq!(rt; pairing.rows.len(), 3);
    for rows in &pairing.rows {
        assert_eq!(rt; rows.len(), 1);
        assert_eq!(rt; rows[0].as_slice(), [true].as_slice());
    }
    assert!(rt; are(&wu(&m)?, &[&[0], &[0], &[]]));
    assert!(rt; are(&sw(&m)?, &[&[0], &[0], &[0]]));
    assert!(rt; sw_number(&m, &[1, 1])?);
    assert!(rt; sw_number(&m, &[2])?);
    let Err(NumberRefusal::Sum { sum, dim }) = sw_number(&m, &[1]) else {
        panic!(rt; "the dimension is 2")
    };
    assert_eq!(rt; (sum, dim), (1, 2));
    Ok(())
}

/// Its two classes of degree 1 pair with each other and not with themselves.
#[test]
fn the_torus(rt: HostRuntime) -> Result<(), Fail> {
    let model = grown(rt.alloc(), TORUS)?;
    let m = Cached::bare(&model);
    let pairing = duality(&m)?;
    assert_eq!(rt; pairing.rows.len(), 3);
    let middle = &pairing.rows[1];
    assert_eq!(rt; middle.len(), 2);
    assert_eq!(rt; middle[0].as_slice(), [false, true].as_slice());
    assert_eq!(rt; middle[1].as_slice(), [true, false].as_slice());
    assert!(rt; are(&wu(&m)?, &[&[0], &[], &[]]));
    assert!(rt; are(&sw(&m)?, &[&[0], &[], &[]]));
    assert!(rt; !sw_number(&m, &[1, 1])?);
    assert!(rt; !sw_number(&m, &[2])?);
    Ok(())
}

/// Two points; the sum of their classes is the one class.
#[test]
fn points(rt: HostRuntime) -> Result<(), Fail> {
    let model = grown(rt.alloc(), &[&[4], &[2]])?;
    let m = Cached::bare(&model);
    let pairing = duality(&m)?;
    assert_eq!(rt; pairing.rows.len(), 1);
    assert_eq!(rt; pairing.rows[0].len(), 2);
    assert_eq!(rt; pairing.rows[0][0].as_slice(), [true, false].as_slice());
    assert_eq!(rt; pairing.rows[0][1].as_slice(), [false, true].as_slice());
    assert!(rt; are(&wu(&m)?, &[&[0, 1]]));
    assert!(rt; are(&sw(&m)?, &[&[0, 1]]));
    assert!(rt;
        matches!(
            sw_number(&m, &[3]),
            Err(NumberRefusal::Sum { sum: 3, dim: 0 })
        )
    );
    Ok(())
}

/// Two spheres that share a vertex: the sum of their classes of degree 2 pairs to zero with the one class of degree 0.
#[test]
fn the_pinched_spheres(rt: HostRuntime) -> Result<(), Fail> {
    let model = grown(rt.alloc(), PINCHED)?;
    let m = Cached::bare(&model);
    let Err(WuRefusal::Degenerate(word)) = duality(&m) else {
        panic!(rt; "a class is degenerate")
    };
    assert_eq!(rt; word.degree, 2);
    assert_eq!(rt; word.numbers.as_slice(), [0, 1].as_slice());
    assert!(rt; matches!(wu(&m), Err(WuRefusal::Degenerate(_))));
    assert!(rt; matches!(sw(&m), Err(WuRefusal::Degenerate(_))));
    assert!(rt;
        matches!(
            sw_number(&m, &[7]),
            Err(NumberRefusal::Wu(WuRefusal::Degenerate(_)))
        )
    );
    Ok(())
}

/// It has so few classes for its simplices that the row of each is found alone.
#[test]
fn the_sphere_of_dimension_six(rt: HostRuntime) -> Result<(), Fail> {
    let model = grown(rt.alloc(), SPHERE)?;
    let m = Cached::bare(&model);
    let pairing = duality(&m)?;
    assert_eq!(rt; pairing.rows.len(), 7);
    let least = &pairing.rows[0];
    assert_eq!(rt; least.len(), 1);
    assert_eq!(rt; least[0].as_slice(), [true].as_slice());
    assert!(rt; pairing.rows[3].is_empty());
    let greatest = &pairing.rows[6];
    assert_eq!(rt; greatest.len(), 1);
    assert_eq!(rt; greatest[0].as_slice(), [true].as_slice());
    let words: [&[u32]; 7] = [&[0], &[], &[], &[], &[], &[], &[]];
    assert!(rt; are(&wu(&m)?, &words));
    assert!(rt; are(&sw(&m)?, &words));
    Ok(())
}

/// Its class of degree 2 has none to pair with.
#[test]
fn the_suspended_plane(rt: HostRuntime) -> Result<(), Fail> {
    let model = grown(rt.alloc(), SUSPENDED)?;
    let m = Cached::bare(&model);
    let Err(WuRefusal::Degenerate(word)) = duality(&m) else {
        panic!(rt; "there is no class of degree 1")
    };
    assert_eq!(rt; word.degree, 2);
    assert_eq!(rt; word.numbers.as_slice(), [0].as_slice());
    Ok(())
}

#[test]
fn what_is_not_closed(rt: HostRuntime) -> Result<(), Fail> {
    let model = grown(rt.alloc(), &[])?;
    let nothing = Cached::bare(&model);
    assert!(rt;
        matches!(
            duality(&nothing),
            Err(WuRefusal::Closed(ClosedRefusal::Nothing))
        )
    );
    assert!(rt;
        matches!(
            sw_number(&nothing, &[1]),
            Err(NumberRefusal::Wu(WuRefusal::Closed(ClosedRefusal::Nothing)))
        )
    );
    let model = grown(rt.alloc(), &[&[0, 1, 2], &[5, 9]])?;
    let tail = Cached::bare(&model);
    assert!(rt; matches!(wu(&tail), Err(WuRefusal::Closed(ClosedRefusal::NotPure(_)))));
    let model = grown(rt.alloc(), &[&[0, 1, 2]])?;
    let filled = Cached::bare(&model);
    assert!(rt;
        matches!(
            sw(&filled),
            Err(WuRefusal::Closed(ClosedRefusal::Ridge { times: 1, .. }))
        )
    );
    Ok(())
}

/// The projective plane with six vertices.
const PLANE: &[&[u32]] = &[
    &[1, 2, 4],
    &[1, 2, 6],
    &[1, 3, 4],
    &[1, 3, 5],
    &[1, 5, 6],
    &[2, 3, 5],
    &[2, 3, 6],
    &[2, 4, 5],
    &[3, 4, 6],
    &[4, 5, 6],
];

/// The torus with seven vertices.
const TORUS: &[&[u32]] = &[
    &[0, 1, 3],
    &[1, 2, 4],
    &[2, 3, 5],
    &[3, 4, 6],
    &[0, 4, 5],
    &[1, 5, 6],
    &[0, 2, 6],
    &[0, 2, 3],
    &[1, 3, 4],
    &[2, 4, 5],
    &[3, 5, 6],
    &[0, 4, 6],
    &[0, 1, 5],
    &[1, 2, 6],
];

/// The boundaries of two tetrahedra with a common vertex.
const PINCHED: &[&[u32]] = &[
    &[0, 1, 2],
    &[0, 1, 3],
    &[0, 2, 3],
    &[1, 2, 3],
    &[0, 4, 5],
    &[0, 4, 6],
    &[0, 5, 6],
    &[4, 5, 6],
];

/// The projective plane with six vertices, joined with the apexes 7 and 8.
const SUSPENDED: &[&[u32]] = &[
    &[1, 2, 4, 7],
    &[1, 2, 6, 7],
    &[1, 3, 4, 7],
    &[1, 3, 5, 7],
    &[1, 5, 6, 7],
    &[2, 3, 5, 7],
    &[2, 3, 6, 7],
    &[2, 4, 5, 7],
    &[3, 4, 6, 7],
    &[4, 5, 6, 7],
    &[1, 2, 4, 8],
    &[1, 2, 6, 8],
    &[1, 3, 4, 8],
    &[1, 3, 5, 8],
    &[1, 5, 6, 8],
    &[2, 3, 5, 8],
    &[2, 3, 6, 8],
    &[2, 4, 5, 8],
    &[3, 4, 6, 8],
    &[4, 5, 6, 8],
];

/// The boundary of the 7-simplex.
const SPHERE: &[&[u32]] = &[
    &[0, 1, 2, 3, 4, 5, 6],
    &[0, 1, 2, 3, 4, 5, 7],
    &[0, 1, 2, 3, 4, 6, 7],
    &[0, 1, 2, 3, 5, 6, 7],
    &[0, 1, 2, 4, 5, 6, 7],
    &[0, 1, 3, 4, 5, 6, 7],
    &[0, 2, 3, 4, 5, 6, 7],
    &[1, 2, 3, 4, 5, 6, 7],
];

/// Whether the words have these numbers, degree by degree.
fn are(words: &[ClassWord], numbers: &[&[u32]]) -> bool {
    if words.len() != numbers.len() {
        return false;
    }
    for (word, expected) in words.iter().zip(numbers) {
        if word.numbers.as_slice() != *expected {
            return false;
        }
    }
    true
}

/// The model of these facets, each with those of its faces that are new.
fn grown(alloc: Global, facets: &[&[u32]]) -> Result<Model, Fail> {
    model_by::<Brand>(alloc, facets, Blank::new(1))
}

fn model_by<L: Ledger>(alloc: Global, facets: &[&[u32]], blank: Blank) -> Result<Model, Fail>
    requires name { blank.name ≡ L.name }
    requires parts { blank.parts ≡ L.parts }
    requires some { 0 < blank.parts }
{
    let mut steps = Steps::<L>::new(blank);
    let mut model = Model::empty(alloc);
    for facet in facets {
        for mask in 1..128u32 {
            let face = face(alloc, facet, mask)?;
            if face.is_empty() {
                continue;
            }
            match model.attach(Simplex::from_vertices(&face)?, &mut steps) {
                Ok(_) => {}
                Err(AttachRefusal::There(_)) => {}
                Err(refusal) => return Err(refusal.into()),
            }
        }
    }
    Ok(model)
}

/// The vertices at the places where the mask has ones.
fn face(alloc: Global, facet: &[u32], mask: u32) -> Result<Vec<u32>, Fail> {
    let mut rest = mask;
    let mut vertices = Vec::new(alloc);
    for v in facet {
        if rest % 2 == 1 {
            vertices.push(*v)?;
        }
        rest /= 2;
    }
    Ok(vertices)
}
