//! Caches of growing complexes answer as fresh ones.
ghost use Rattle.std.specs.Prelude.{◌≡◌, ◌<◌, IfOk};
ghost use Rattle.class_cache.specs.Grown.{IsGrown};

use crate::tests::PLANE;
use crate::{grow, keep, keep_word};
use at_model::Model;
use class_cache::{Cache, Cached};
use class_solver::canonical;
use f2_chains::Steps;
use simplex_order::Simplex;
use std::marker::Brand;
use std::sync::ledger::{Blank, Ledger};
use std::test::Fail;

/// The projective plane comes in simplex by simplex. All that can be asked for is kept each time.
#[test]
fn a_cache_grows_with_the_plane(rt: HostRuntime) -> Result<(), Fail> {
    let mut m = Model::empty(rt.alloc());
    let mut cache = Cache::new(&m);
    for s in PLANE {
        keep_all(&m, &mut cache)?;
        let grown = with(&m, &[s])?;
        grow(&mut cache, &grown);
        assert!(rt; agrees(&Cached::new(&grown, &cache))?);
        m = grown;
    }
    cache.clear(&Model::empty(rt.alloc()));
    Ok(())
}

/// Three holes, of which a facet fills the first: the others have other numbers from then on. Then a facet at an edge of the second, which
/// lies in its cocycle, and a fourth hole.
#[test]
fn holes_come_and_go(rt: HostRuntime) -> Result<(), Fail> {
    let empty = Model::empty(rt.alloc());
    let mut m = with(
        &empty,
        &[
            &[1],
            &[2],
            &[3],
            &[1, 2],
            &[1, 3],
            &[2, 3],
            &[4],
            &[1, 4],
            &[2, 4],
            &[5],
            &[1, 5],
            &[2, 5],
        ],
    )?;
    let mut cache = Cache::new(&m);
    for more in [
        [[1, 2, 3].as_slice()].as_slice(),
        &[&[6], &[2, 6], &[4, 6], &[2, 4, 6]],
        &[&[7], &[1, 7], &[5, 7]],
        &[&[4, 5], &[1, 4, 5]],
        &[&[8]],
    ] {
        keep_all(&m, &mut cache)?;
        let grown = with(&m, more)?;
        grow(&mut cache, &grown);
        assert!(rt; agrees(&Cached::new(&grown, &cache))?);
        m = grown;
    }
    Ok(())
}

/// Keeps the canonical cocycles of all classes, and what class words take.
fn keep_all(m: &Model, cache: &mut Cache) -> Result<(), Fail>
    requires { cache.old ≡ m.now }
    ensures { cache.new ≡ cache.old }
{
    for degree in 0..3 {
        for k in 0..m.betti(degree) {
            keep(cache, m, degree, &[k])?;
            keep_word(cache, m, degree)?;
        }
    }
    Ok(())
}

/// Whether the canonical cocycle of each class is that of the model alone, and of its own class.
fn agrees(cached: &Cached) -> Result<bool, Fail> {
    for degree in 0..3 {
        for k in 0..cached.betti(degree) {
            let kept = cached.canonical(degree, &[k])?;
            let found = canonical(cached.model(), degree, &[k])?;
            let word = cached.coordinates(&kept)?;
            if kept.support().ids() != found.support().ids()
                || word.numbers.as_slice() != [k].as_slice()
            {
                return Ok(false);
            }
        }
    }
    Ok(true)
}

/// The model with these simplices attached.
fn with(model: &Model, simplices: &[&[u32]]) -> Result<Model, Fail>
    ensures { IfOk result (IsGrown model.now) }
{
    with_by::<Brand>(model, simplices, Blank::new(1))
}

fn with_by<L: Ledger>(model: &Model, simplices: &[&[u32]], blank: Blank) -> Result<Model, Fail>
    requires name { blank.name ≡ L.name }
    requires parts { blank.parts ≡ L.parts }
    requires some { 0 < blank.parts }
    ensures { IfOk result (IsGrown model.now) }
{
    let mut steps = Steps::<L>::new(blank);
    let mut grown = model.share()?;
    for s in simplices {
        grown.attach(Simplex::from_vertices(s)?, &mut steps)?;
    }
    Ok(grown)
}
