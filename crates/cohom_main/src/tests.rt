//! Whole scripts over memory: what is written, and the status.
ghost use Rattle.std.specs.Prelude.{◌<◌};

use crate::run;
use cohom_edge::{MemSink, MemSource};
use memory::Memory;
use std::alloc::Global;

/// The hollow triangle, a cut, and its Betti numbers.
const TRIANGLE: &[u8] =
    b"attach 0\nattach 1\nattach 0-1\nattach 2\nattach 0-2\nattach 1-2\ncut\nbetti\n";

/// The replies to it.
const TRIANGLE_REPLIES: &[u8] =
    b"ok attach 0 1\nok attach 1 2\nok attach 2 3\nok attach 3 4\nok attach 4 5\nok attach 5 6\nok cut 1 7\nok v1 betti 1 1\n";

/// A full triangle by its facet, twice, with comments and blanks, questions, and what is not answered yet.
const FACET: &[u8] =
    b"# a triangle\nfacet 2 0 1\n\n% again\n2 0 1\r\ncut\nbetti\ncount\nkind 2-1\nkind 0-3\n@1 cut\nround 4\n \t\nattach 0\nquit\nattach 9\n";

/// The replies to it.
const FACET_REPLIES: &[u8] =
    b"ok facet 7 7\nok facet 0 7\nok cut 1 8\nok v1 betti 1 0 0\nok v1 count 3 3 1\nok v1 kind 1-2 other\nno v1 notthere 0-3\nok cut 2 9\nno later\nno there 0\nok quit\n";

/// Callers on one line: an edge and a point, which one of them joins and another, from the first version on, joins otherwise.
const CALLERS: &[u8] =
    b"0 1\nattach 2\ncut\nhold apart\n@1 attach 1-2\n@1 cut\nbetti\nsee\nbetti\nuse apart\nbetti\nback 1\n@15 attach 0-2\n@15 cut\n@2 after 11\n@2 after 8\n@2 model 0-2\n@2 use apart\nhold apart\ndrop apart\n@3 # a note\n@3 betti\nback 4\n@3 quit\ncut\n";

/// The replies to it.
const CALLER_REPLIES: &[u8] =
    b"ok facet 3 3\nok attach 3 4\nok cut 1 5\nok hold apart 1\nok attach 4 6\nok cut 2 7\nok v1 betti 2 0\nok see 2 7\nok v2 betti 1 0\nok use apart 1\nok v1 betti 2 0\nok back 1 8\nok attach 4 9\nok cut 3 10\nno notyet 10\nok after 3 10\nok v3 model 0-2 1:[] 2:[]\nno noname apart\nno held apart\nok drop apart\nok v0 betti\nno noversion 3\nok quit\n";

/// A hollow triangle, with each question and each refusal.
const QUESTIONS: &[u8] =
    b"0 1\n0 2\n1 2\ncut\nclasses 1\nmodel 0-2\nmodel 1-2\ncochain 1:{0-1,1-2,0-1}\nchain 1:*0\ndelta 0:{0}\nboundary 1:[0-1,1-2]\nclass 1:{0-1}\nbound 1:{0-1,0-2}\ncupi 0 0:{0} 1:{0-1}\ncap 0:{0} 1:[0-1]\ncap 1:{0-1} 1:[0-1]\nbound 1:#0\nclass 0:{0}\ncochain 1:{0}\ncochain 1:{0-3}\ncap 1:0 0:[0]\nclass 1:#1\n";

/// The replies to it.
const QUESTION_REPLIES: &[u8] =
    b"ok facet 3 3\nok facet 2 5\nok facet 1 6\nok cut 1 7\nok v1 classes 1 1 1-2\nok v1 model 0-2 1:[] 2:[]\nok v1 model 1-2 1:[1-2] 2:[]\nok v1 cochain 1:{1-2}\nok v1 chain 1:[0-1,0-2,1-2]\nok v1 delta 1:{0-1,0-2}\nok v1 boundary 0:[0,2]\nok v1 class 1:#0\nok v1 bound 0:{1,2}\nok v1 cupi 1:{0-1}\nok v1 cap 1:[0-1]\nok v1 cap 0:[1]\nno v1 differs 1-2\nno v1 notcocycle 0-1\nno v1 degree 0\nno v1 notthere 0-3\nno v1 degrees 1 0\nno v1 noclass 1\n";

/// The projective plane with six vertices, with its classes, a product that is not zero, and results on two cocycles of its class.
const PLANE: &[u8] =
    b"1 2 4\n1 2 6\n1 3 4\n1 3 5\n1 5 6\n2 3 5\n2 3 6\n2 4 5\n3 4 6\n4 5 6\ncut\nclasses 2\nmodel 2-3\nclass 1:{2-3,2-5,3-6,4-5,4-6}\ncochain 1:#0\ncupi 0 1:#0 1:#0\nclass 2:{1-2-4}\nbound 2:{1-2-4,1-2-6}\nchain 2:*0\ncap 1:#0 2:*0\nbound 2:#0\nsame cup 1:#0 1:{1-2,2-4,2-6,3-6,4-5,4-6} 1:#0 1:#0\nsame square 1 1:#0 1:{1-2,2-4,2-6,3-6,4-5,4-6}\nsame bockstein 1:#0 1:{1-2,2-4,2-6,3-6,4-5,4-6}\nsame cup 1:#0 1:0 1:#0 2:#0\nsame bockstein 1:#0 2:#0\nsame square 0 1:#0 1:{1-2}\n";

/// The replies to it.
const PLANE_REPLIES: &[u8] =
    b"ok facet 7 7\nok facet 4 11\nok facet 4 15\nok facet 4 19\nok facet 2 21\nok facet 3 24\nok facet 2 26\nok facet 2 28\nok facet 2 30\nok facet 1 31\nok cut 1 32\nok v1 classes 2 1 4-5-6\nok v1 model 2-3 1:[2-3] 2:[]\nok v1 class 1:#0\nok v1 cochain 1:{2-3,2-5,3-6,4-5,4-6}\nok v1 cupi 2:{2-3-6}\nok v1 class 2:#0\nok v1 bound 1:{2-4,2-6,3-6,4-5,4-6}\nok v1 chain 2:[1-2-4,1-2-6,1-3-4,1-3-5,1-5-6,2-3-5,2-3-6,2-4-5,3-4-6,4-5-6]\nok v1 cap 1:[3-5,3-6,5-6]\nno v1 differs 4-5-6\nok v1 same cup 1:{3-6,4-5,4-6}\nok v1 same square 1:{2-4,2-6}\nok v1 same bockstein 1:{2-4,2-6}\nno v1 differs 2-3\nno v1 degrees 1 2\nno v1 notcocycle 1-2-4\n";

/// No simplex, a circle, a filled triangle, one with an edge at a vertex, a sphere, and one with a triangle at an edge.
const CLOSED: &[u8] =
    b"closed\n0 1\n0 2\n1 2\ncut\nclosed\n0 1 2\ncut\nclosed\n2 3\ncut\nclosed\n0 1 3\n0 2 3\n1 2 3\ncut\nclosed\n0 1 4\ncut\nclosed\n";

/// The replies to it.
const CLOSED_REPLIES: &[u8] =
    b"no v0 nothing\nok facet 3 3\nok facet 2 5\nok facet 1 6\nok cut 1 7\nok v1 closed 1\nok facet 1 8\nok cut 2 9\nno v2 ridge 0-1 1\nok facet 2 11\nok cut 3 12\nno v3 notpure 3\nok facet 3 15\nok facet 1 16\nok facet 1 17\nok cut 4 18\nok v4 closed 2\nok facet 4 22\nok cut 5 23\nno v5 ridge 0-1 3\n";

/// The projective plane with six vertices: a closed manifold with Stiefel-Whitney numbers that are not zero.
const PLANE_CLASSES: &[u8] =
    b"1 2 4\n1 2 6\n1 3 4\n1 3 5\n1 5 6\n2 3 5\n2 3 6\n2 4 5\n3 4 6\n4 5 6\ncut\nclosed\nlinks\nduality\nwu\nsw\nswnumber 1 1\nswnumber 2\nswnumber 1\n";

/// The replies to it.
const PLANE_CLASS_REPLIES: &[u8] =
    b"ok facet 7 7\nok facet 4 11\nok facet 4 15\nok facet 4 19\nok facet 2 21\nok facet 3 24\nok facet 2 26\nok facet 2 28\nok facet 2 30\nok facet 1 31\nok cut 1 32\nok v1 closed 2\nok v1 links\nok v1 duality 0:1 1:1 2:1\nok v1 wu 0:#0 1:#0 2:0\nok v1 sw 0:#0 1:#0 2:#0\nok v1 swnumber 1\nok v1 swnumber 1\nno v1 sum 1 2\n";

/// The torus with seven vertices, which is orientable: two classes of degree 1 pair to 1, and each of them with itself to 0.
const TORUS: &[u8] =
    b"0 1 3\n0 2 3\n1 2 4\n1 3 4\n2 3 5\n2 4 5\n3 4 6\n3 5 6\n0 4 5\n0 4 6\n1 5 6\n0 1 5\n0 2 6\n1 2 6\ncut\nbetti\nclosed\nlinks\nduality\nwu\nsw\nswnumber 1 1\nswnumber 2\n";

/// The replies to it.
const TORUS_REPLIES: &[u8] =
    b"ok facet 7 7\nok facet 4 11\nok facet 5 16\nok facet 2 18\nok facet 4 22\nok facet 2 24\nok facet 4 28\nok facet 2 30\nok facet 3 33\nok facet 2 35\nok facet 3 38\nok facet 1 39\nok facet 2 41\nok facet 1 42\nok cut 1 43\nok v1 betti 1 2 1\nok v1 closed 2\nok v1 links\nok v1 duality 0:1 1:01/10 2:1\nok v1 wu 0:#0 1:0 2:0\nok v1 sw 0:#0 1:0 2:0\nok v1 swnumber 0\nok v1 swnumber 0\n";

/// The suspension of the projective plane, which is closed and no manifold: the link of an apex is the plane.
const SUSPENSION: &[u8] =
    b"1 2 4 7\n1 2 4 8\n1 2 6 7\n1 2 6 8\n1 3 4 7\n1 3 4 8\n1 3 5 7\n1 3 5 8\n1 5 6 7\n1 5 6 8\n2 3 5 7\n2 3 5 8\n2 3 6 7\n2 3 6 8\n2 4 5 7\n2 4 5 8\n3 4 6 7\n3 4 6 8\n4 5 6 7\n4 5 6 8\ncut\nclosed\nlinks\nduality\nwu\nsw\nswnumber 1 2\n";

/// The replies to it.
const SUSPENSION_REPLIES: &[u8] =
    b"ok facet 15 15\nok facet 8 23\nok facet 8 31\nok facet 4 35\nok facet 8 43\nok facet 4 47\nok facet 8 55\nok facet 4 59\nok facet 4 63\nok facet 2 65\nok facet 6 71\nok facet 3 74\nok facet 4 78\nok facet 2 80\nok facet 4 84\nok facet 2 86\nok facet 4 90\nok facet 2 92\nok facet 2 94\nok facet 1 95\nok cut 1 96\nok v1 closed 3\nno v1 link 7 1 1 1\nno v1 degenerate 2:#0\nno v1 degenerate 2:#0\nno v1 degenerate 2:#0\nno v1 degenerate 2:#0\n";

/// Two boundaries of tetrahedra that share a vertex: the sum of the two classes of degree 2 is degenerate.
const SPHERES: &[u8] =
    b"0 1 2\n0 1 3\n0 2 3\n1 2 3\n0 4 5\n0 4 6\n0 5 6\n4 5 6\ncut\nbetti\nclosed\nlinks\nduality\nswnumber 2\n";

/// The replies to it.
const SPHERE_REPLIES: &[u8] =
    b"ok facet 7 7\nok facet 4 11\nok facet 2 13\nok facet 1 14\nok facet 6 20\nok facet 4 24\nok facet 2 26\nok facet 1 27\nok cut 1 28\nok v1 betti 1 0 2\nok v1 closed 2\nno v1 link 0 2 2\nno v1 degenerate 2:#0+#1\nno v1 degenerate 2:#0+#1\n";

/// No simplex, a filled triangle, and one with an edge at a vertex.
const NOT_CLOSED: &[u8] =
    b"links\nduality\nwu\nsw\nswnumber 1\n0 1 2\ncut\nclosed\nlinks\nsw\n2 3\ncut\nclosed\nwu\n";

/// The replies to it.
const NOT_CLOSED_REPLIES: &[u8] =
    b"ok v0 links\nno v0 nothing\nno v0 nothing\nno v0 nothing\nno v0 nothing\nok facet 7 7\nok cut 1 8\nno v1 ridge 0-1 1\nno v1 link 0 1 0\nno v1 ridge 0-1 1\nok facet 2 10\nok cut 2 11\nno v2 notpure 3\nno v2 notpure 3\n";

/// Two callers: each has a version in use, which what the other changes leaves as it is, and looks reach further.
const TWO_CALLERS: &[u8] =
    b"attach 0\nattach 1\ncut\nhold two\n@1 attach 0-1\n@1 cut\nbetti\nsee\nbetti\nuse two\nbetti\n@1 attach 2\n@1 betti\nafter 6\nafter 7\n";

/// The replies to it.
const TWO_CALLER_REPLIES: &[u8] =
    b"ok attach 0 1\nok attach 1 2\nok cut 1 3\nok hold two 1\nok attach 2 4\nok cut 2 5\nok v1 betti 2\nok see 2 5\nok v2 betti 1 0\nok use two 1\nok v1 betti 2\nok attach 3 6\nok v2 betti 1 0\nok after 2 6\nno notyet 6\n";

/// The version with no simplex, and names that are held or not.
const NO_SIMPLEX: &[u8] =
    b"betti\ncount\nclasses 0\nwu\nlinks\ncochain 3:{}\ncup 3:0 2:0\nsee\nafter 1\nhold a\nhold a\nuse b\n@1 use a\ndrop a\ndrop a\ncut\nbetti\n";

/// The replies to it.
const NO_SIMPLEX_REPLIES: &[u8] =
    b"ok v0 betti\nok v0 count\nok v0 classes 0 0\nno v0 nothing\nok v0 links\nok v0 cochain 3:{}\nok v0 cup 5:0\nok see 0 0\nno notyet 0\nok hold a 0\nno held a\nno noname b\nno noname a\nok drop a\nno noname a\nok cut 1 1\nok v1 betti\n";

/// Returns to older versions, after which simplices that were there come in again; the version in use stays.
const RETURNS: &[u8] =
    b"facet 0 1 2\ncut\nfacet 0 3\ncut\nback 1\nattach 3\ncut\nbetti\nback 4\n@1 back 0\nattach 0\nbetti\n";

/// The replies to it.
const RETURN_REPLIES: &[u8] =
    b"ok facet 7 7\nok cut 1 8\nok facet 2 10\nok cut 2 11\nok back 1 12\nok attach 7 13\nok cut 3 14\nok v3 betti 2 0 0\nno noversion 3\nok back 0 15\nok attach 0 16\nok v3 betti 2 0 0\n";

/// Two points, whose two classes of degree 0 pair each with itself.
const POINTS: &[u8] = b"2\n4\ncut\nduality\nwu\nsw\n";

/// The replies to it.
const POINT_REPLIES: &[u8] =
    b"ok facet 1 1\nok facet 1 2\nok cut 1 3\nok v1 duality 0:10/01\nok v1 wu 0:#0+#1\nok v1 sw 0:#0+#1\n";

/// Four callers: facets, cuts, returns, names, looks and questions that keep what they find.
const FOUR_CALLERS: &[u8] =
    b"0 1\n0 2\n1 2\ncut\nhold hollow\n@1 see\n@1 0 1 2\n@1 cut\n@1 betti\nclass 1:{0-1}\nback 1\n@2 1 3\n@2 cut\n@2 betti\n@2 class 1:{1-2}\n@1 bound 1:{0-1,0-2}\nuse hollow\ncup 1:#0 0:#0\nduality\nback 0\n@15 4\n@15 5\n@15 cut\n@15 duality\n@15 sw\nsee\nbetti\n";

/// The replies to it.
const FOUR_CALLER_REPLIES: &[u8] =
    b"ok facet 3 3\nok facet 2 5\nok facet 1 6\nok cut 1 7\nok hold hollow 1\nok see 1 7\nok facet 1 8\nok cut 2 9\nok v2 betti 1 0 0\nok v1 class 1:#0\nok back 1 10\nok facet 2 12\nok cut 3 13\nok v3 betti 1 1\nok v3 class 1:#0\nok v2 bound 0:{1,2}\nok use hollow 1\nok v1 cup 1:#0\nok v1 duality 0:1 1:1\nok back 0 14\nok facet 1 15\nok facet 1 16\nok cut 4 17\nok v4 duality 0:10/01\nok v4 sw 0:#0+#1\nok see 4 17\nok v4 betti 2\n";

/// How many bytes each end passes at a time, and the call at which it fails; no call has the number 0.
#[derive(Clone, Copy)]
struct Ends {
    read: usize,
    bad_read: u32,
    write: usize,
    bad_write: u32,
}

/// One byte a call, and no fault.
const SLOW: Ends = Ends {
    read: 1,
    bad_read: 0,
    write: 1,
    bad_write: 0,
};

/// The status of a run over memory with this word, and all that was written.
fn ran(alloc: Global, word: &str, input: &[u8], ends: Ends) -> Result<(u8, Vec<u8>), Memory>
    requires { 0 < ends.read }
{
    let words = [String::from_str(alloc, word)?];
    let mut source = MemSource::new(
        input.to_vec(alloc)?,
        ends.read,
        [ends.bad_read].to_vec(alloc)?,
    );
    let mut sink = MemSink::new(alloc, ends.write, [ends.bad_write].to_vec(alloc)?);
    let status = run(alloc, &words, &mut source, &mut sink);
    Ok((status, sink.bytes().to_vec(alloc)?))
}

#[test]
fn answers_scripts(rt: HostRuntime) -> Result<(), Memory> {
    let scripts = [
        (b"".as_slice(), b"".as_slice()),
        (TRIANGLE, TRIANGLE_REPLIES),
        (FACET, FACET_REPLIES),
        (CALLERS, CALLER_REPLIES),
        (
            b"[[1, 2, 3], [1, 2, 4]]\n[[3,4],[1],[3,4,5]]\n".as_slice(),
            b"ok facet 11 11\nok facet 5 16\n".as_slice(),
        ),
        (
            b"attach 0\r\nattach 0-1\nattach 1\nattach 1".as_slice(),
            b"ok attach 0 1\nno face 1\nok attach 1 2\nno there 1\n".as_slice(),
        ),
        (b"quit\nattach 0\n".as_slice(), b"ok quit\n".as_slice()),
    ];
    for (input, replies) in scripts {
        for read in [1, 2, 3, 4096] {
            let ends = Ends { read, ..SLOW };
            let (status, written) = ran(rt.alloc(), "script", input, ends)?;
            assert_eq!(rt; status, 0);
            assert_eq!(rt; written.as_slice(), replies);
        }
    }
    Ok(())
}

#[test]
fn answers_questions(rt: HostRuntime) -> Result<(), Memory> {
    let scripts = [
        (QUESTIONS, QUESTION_REPLIES),
        (PLANE, PLANE_REPLIES),
        (CLOSED, CLOSED_REPLIES),
    ];
    for (input, replies) in scripts {
        let ends = Ends { read: 4096, ..SLOW };
        let (status, written) = ran(rt.alloc(), "script", input, ends)?;
        assert_eq!(rt; status, 0);
        assert_eq!(rt; written.as_slice(), replies);
    }
    Ok(())
}

#[test]
fn answers_on_manifolds(rt: HostRuntime) -> Result<(), Memory> {
    let scripts = [
        (PLANE_CLASSES, PLANE_CLASS_REPLIES),
        (TORUS, TORUS_REPLIES),
        (SUSPENSION, SUSPENSION_REPLIES),
        (SPHERES, SPHERE_REPLIES),
        (NOT_CLOSED, NOT_CLOSED_REPLIES),
        (POINTS, POINT_REPLIES),
    ];
    for (input, replies) in scripts {
        let ends = Ends { read: 4096, ..SLOW };
        let (status, written) = ran(rt.alloc(), "script", input, ends)?;
        assert_eq!(rt; status, 0);
        assert_eq!(rt; written.as_slice(), replies);
    }
    Ok(())
}

#[test]
fn answers_several_callers(rt: HostRuntime) -> Result<(), Memory> {
    let scripts = [
        (TWO_CALLERS, TWO_CALLER_REPLIES),
        (NO_SIMPLEX, NO_SIMPLEX_REPLIES),
        (RETURNS, RETURN_REPLIES),
        (FOUR_CALLERS, FOUR_CALLER_REPLIES),
    ];
    for (input, replies) in scripts {
        let ends = Ends { read: 4096, ..SLOW };
        let (status, written) = ran(rt.alloc(), "script", input, ends)?;
        assert_eq!(rt; status, 0);
        assert_eq!(rt; written.as_slice(), replies);
    }
    Ok(())
}

/// As many returns of the line, and names of a caller, as there may be, and one more.
#[test]
fn refuses_more_returns_and_names(rt: HostRuntime) -> Result<(), Memory> {
    let alloc = rt.alloc();
    let mut input = b"back 1\nback\nback x\n".to_vec(alloc)?;
    let mut replies = b"no noversion 0\nbad 5 missing\nbad 6 word\n".to_vec(alloc)?;
    for n in 1..=64u32 {
        let lines = format!(in alloc; "back 0\nhold n{n}\n")?;
        input.extend_from_slice(lines.as_bytes())?;
        let said = format!(in alloc; "ok back 0 {n}\nok hold n{n} 0\n")?;
        replies.extend_from_slice(said.as_bytes())?;
    }
    input.extend_from_slice(b"@1 back 0\nhold n7\nhold n0\n@1 hold n0\n")?;
    replies.extend_from_slice(b"no full 64\nno held n7\nno holdsfull 64\nok hold n0 0\n")?;
    let ends = Ends { read: 4096, ..SLOW };
    let (status, written) = ran(alloc, "script", input.as_slice(), ends)?;
    assert_eq!(rt; status, 0);
    assert_eq!(rt; written.as_slice(), replies.as_slice());
    Ok(())
}

/// A script is answered whole, or ends for want of memory behind a beginning of its replies. (With ample memory it is answered
/// whole; `rt try --test --fail-alloc N` refuses one growth.)
#[test]
fn ends_for_want_of_memory(rt: HostRuntime) -> Result<(), Memory> {
    let ends = Ends {
        read: 4096,
        write: 4096,
        ..SLOW
    };
    let Ok((status, written)) = ran(rt.alloc(), "script", FOUR_CALLERS, ends) else {
        return Ok(());
    };
    assert!(rt; FOUR_CALLER_REPLIES.starts_with(written.as_slice()));
    assert!(rt; status == 5 || (status == 0 && written.len() == FOUR_CALLER_REPLIES.len()));
    Ok(())
}

#[test]
fn refuses_bad_lines(rt: HostRuntime) -> Result<(), Memory> {
    let lines = [
        (b"attach\n".as_slice(), b"bad 7 missing\n".as_slice()),
        (b"attach 0 1\n".as_slice(), b"bad 10 extra\n".as_slice()),
        (b"attach 1-1\n".as_slice(), b"bad 8 repeat\n".as_slice()),
        (
            b"attach 1234567890\n".as_slice(),
            b"bad 8 number\n".as_slice(),
        ),
        (b"Attach 1\n".as_slice(), b"bad 1 request\n".as_slice()),
        (b"@16 cut\n".as_slice(), b"bad 1 caller\n".as_slice()),
        (b"@1 @2 cut\n".as_slice(), b"bad 4 request\n".as_slice()),
        (b"class 1\n".as_slice(), b"bad 7 word\n".as_slice()),
        (b"facet 0 1 0\n".as_slice(), b"bad 11 repeat\n".as_slice()),
        (b"@1 [[1,1]]\n".as_slice(), b"bad 4 repeat\n".as_slice()),
        (b"hold a-b\n".as_slice(), b"bad 6 word\n".as_slice()),
        (b"attach 0-".as_slice(), b"bad 8 word\n".as_slice()),
        (b"attach 0\r".as_slice(), b"bad 8 word\n".as_slice()),
        (
            b"facet 0 1 2 3 4 5 6 7 8 9 10 11 12 13 14 15\n".as_slice(),
            b"bad 42 wide\n".as_slice(),
        ),
    ];
    for (line, reply) in lines {
        let (status, written) = ran(rt.alloc(), "script", line, SLOW)?;
        assert_eq!(rt; status, 0);
        assert_eq!(rt; written.as_slice(), reply);
    }
    Ok(())
}

#[test]
fn stops_at_faults(rt: HostRuntime) -> Result<(), Memory> {
    let read = Ends {
        read: 6,
        bad_read: 3,
        ..SLOW
    };
    let (status, written) = ran(rt.alloc(), "script", TRIANGLE, read)?;
    assert_eq!(rt; status, 2);
    assert_eq!(rt; written.as_slice(), b"ok attach 0 1\n".as_slice());
    let write = Ends {
        write: 100,
        bad_write: 2,
        ..SLOW
    };
    let (status, written) = ran(rt.alloc(), "script", TRIANGLE, write)?;
    assert_eq!(rt; status, 3);
    assert_eq!(rt; written.as_slice(), b"ok attach 0 1\n".as_slice());
    Ok(())
}

#[test]
fn stops_at_a_long_line(rt: HostRuntime) -> Result<(), Memory> {
    let mut input = b"cut\n".to_vec(rt.alloc())?;
    for _ in 0..1_048_576u32 {
        input.push(b'%')?;
    }
    let ends = Ends {
        read: 65_536,
        ..SLOW
    };
    let (status, written) = ran(rt.alloc(), "script", input.as_slice(), ends)?;
    assert_eq!(rt; status, 6);
    assert_eq!(rt; written.as_slice(), b"ok cut 1 1\n".as_slice());
    Ok(())
}

#[test]
fn takes_the_one_word(rt: HostRuntime) -> Result<(), Memory> {
    let (status, written) = ran(rt.alloc(), "scripts", TRIANGLE, SLOW)?;
    assert_eq!(rt; status, 1);
    assert!(rt; written.is_empty());
    Ok(())
}
