//! Lines and their readings.

use crate::{ChainWord, CochainWord, Compute, ReadRefusal, Request, Simplices, read_request};
use language::{Fault, FaultKind, Verb};
use std::test::Fail;

/// Lines that ask for nothing, with the column and the kind that are told.
const BAD_LINES: [(&str, u32, FaultKind); 18] = [
    ("attach", 7, FaultKind::Missing),
    ("attach 0 1", 10, FaultKind::Extra),
    ("attach 0-0", 8, FaultKind::Repeat),
    ("attach 1234567890", 8, FaultKind::Number),
    ("fly", 1, FaultKind::Request),
    ("@16 cut", 1, FaultKind::Caller),
    ("class 1:{0-1", 7, FaultKind::Word),
    ("facet 0 1 0", 11, FaultKind::Repeat),
    ("round 65", 7, FaultKind::Number),
    (
        "facet 0 1 2 3 4 5 6 7 8 9 10 11 12 13 14 15",
        42,
        FaultKind::Wide,
    ),
    ("same square 1 1:#0", 19, FaultKind::Missing),
    ("  @3\tcup 1:#0 1:00", 15, FaultKind::Word),
    ("swnumber 1 x", 12, FaultKind::Word),
    ("boundary 3:[0-1,1-1]", 10, FaultKind::Repeat),
    ("@1 [[1,1]]", 4, FaultKind::Repeat),
    ("[[1,2,3],[]]", 1, FaultKind::Word),
    ("[[1, 2], [3, 4]] 5", 1, FaultKind::Word),
    ("[[1234567890]]", 1, FaultKind::Number),
];

/// Questions, and what they ask.
const QUESTIONS: [(&str, Verb); 6] = [
    ("count", Verb::Count),
    ("kind 1-2", Verb::KindOf),
    ("chain 1:*0", Verb::ShowChain),
    ("bockstein 1:0", Verb::Bockstein),
    ("same bockstein 1:0 2:0", Verb::SameBockstein),
    ("swnumber 1 2", Verb::SwNumber),
];

/// Whether a list is the one simplex of these vertices.
fn is_just(list: &Simplices, vertices: &[u32]) -> bool {
    let [simplex] = list.items() else {
        return false
    };
    simplex.vertices() == vertices
}

#[test]
fn bad_lines(rt: HostRuntime) -> Result<(), Fail> {
    for (line, column, kind) in BAD_LINES {
        assert!(rt; line.len() < 100);
        match read_request(rt.alloc(), line.as_bytes()) {
            Err(ReadRefusal::Bad(told)) => assert!(rt; told == Fault { column, kind }, "{line}"),
            _ => assert!(rt; false, "{line} is read"),
        }
    }
    Ok(())
}

#[test]
fn steps(rt: HostRuntime) -> Result<(), Fail> {
    let blank = read_request(rt.alloc(), b" # note")?;
    assert!(rt; matches!(blank.request, Request::Blank));
    let attach = read_request(rt.alloc(), b"@7 attach 3-1-002")?;
    assert!(rt; attach.caller == Some(7));
    assert!(rt;
        matches!(&attach.request, Request::Attach(s) if s.vertices() == [1, 2, 3].as_slice())
    );
    let facet = read_request(rt.alloc(), b"2 0\t1")?;
    assert!(rt; facet.caller.is_none());
    let Request::Facet(list) = &facet.request else {
        return Err(Fail::from("no facet"));
    };
    assert!(rt; is_just(list, &[0, 1, 2]));
    let hold = read_request(rt.alloc(), b"hold a_1")?;
    assert!(rt;
        matches!(&hold.request, Request::Hold(name) if name.copy().bytes() == b"a_1".as_slice())
    );
    Ok(())
}

#[test]
fn facets_in_brackets(rt: HostRuntime) -> Result<(), Fail> {
    let facets = read_request(rt.alloc(), b"[ [3, 1\t,002] ,[4]]\t ")?;
    let Request::Facet(list) = facets.request else {
        return Err(Fail::from("no facets"));
    };
    let [first, second] = list.items() else {
        return Err(Fail::from("not two facets"));
    };
    assert_eq!(rt; first.vertices(), [1, 2, 3].as_slice());
    assert_eq!(rt; second.vertices(), [4].as_slice());
    Ok(())
}

#[test]
fn questions(rt: HostRuntime) -> Result<(), Fail> {
    let cap = read_request(rt.alloc(), b"cap 2:#4+#4 1:[1-0,3-2]")?;
    let Request::Ask(Compute::Cap { a, c }) = cap.request else {
        return Err(Fail::from("no cap"));
    };
    assert!(rt;
        matches!(&a, CochainWord::Classes { degree, numbers } if degree.get() == 2 && numbers.items() == [4, 4].as_slice())
    );
    assert!(rt;
        matches!(&c, ChainWord::Literal { degree, simplices } if degree.get() == 1 && simplices.items().len() == 2)
    );
    let number = read_request(rt.alloc(), b"swnumber 2 1 2")?;
    assert!(rt;
        matches!(&number.request, Request::Ask(Compute::SwNumber(parts)) if parts.items() == [2, 1, 2].as_slice())
    );
    Ok(())
}

#[test]
fn verbs(rt: HostRuntime) -> Result<(), Fail> {
    for (line, verb) in QUESTIONS {
        assert!(rt; line.len() < 100);
        let asked = read_request(rt.alloc(), line.as_bytes())?;
        let Request::Ask(question) = &asked.request else {
            return Err(Fail::from("no question"));
        };
        assert!(rt; question.verb() == verb, "{line}");
    }
    assert!(rt; Verb::SameCup.word() == b"same cup".as_slice());
    Ok(())
}
