//! The texts of small values.
use crate::class_text::class;
use crate::number_text::numbers;
use crate::pairing_text::{bit, pairings};
use crate::simplex_text::{chain, cochain, essential};
use simplex_order::{Simplex, SimplexFault};
use std::test::Fail;

/// An edge.
fn edge(a: u32, b: u32) -> Result<Simplex, SimplexFault> {
    Simplex::from_vertices(&[a, b])
}

#[test]
fn texts(rt: HostRuntime) -> Result<(), Fail> {
    let mut out = Vec::new(rt.alloc());
    cochain(&mut out, 1, &[edge(2, 3)?, edge(2, 5)?])?;
    assert_eq!(rt; out.as_slice(), b"1:{2-3,2-5}".as_slice());
    out.clear();
    chain(&mut out, 0, &[])?;
    assert_eq!(rt; out.as_slice(), b"0:[]".as_slice());
    out.clear();
    essential(&mut out, 1, &[edge(4, 7)?, edge(0, 9)?])?;
    assert_eq!(rt; out.as_slice(), b" 1 2 4-7 0-9".as_slice());
    out.clear();
    class(&mut out, 2, &[0, 3])?;
    assert_eq!(rt; out.as_slice(), b"2:#0+#3".as_slice());
    out.clear();
    class(&mut out, 2, &[])?;
    numbers(&mut out, &[1, 20])?;
    assert_eq!(rt; out.as_slice(), b"2:0 1 20".as_slice());
    Ok(())
}

#[test]
fn texts_of_bits(rt: HostRuntime) -> Result<(), Fail> {
    let mut out = Vec::new(rt.alloc());
    let none = Vec::new(rt.alloc());
    let mut rows = Vec::new(rt.alloc());
    rows.push([false, true].to_vec(rt.alloc())?)?;
    rows.push([true, true].to_vec(rt.alloc())?)?;
    pairings(&mut out, &[none, rows])?;
    bit(&mut out, false)?;
    assert_eq!(rt; out.as_slice(), b" 0:- 1:01/110".as_slice());
    Ok(())
}
