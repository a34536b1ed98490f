//! Simplices, and sets of them: cochains in braces, chains in brackets.
ghost use Rattle.std.specs.Prelude.{◌≡◌, [], ◌++◌, ◌∷◌, length, OnOk, OnErr};
ghost use Rattle.std.specs.List.{flat_map};
ghost use Rattle.transcript.specs.Values.{simplex_text, simplices_text, cochain_text, chain_text, numbers_text};
ghost use Rattle.reply_text.specs.Kept.{BeginsWith};

use crate::number_text::{count, marked_numbers, number};
use memory::Memory;
use simplex_order::Simplex;

/// Appends the vertices of a simplex, joined by `-`. At most 142 bytes.
pub(crate) fn simplex(out: &mut Vec<u8>, s: &Simplex) -> Result<(), Memory>
    ensures text { OnOk result (out.new.items ≡ out.old.items ++ simplex_text s.now) }
    ensures kept { OnErr result (BeginsWith out.new.items out.old.items) }
{
    let Some((first, others)) = s.vertices().split_first() else {
        unreachable!()
    };
    number(out, *first)?;
    marked_numbers(out, b"-", others)
}

/// Appends a cochain: its degree, `:{`, its simplices in their order, joined by `,`, and `}`.
/// One step a byte.
pub(crate) fn cochain(out: &mut Vec<u8>, degree: u8, simplices: &[Simplex]) -> Result<(), Memory>
    ensures text { OnOk result
        (out.new.items ≡ out.old.items ++ cochain_text degree simplices.now) }
    ensures kept { OnErr result (BeginsWith out.new.items out.old.items) }
{
    number(out, u32::from(degree))?;
    out.extend_from_slice(b":{")?;
    joined_simplices(out, simplices)?;
    out.extend_from_slice(b"}")
}

/// Appends a chain: its degree, `:[`, its simplices in their order, joined by `,`, and `]`.
/// One step a byte.
pub(crate) fn chain(out: &mut Vec<u8>, degree: u8, simplices: &[Simplex]) -> Result<(), Memory>
    ensures text { OnOk result (out.new.items ≡ out.old.items ++ chain_text degree simplices.now) }
    ensures kept { OnErr result (BeginsWith out.new.items out.old.items) }
{
    number(out, u32::from(degree))?;
    out.extend_from_slice(b":[")?;
    joined_simplices(out, simplices)?;
    out.extend_from_slice(b"]")
}

/// Appends simplices, joined by `,`.
fn joined_simplices(out: &mut Vec<u8>, simplices: &[Simplex]) -> Result<(), Memory>
    ensures text { OnOk result (out.new.items ≡ out.old.items ++ simplices_text simplices.now) }
    ensures kept { OnErr result (BeginsWith out.new.items out.old.items) }
{
    match simplices.split_first() {
        None => Ok(()),
        Some((first, others)) => {
            simplex(out, first)?;
            marked_simplices(out, b',', others)
        }
    }
}

/// Appends a dimension, the number of its essential simplices, and these, each after a blank.
/// One step a byte.
pub(crate) fn essential(out: &mut Vec<u8>, degree: u8, simplices: &[Simplex]) -> Result<(), Memory>
    ensures text { OnOk result
        (out.new.items ≡ out.old.items ++ (numbers_text (degree ∷ length simplices.now ∷ []) ++ flat_map (λ s. 32 ∷ simplex_text s) simplices.now)) }
    ensures kept { OnErr result (BeginsWith out.new.items out.old.items) }
{
    out.extend_from_slice(b" ")?;
    number(out, u32::from(degree))?;
    out.extend_from_slice(b" ")?;
    count(out, simplices.len())?;
    marked_simplices(out, b' ', simplices)
}

/// Appends each simplex after a byte.
fn marked_simplices(out: &mut Vec<u8>, mark: u8, simplices: &[Simplex]) -> Result<(), Memory>
    ensures text { OnOk result
        (out.new.items ≡ out.old.items ++ flat_map (λ s. mark ∷ simplex_text s) simplices.now) }
    ensures kept { OnErr result (BeginsWith out.new.items out.old.items) }
{
    for s in simplices {
        out.push(mark)?;
        simplex(out, s)?;
    }
    Ok(())
}
