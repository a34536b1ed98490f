//! Pairings of classes, as rows of bits.
ghost use Rattle.std.specs.Prelude.{◌≡◌, ◌∷◌, ◌++◌, OnOk, OnErr};
ghost use Rattle.std.specs.List.{flat_map};
ghost use Rattle.transcript.specs.Values.{bit_text, row_text, rows_text, pairing_text, pairings_text};
ghost use Rattle.reply_text.specs.Kept.{BeginsWith};
ghost use Rattle.reply_text.specs.Rows.{rows_in, pairings_in};

use crate::number_text::count;
use memory::Memory;

/// Appends for each degree from 0 a blank, the degree, `:`, and the rows of its pairing, joined by `/`, or `-` where there is none; a row
/// is a byte `0` or `1` for each of its bits. One step a byte.
pub(crate) fn pairings(out: &mut Vec<u8>, pairings: &[Vec<Vec<bool>>]) -> Result<(), Memory>
    ensures text { OnOk result (out.new.items ≡ out.old.items ++ pairings_text (pairings_in pairings.now)) }
    ensures kept { OnErr result (BeginsWith out.new.items out.old.items) }
{
    for (degree, rows) in pairings.iter().enumerate() {
        pairing(out, degree, rows.as_slice())?;
    }
    Ok(())
}

/// Appends a blank, a degree, `:`, and the rows of its pairing.
fn pairing(out: &mut Vec<u8>, degree: usize, rows: &[Vec<bool>]) -> Result<(), Memory>
    ensures text { OnOk result (out.new.items ≡ out.old.items ++ pairing_text degree (rows_in rows.now)) }
    ensures kept { OnErr result (BeginsWith out.new.items out.old.items) }
{
    out.extend_from_slice(b" ")?;
    count(out, degree)?;
    out.extend_from_slice(b":")?;
    joined_rows(out, rows)
}

/// Appends rows, joined by `/`; `-` where there is none.
fn joined_rows(out: &mut Vec<u8>, rows: &[Vec<bool>]) -> Result<(), Memory>
    ensures text { OnOk result (out.new.items ≡ out.old.items ++ rows_text (rows_in rows.now)) }
    ensures kept { OnErr result (BeginsWith out.new.items out.old.items) }
{
    match rows.split_first() {
        None => out.extend_from_slice(b"-"),
        Some((first, others)) => {
            row(out, first.as_slice())?;
            marked_rows(out, others)
        }
    }
}

/// Appends each row after a `/`.
fn marked_rows(out: &mut Vec<u8>, rows: &[Vec<bool>]) -> Result<(), Memory>
    ensures text { OnOk result
        (out.new.items ≡ out.old.items ++ flat_map (λ row. 47 ∷ row_text row.items) rows.now) }
    ensures kept { OnErr result (BeginsWith out.new.items out.old.items) }
{
    for bits in rows {
        out.extend_from_slice(b"/")?;
        row(out, bits.as_slice())?;
    }
    Ok(())
}

/// Appends a row, a byte for each of its bits.
fn row(out: &mut Vec<u8>, bits: &[bool]) -> Result<(), Memory>
    ensures text { OnOk result (out.new.items ≡ out.old.items ++ row_text bits.now) }
    ensures kept { OnErr result (BeginsWith out.new.items out.old.items) }
{
    for value in bits {
        bit(out, *value)?;
    }
    Ok(())
}

/// Appends `1` or `0`.
pub(crate) fn bit(out: &mut Vec<u8>, value: bool) -> Result<(), Memory>
    ensures text { OnOk result (out.new.items ≡ out.old.items ++ bit_text value) }
    ensures kept { OnErr result (BeginsWith out.new.items out.old.items) }
{
    if value {
        out.extend_from_slice(b"1")
    } else {
        out.extend_from_slice(b"0")
    }
}
