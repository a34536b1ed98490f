//! Numbers, alone and in rows.
ghost use Rattle.std.specs.Prelude.{◌≡◌, ◌++◌, decimal, OnOk, OnErr};
ghost use Rattle.std.specs.List.{flat_map};
ghost use Rattle.transcript.specs.Values.{numbers_text};
ghost use Rattle.reply_text.specs.Kept.{BeginsWith};

use itoa::Buffer;
use memory::Memory;

/// Appends a number in decimal. At most ten bytes.
pub(crate) fn number(out: &mut Vec<u8>, n: u32) -> Result<(), Memory>
    ensures text { OnOk result (out.new.items ≡ out.old.items ++ decimal n) }
    ensures kept { OnErr result (BeginsWith out.new.items out.old.items) }
{
    count(out, n as usize)
}

/// Appends a count in decimal. At most twenty bytes.
pub(crate) fn count(out: &mut Vec<u8>, n: usize) -> Result<(), Memory>
    ensures text { OnOk result (out.new.items ≡ out.old.items ++ decimal n) }
    ensures kept { OnErr result (BeginsWith out.new.items out.old.items) }
{
    let mut digits = Buffer::new();
    out.extend_from_slice(digits.format(n).as_bytes())
}

/// Appends each number after a blank. At most eleven bytes a number.
pub(crate) fn numbers(out: &mut Vec<u8>, numbers: &[u32]) -> Result<(), Memory>
    ensures text { OnOk result (out.new.items ≡ out.old.items ++ numbers_text numbers.now) }
    ensures kept { OnErr result (BeginsWith out.new.items out.old.items) }
{
    marked_numbers(out, b" ", numbers)
}

/// Appends each number after a mark.
pub(crate) fn marked_numbers(out: &mut Vec<u8>, mark: &[u8], numbers: &[u32]) -> Result<(), Memory>
    ensures text { OnOk result
        (out.new.items ≡ out.old.items ++ flat_map (λ n. mark.now ++ decimal n) numbers.now) }
    ensures kept { OnErr result (BeginsWith out.new.items out.old.items) }
{
    for n in numbers {
        out.extend_from_slice(mark)?;
        number(out, *n)?;
    }
    Ok(())
}
