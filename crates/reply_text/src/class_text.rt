//! Classes, by the numbers of the classes that they are the sum of.
ghost use Rattle.std.specs.Prelude.{◌≡◌, ◌++◌, OnOk, OnErr};
ghost use Rattle.transcript.specs.Values.{classes_text, class_text};
ghost use Rattle.reply_text.specs.Kept.{BeginsWith};

use crate::number_text::{marked_numbers, number};
use memory::Memory;

/// Appends a class: its degree, `:`, and its class numbers, each after a `#`, joined by `+`; `0` for
/// the zero class. One step a byte.
pub(crate) fn class(out: &mut Vec<u8>, degree: u8, numbers: &[u32]) -> Result<(), Memory>
    ensures text { OnOk result (out.new.items ≡ out.old.items ++ class_text degree numbers.now) }
    ensures kept { OnErr result (BeginsWith out.new.items out.old.items) }
{
    number(out, u32::from(degree))?;
    out.extend_from_slice(b":")?;
    classes(out, numbers)
}

/// Appends class numbers, each after a `#`, joined by `+`; `0` where there is none.
fn classes(out: &mut Vec<u8>, numbers: &[u32]) -> Result<(), Memory>
    ensures text { OnOk result (out.new.items ≡ out.old.items ++ classes_text numbers.now) }
    ensures kept { OnErr result (BeginsWith out.new.items out.old.items) }
{
    match numbers.split_first() {
        None => out.extend_from_slice(b"0"),
        Some((first, others)) => {
            out.extend_from_slice(b"#")?;
            number(out, *first)?;
            marked_numbers(out, b"+#", others)
        }
    }
}
