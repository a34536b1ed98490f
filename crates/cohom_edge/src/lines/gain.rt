//! One read of a source, into the bytes that wait.
ghost use Rattle.std.specs.Prelude.{◌≡◌, ◌<◌, [], length};
ghost use Rattle.cohom_edge.specs.Pieces.{Gained};

use super::next::Gain;
use super::pending::Pending;
use crate::faults::Failed;
use crate::source::Source;
use memory::Memory;

/// Reads once, by way of `buf`. Room for the bytes is made before, so none that was read is lost.
pub(crate) fn read_more<S: Source>(source: &mut S, pending: &mut Pending, buf: &mut [u8]) -> Gain
    requires line { pending.old.line ≡ [] }
    requires some { 0 < length buf.old }
    ensures line { pending.new.line ≡ [] }
    ensures gained { Gained result (record { left = S.left source.old; faults = S.faults source.old; buffered = pending.old.bytes }) (record { left = S.left source.new; faults = S.faults source.new; buffered = pending.new.bytes }) }
{
    if let Err(Memory) = pending.make_room(buf.len()) {
        return Gain::Memory;
    }
    match source.read(buf) {
        Err(Failed) => Gain::Fault,
        Ok(0) => Gain::Nothing,
        Ok(count) => {
            pending.append(&buf[..count]);
            Gain::Bytes
        }
    }
}
