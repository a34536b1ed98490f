//! How a script ends.
ghost use Rattle.std.specs.Prelude.{◌≡◌};
ghost use Rattle.cohom_main.specs.Ends.{how_of, end_at};

use cohom_edge::{Next, SinkFault};
use session_core::How;

/// How a script ends at a reply that was not written.
pub(crate) fn how_of(fault: SinkFault) -> How
    ensures { result ≡ how_of fault }
{
    match fault {
        SinkFault::Failed => How::WriteFault,
        SinkFault::Memory => How::Memory,
    }
}

/// How a script ends where no further line comes; `None` at a line.
pub(crate) fn end_at(next: Next) -> Option<How>
    ensures { result ≡ end_at next }
{
    match next {
        Next::Line => None,
        Next::End => Some(How::Input),
        Next::ReadFault => Some(How::ReadFault),
        Next::LongLine => Some(How::LongLine),
        Next::Spent => Some(How::Spent),
        Next::Memory => Some(How::Memory),
    }
}
