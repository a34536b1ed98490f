//! What no clause says of the reading of lines: that each call can succeed, however the bytes come.
ghost use Rattle.std.specs.Prelude.{◌<◌};

use super::Lines;
use super::next::Next;
use crate::in_memory::mem_source::MemSource;
use memory::Memory;
use std::alloc::Global;

const TEXT: &[u8] = b"one\r\n\ntwo\r\r\n\r\nthe last\r";

#[test]
fn lines_do_not_depend_on_the_pieces(rt: HostRuntime) -> Result<(), Memory> {
    let alloc = rt.alloc();
    for piece in [1, 2, 3, 4096] {
        let mut lines = lines_of(alloc, piece, &[])?;
        for line in [b"one".as_slice(), b"", b"two\r", b"", b"the last\r"] {
            assert_eq!(rt; lines.next_line(), Next::Line);
            assert_eq!(rt; lines.line(), line);
        }
        assert_eq!(rt; lines.next_line(), Next::End);
        assert_eq!(rt; lines.line(), b"".as_slice());
        assert_eq!(rt; lines.next_line(), Next::End);
        assert_eq!(rt; lines.lines(), 5);
    }
    Ok(())
}

#[test]
fn a_fault_stays(rt: HostRuntime) -> Result<(), Memory> {
    let mut lines = lines_of(rt.alloc(), 7, &[2])?;
    assert_eq!(rt; lines.next_line(), Next::Line);
    assert_eq!(rt; lines.next_line(), Next::Line);
    assert_eq!(rt; lines.next_line(), Next::ReadFault);
    assert_eq!(rt; lines.next_line(), Next::ReadFault);
    assert_eq!(rt; lines.line(), b"".as_slice());
    assert_eq!(rt; lines.lines(), 2);
    let _source = lines.give_back();
    Ok(())
}

fn lines_of(alloc: Global, piece: usize, fails: &[u32]) -> Result<Lines<MemSource>, Memory>
    requires { 0 < piece }
{
    let source = MemSource::new(TEXT.to_vec(alloc)?, piece, fails.to_vec(alloc)?);
    Lines::new(alloc, source).map_err(|(_, memory)| memory)
}
