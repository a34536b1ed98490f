//! What no clause says: that each call can succeed, and what is seen after a fault in mid-stream.
use crate::faults::FaultCount;
use crate::standard::{read_counted, write_counted};
use crate::{
    Failed, MemSink, MemSource, QuietSink, QuietSource, Sink, SinkFault, Source, StdSink,
    StdSource, write_whole,
};
use memory::Memory;
use std::io;
use std::io::{ErrorKind, Read, Write};

#[test]
fn a_source_goes_on_after_a_fault(rt: HostRuntime) -> Result<(), Memory> {
    let alloc = rt.alloc();
    let mut source = MemSource::new([1, 2, 3, 4, 5, 6].to_vec(alloc)?, 4, [2].to_vec(alloc)?);
    let mut buf = [0; 8];
    assert_eq!(rt; source.read(&mut buf), Ok(4));
    assert_eq!(rt; source.read(&mut buf), Err(Failed));
    assert_eq!(rt; source.read(&mut buf), Ok(2));
    assert_eq!(rt; &buf[..2], [5, 6].as_slice());
    assert_eq!(rt; source.read(&mut buf), Ok(0));
    Ok(())
}

#[test]
fn a_write_stops_at_a_fault(rt: HostRuntime) -> Result<(), Memory> {
    let alloc = rt.alloc();
    let mut sink = MemSink::new(alloc, 3, [2].to_vec(alloc)?);
    assert_eq!(rt; write_whole(&mut sink, b"abcdef"), Err(SinkFault::Failed));
    assert_eq!(rt; sink.bytes(), b"abc".as_slice());
    assert_eq!(rt; write_whole(&mut sink, b"defg"), Ok(()));
    assert_eq!(rt; sink.bytes(), b"abcdefg".as_slice());
    let mut stuck = MemSink::new(alloc, 0, [].to_vec(alloc)?);
    assert_eq!(rt; stuck.write(b"a"), Err(SinkFault::Failed));
    Ok(())
}

#[test]
fn quiet_ends_pass_all(rt: HostRuntime) -> Result<(), Memory> {
    let alloc = rt.alloc();
    let mut source = QuietSource::new([1, 2, 3].to_vec(alloc)?, 2);
    let mut sink = QuietSink::new(alloc, 1);
    let mut buf = [0; 8];
    assert_eq!(rt; (&mut source).read(&mut buf), Ok(2));
    assert_eq!(rt; write_whole(&mut &mut sink, &buf[..2]), Ok(()));
    assert_eq!(rt; sink.bytes(), [1, 2].as_slice());
    Ok(())
}

#[test]
fn standard_ends_are_made(rt: HostRuntime) {
    let _source = StdSource::new(rt.stdin());
    let mut sink = StdSink::new(rt.stdout());
    assert_eq!(rt; write_whole(&mut sink, b""), Ok(()));
}

#[test]
fn an_error_is_a_fault_once(rt: HostRuntime) {
    let mut torn = Torn { calls: 0 };
    let mut faults = FaultCount::new();
    let mut buf = [0; 8];
    assert_eq!(rt; read_counted(&mut torn, &mut faults, &mut buf), Ok(1));
    assert_eq!(rt; read_counted(&mut torn, &mut faults, &mut buf), Err(Failed));
    assert_eq!(rt; read_counted(&mut torn, &mut faults, &mut buf), Ok(1));
    assert_eq!(rt; write_counted(&mut torn, &mut faults, b"ab"), Ok(2));
    assert_eq!(rt;
        write_counted(&mut torn, &mut faults, b"ab"),
        Err(SinkFault::Failed)
    );
}

/// Its second read fails, and from its fifth call on its writes take nothing.
#[derive(Drop)]
struct Torn {
    calls: u8,
}

impl Torn {
    fn call(&mut self) -> u8 {
        self.calls = self.calls.saturating_add(1);
        self.calls
    }
}

impl Read for Torn {
    fn read(&mut self, buf: &mut [u8]) -> io::Result<usize> {
        if self.call() == 2 {
            return Err(io::Error::from(ErrorKind::BrokenPipe));
        }
        Ok(buf.len().min(1))
    }
}

impl Write for Torn {
    fn write(&mut self, buf: &[u8]) -> io::Result<usize> {
        if self.call() < 5 {
            Ok(buf.len())
        } else {
            Ok(0)
        }
    }

    fn flush(&mut self) -> io::Result<()> {
        Ok(())
    }
}
