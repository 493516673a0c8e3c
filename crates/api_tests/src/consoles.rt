//! Streams that take little or fail, under a console, and what the program makes of them.

use crate::serving::empty_shelf;
use console::{Console, Fault, closed, fetched};
use rights::{Stop, write_all};
use std::alloc::Global;
use std::io;
use std::io::{Error, ErrorKind, Write};
use std::test::Fail;

/// Takes at most so many bytes a call and so many calls; it can be told to fail at a flush.
#[derive(Drop)]
struct Pipe {
    bytes: Vec<u8>,
    most: usize,
    calls_left: usize,
    flushes: bool,
}

impl Write for Pipe {
    fn write(&mut self, bytes: &[u8]) -> io::Result<usize> {
        if self.calls_left == 0 {
            return Err(Error::from(ErrorKind::BrokenPipe));
        }
        self.calls_left -= 1;
        let count = bytes.len().min(self.most);
        match self.bytes.extend_from_slice(&bytes[..count]) {
            Ok(()) => Ok(count),
            Err(_) => Err(Error::from(ErrorKind::OutOfMemory)),
        }
    }

    fn flush(&mut self) -> io::Result<()> {
        if self.flushes {
            return Ok(());
        }
        Err(Error::from(ErrorKind::StorageFull))
    }
}

fn stream(alloc: Global, most: usize, calls_left: usize, flushes: bool) -> Pipe {
    Pipe {
        bytes: Vec::new(alloc),
        most,
        calls_left,
        flushes,
    }
}

#[test]
fn writes_on_after_short_writes(rt: HostRuntime) -> Result<(), Fail> {
    for most in 1..6 {
        let mut sink = stream(rt.alloc(), most, 5, true);
        write_all(&mut Console::new(&mut sink), b"yes\nx")?;
        assert!(rt; sink.bytes.as_slice() == b"yes\nx".as_slice(), "{most}");
    }
    Ok(())
}

#[test]
fn stops_where_the_stream_fails(rt: HostRuntime) {
    for calls in 0..4 {
        let mut sink = stream(rt.alloc(), 1, calls, true);
        assert!(rt;
            write_all(&mut Console::new(&mut sink), b"yes\n") == Err(Stop::Device),
            "{calls}"
        );
        assert!(rt; sink.bytes.as_slice() == &b"yes\n"[..calls], "{calls}");
    }
}

#[test]
fn tells_whether_a_flush_went_well(rt: HostRuntime) {
    for flushes in [false, true] {
        let mut console = Console::new(stream(rt.alloc(), 1, 1, flushes));
        assert!(rt; console.flush() == flushes);
    }
}

#[test]
fn a_failed_flush_is_a_failed_output(rt: HostRuntime) {
    let rows: [(u8, bool, u8, &[u8]); 8] = [
        (0, true, 0, b""),
        (1, true, 1, b""),
        (2, true, 2, b""),
        (3, true, 3, b""),
        (0, false, 3, b"capcheck: output\n"),
        (1, false, 3, b"capcheck: output\n"),
        (2, false, 3, b""),
        (3, false, 3, b""),
    ];
    for (status, flushed, last, told) in rows {
        let mut err = empty_shelf(rt.alloc(), 5, 0, true);
        assert!(rt;
            closed("capcheck", status, flushed, &mut err) == last,
            "{status} {flushed}"
        );
        assert!(rt; err.bytes.as_slice() == told, "{status} {flushed}");
    }
}

#[test]
fn a_file_that_is_not_read_has_no_bytes(rt: HostRuntime) -> Result<(), Fail> {
    let rows = [
        (ErrorKind::NotFound, false),
        (ErrorKind::PermissionDenied, false),
        (ErrorKind::IsADirectory, false),
        (ErrorKind::Interrupted, false),
        (ErrorKind::OutOfMemory, true),
    ];
    for (kind, is_memory) in rows {
        match fetched("file", Err(Error::from(kind))) {
            Ok(_) => panic!(rt; "it was read"),
            Err(why) => assert!(rt; matches!(why, Fault::Memory) == is_memory),
        }
    }
    match fetched("file", Ok(Vec::new(rt.alloc()))) {
        Ok(bytes) => assert!(rt; bytes.is_empty()),
        Err(_) => panic!(rt; "it was not read"),
    }
    Ok(())
}
