//! Writers into memory, and what `write_all` makes of them.

ghost use Rattle.std.specs.Prelude.{◌≡◌, Some};

use rights::{Out, OutFault, Stop, write_all};
use std::alloc::Global;
use std::test::Fail;

/// How a writer fails.
#[derive(Clone, Copy, PartialEq, Eq, Debug)]
enum Failure {
    Refuses,
    TakesNone,
}

/// Takes one byte a call, and fails once no call is left.
#[derive(Drop)]
struct ByteWriter {
    taken: Vec<u8>,
    calls_left: usize,
    failure: Failure,
    faults: u64,
}

impl Out for ByteWriter {
    ghost taken = { λ w. Some w.taken.items };

    ghost faults = { λ w. w.faults };

    fn write_some(&mut self, bytes: &[u8]) -> Result<usize, OutFault> {
        let Some(&first) = bytes.first() else {
            return Ok(0);
        };
        if self.calls_left > 0 && self.taken.push(first).is_ok() {
            self.calls_left -= 1;
            return Ok(1);
        }
        self.faults += 1;
        match self.failure {
            Failure::Refuses => Err(OutFault),
            Failure::TakesNone => Ok(0),
        }
    }
}

fn writer(alloc: Global, calls_left: usize, failure: Failure) -> ByteWriter
    ensures { result.faults ≡ 0 }
{
    ByteWriter {
        taken: Vec::new(alloc),
        calls_left,
        failure,
        faults: 0,
    }
}

#[test]
fn writes_all_a_byte_a_call(rt: HostRuntime) -> Result<(), Fail> {
    let mut out = writer(rt.alloc(), 6, Failure::Refuses);
    write_all(&mut out, b"halt\n")?;
    assert!(rt; out.taken.as_slice() == b"halt\n".as_slice());
    Ok(())
}

#[test]
fn stops_where_the_writer_fails(rt: HostRuntime) {
    for calls in 0..5 {
        for failure in [Failure::Refuses, Failure::TakesNone] {
            let mut out = writer(rt.alloc(), calls, failure);
            assert!(rt; write_all(&mut out, b"halt\n") == Err(Stop::Device));
            assert!(rt; out.taken.as_slice() == &b"halt\n"[..calls]);
            assert!(rt; out.faults == 1);
        }
    }
}
