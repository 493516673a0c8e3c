//! Want of memory for a file, and an error stream that fails.

use crate::serving::{empty_shelf, says, serve_to};
use std::test::Fail;

#[test]
fn want_of_memory_is_told(rt: HostRuntime) -> Result<(), Fail> {
    let memory: &[u8] = b"capcheck: memory\n";
    let rows: [(&[&str], u8, &[u8]); 5] = [
        (&["run", "huge", "nope"], 3, memory),
        (&["run", "task", "huge"], 3, memory),
        (&["check", "huge", "nope"], 3, memory),
        (&["check", "task", "huge"], 3, memory),
        (&["run", "nope", "huge"], 2, b"capcheck: file nope\n"),
    ];
    for (words, status, line) in rows {
        let said = says(rt.alloc(), words, Some(b"no task"), None)?;
        assert!(rt; said.is(status, b"", line), "{words:?}");
    }
    Ok(())
}

#[test]
fn a_failing_error_stream_changes_nothing(rt: HostRuntime) -> Result<(), Fail> {
    let alloc = rt.alloc();
    let rows: [(&[&str], u8); 4] = [
        (&["walk"], 2),
        (&["run", "task", "schedule"], 2),
        (&["run", "task", "nope"], 2),
        (&["run", "task", "huge"], 3),
    ];
    for (words, status) in rows {
        for refuses in [false, true] {
            let out = empty_shelf(alloc, 1000, 0, true);
            let err = empty_shelf(alloc, 1000, 1, refuses);
            let said = serve_to(alloc, words, Some(b"x"), Some(b""), out, err)?;
            assert!(rt; said.is(status, b"", b""), "{words:?}");
        }
    }
    Ok(())
}
