//! Outputs that take a byte a call, or fail, whatever the program prints.

use crate::serving::{Said, empty_shelf, says, serve_to};
use std::alloc::{AllocError, Global};
use std::test::Fail;

/// Enters the mode and reads a byte of its one descriptor.
const TASK: &str = "node = [
 {path=\"/work\", kind=\"dir\"},
 {path=\"/work/in\", kind=\"file\", content=\"AB\"}]
grant = [{name=\"work\", path=\"/work\", ops=[\"look\",\"read\"]}]
process = [{program=\"main\", fd=[{number=2, path=\"/work/in\"}]}]
[[program]]
name = \"main\"
code = '''
cap_enter else e
read 2 else e
e: halt
'''
";

const SCHEDULE: &str = "0 0\n0 0\n0 0\n";

/// Version 2, with a bound that is carried.
const CERT: &str = "capcert 2
at main 0 off
fd 2 open grant work 3fff 3fff 3 3
at main 2 maybe
fd 2 open grant work 3fff 3fff 3 3
end
";

/// What is said to an output that takes a byte a call and fails at one, or at none where that is 0.
fn slowly(
    alloc: Global,
    words: &[&str],
    second: &str,
    fails_at: u64,
    refuses: bool,
) -> Result<Said, AllocError> {
    let out = empty_shelf(alloc, 1, fails_at, refuses);
    let err = empty_shelf(alloc, 1000, 0, true);
    let (task, second) = (TASK.as_bytes(), second.as_bytes());
    serve_to(alloc, words, Some(task), Some(second), out, err)
}

/// Whether each failure of the output is told, once it has taken what was printed before it.
fn tells_each_failure(
    alloc: Global,
    words: &[&str],
    second: &str,
    whole: &[u8],
) -> Result<bool, AllocError> {
    for (place, _) in whole.iter().enumerate() {
        for refuses in [false, true] {
            let said = slowly(alloc, words, second, place as u64 + 1, refuses)?;
            if !said.is(3, &whole[..place], b"capcheck: output\n") {
                return Ok(false);
            }
        }
    }
    Ok(true)
}

#[test]
fn slow_and_failing_outputs_are_served(rt: HostRuntime) -> Result<(), Fail> {
    let alloc = rt.alloc();
    let rows: [(&[&str], &str); 5] = [
        (&["run", "task", "schedule"], SCHEDULE),
        (&["check", "task", "schedule"], CERT),
        (&["report", "task", "schedule"], CERT),
        (&["expand", "task", "schedule"], CERT),
        (&["search", "task"], ""),
    ];
    for (words, second) in rows {
        let (task, file) = (TASK.as_bytes(), second.as_bytes());
        let said = says(alloc, words, Some(task), Some(file))?;
        assert!(rt; said.status == 0 && !said.out.is_empty(), "{words:?}");
        assert!(rt;
            slowly(alloc, words, second, 0, true)?.is(0, &said.out, b""),
            "{words:?}"
        );
        assert!(rt;
            tells_each_failure(alloc, words, second, &said.out)?,
            "{words:?}"
        );
    }
    Ok(())
}
