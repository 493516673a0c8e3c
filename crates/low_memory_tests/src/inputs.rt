//! Tasks, certificates, schedules and a trace.

use std::alloc::{AllocError, Global};

/// A task whose one program reads a file to its end, in the mode.
pub(super) const READS: &str = "node = [
 {path=\"/work\", kind=\"dir\"},
 {path=\"/work/in\", kind=\"file\", content=\"AB\"},
 {path=\"/work/same\", kind=\"link\", target=\"in\"},
 {path=\"/log\", kind=\"dir\"}]
grant = [
 {name=\"work\", path=\"/work\", ops=[\"look\",\"read\"]},
 {name=\"log\", path=\"/log\", ops=[\"create\",\"write\",\"remove\"]}]
process = [{program=\"main\", fd=[
 {number=0, path=\"/work\"}, {number=1, path=\"/log\"}]}]
[[program]]
name = \"main\"
code = '''
cap_enter else e
openat 0 \"same\" read else e
read 2 else e
read 2 else e
read 2 else e
e: halt
'''
";

/// Its certificate.
pub(super) const SIX_POINTS: &str = "capcert 1
at main 0 off
fd 0 open grant work 3fff 3fff 3 3
fd 1 open grant log 3fff 3fff 3 3
at main 1 on
fd 0 open grant work 3fff 3fff 3 3
fd 1 open grant log 3fff 3fff 3 3
at main 2 on
fd 0 open grant work 3fff 3fff 3 3
fd 1 open grant log 3fff 3fff 3 3
fd 2 open grant work 3fff 3fff 3 3
at main 3 on
fd 0 open grant work 3fff 3fff 3 3
fd 1 open grant log 3fff 3fff 3 3
fd 2 open grant work 3fff 3fff 3 3
at main 4 on
fd 0 open grant work 3fff 3fff 3 3
fd 1 open grant log 3fff 3fff 3 3
fd 2 open grant work 3fff 3fff 3 3
at main 5 on
fd 0 open grant work 3fff 3fff 3 3
fd 1 open grant log 3fff 3fff 3 3
fd 2 maybe grant work 3fff 3fff 3 3
end
";

/// A certificate of the same meaning that takes more memory than the task: it bounds points behind the program's end too.
pub(super) fn hundred_points(alloc: Global) -> Result<String, AllocError> {
    let mut text = String::new(alloc);
    if let Some(six) = SIX_POINTS.strip_suffix("end\n") {
        text.push_str(six)?;
    }
    for point in 6..100 {
        let slot = "open grant work 3fff 3fff 3 3";
        let block = format!(in alloc;
            "at main {point} on\nfd 0 {slot}\nfd 1 {slot}\nfd 2 {slot}\n"
        )?;
        text.push_str(block.as_str())?;
    }
    text.push_str("end\n")?;
    Ok(text)
}

/// A certificate that leaves point 0 out.
pub(super) const NO_POINT: &str = "capcert 1\nend\n";

/// A program that goes to a label that is nowhere.
pub(super) const NO_LABEL: &str = "set r0 1\njmp x\n";

/// A task with that program.
pub(super) const NO_LABEL_IN_A_TASK: &str = "node = []
grant = []
process = [{program=\"main\", fd=[]}]
program = [{name=\"main\", code=\"set r0 1\\njmp x\\n\"}]
";

/// A task for which no certificate meets the rules: which number is the lowest free one isn't determined.
pub(super) const PARTS: &str =
    "node = [{path=\"/work\", kind=\"dir\"}, {path=\"/work/in\", kind=\"file\", content=\"\"}]
grant = []
process = [{program=\"main\", fd=[{number=0, path=\"/work\"}, {number=1, path=\"/work\"}]}]
[[program]]
name = \"main\"
code = '''
in r0
jeq r0 0 k
close 1 else e
k: openat 0 \"in\" read else e
e: halt
'''
";

/// A task whose process makes, renames and removes, by a link too, sends a descriptor to itself, and forks.
pub(super) const ACTS: &str =
    "node = [{path=\"/log\", kind=\"dir\"}, {path=\"/log/link\", kind=\"link\", target=\"./.\"}]
grant = [{name=\"log\", path=\"/log\", ops=[\"create\",\"write\",\"remove\"]}]
process = [{program=\"main\", fd=[{number=1, path=\"/log\"}]}]
[[program]]
name = \"main\"
code = '''
mkdirat 1 \"link/directory\" else e
openat 1 \"directory/file\" read,write,create else e
write 0 300 else e
renameat 1 \"directory\" 1 \"another_directory\" else e
fstat 0 else e
socketpair else e
sendfd 2 0 7 else e
recvfd 3 else e
lseek 4 0 else e
read 4 else e
fork else e
unlinkat 1 \"another_directory/file\" else e
e: halt
'''
";

/// The events of process 0: one for each of its thirteen instructions, and one more for each name or link that a path has before
/// its last name.
pub(super) const EVENTS: &[u8] =
    b"0 0\n0 0\n0 0\n0 0\n0 0\n0 0\n0 0\n0 0\n0 0\n0 0\n0 0\n0 0\n0 0\n0 0\n0 0\n0 0\n0 0\n0 0\n";

/// The same, with one more that has no byte.
pub(super) const NO_BYTE: &[u8] =
    b"0 0\n0 0\n0 0\n0 0\n0 0\n0 0\n0 0\n0 0\n0 0\n0 0\n0 0\n0 0\n0 0\n0 0\n0 0\n0 0\n0 0\n0 0\n0\n";

/// What these events show.
pub(super) const TRACE: &[u8] = b"0 main:0 walk
0 main:0 walk
0 main:0 walk
0 main:0 = 0 create /log/directory
0 main:1 walk
0 main:1 = 0 create /log/directory/file
0 main:2 = 1 write /log/directory/file
0 main:3 = 0 remove /log/directory create /log/another_directory
0 main:4 = 1 look /log/another_directory/file
0 main:5 = 2
0 main:6 = 1
0 main:7 = 4
0 main:8 = 0
0 main:9 = 44 read /log/another_directory/file
0 main:10 = 1
0 main:11 walk
0 main:11 = 0 remove /log/another_directory/file
0 main:12 halt
";
