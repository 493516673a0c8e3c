//! Verdicts on the texts of a task and a certificate.

use crate::certificates::THREE_POINTS;
use checker::Verdict;
use std::alloc::Global;
use text_checker::check_text;

/// A task whose program enters capability mode with two directories open.
const ENTERS: &str = "node = [{path=\"/work\", kind=\"dir\"}, {path=\"/log\", kind=\"dir\"}]
grant = [
 {name=\"work\", path=\"/work\", ops=[\"look\",\"read\"]},
 {name=\"log\", path=\"/log\", ops=[\"create\",\"write\",\"remove\"]}]
process = [{program=\"main\", fd=[
 {number=0, path=\"/work\"}, {number=1, path=\"/log\"}]}]
[[program]]
name = \"main\"
code = '''
cap_enter else e
e: halt
'''
";

/// Whether the texts have this verdict.
fn has_verdict(alloc: Global, task: &str, cert: &str, verdict: Verdict) -> bool {
    match check_text(alloc, task.as_bytes(), cert.as_bytes()) {
        Ok(told) => told == verdict,
        Err(_) => false,
    }
}

#[test]
fn texts_have_verdicts(rt: HostRuntime) {
    assert!(rt; has_verdict(rt.alloc(), ENTERS, THREE_POINTS, Verdict::Yes));
    let missing = Verdict::No {
        program: 0,
        point: 0,
        rule: 16,
    };
    assert!(rt; has_verdict(rt.alloc(), ENTERS, "capcert 1\nend\n", missing));
}
