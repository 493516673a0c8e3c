//! How many points a proposed certificate names.

use crate::base::{BASE, Changes, changed};
use crate::serving::says;
use std::test::Fail;

/// Opens a file beneath its directory after it has entered the mode, whose path leads out of it.
const ESCAPES: Changes<'_> = &[(
    "halt",
    "cap_enter else e\nopenat 0 \"up\" read else e\ne: halt",
)];

/// Opens a file by a link that stays, and reads it to its end.
const READS: Changes<'_> = &[(
    "halt",
    "cap_enter else e\nopenat 0 \"same\" read else e\nread 2 else e\nread 2 else e\nread 2 else e\ne: halt",
)];

/// The child alone enters the mode.
const FORKS: Changes<'_> = &[(
    "halt",
    "fork else e\njeq r0 0 c\njmp e\nc: cap_enter else e\ne: halt",
)];

/// How many blocks a certificate has, if it is of version 2.
fn blocks(cert: &[u8]) -> Option<usize> {
    if !cert.starts_with(b"capcert 2\n") {
        return None;
    }
    let mut count = 0usize;
    for at in 0..cert.len() {
        if cert[at..].starts_with(b"\nat ") {
            count = count.saturating_add(1);
        }
    }
    Some(count)
}

#[test]
fn points_where_no_ways_meet_are_left_out(rt: HostRuntime) -> Result<(), Fail> {
    let rows: [(Changes<'_>, usize); 3] = [(ESCAPES, 2), (READS, 2), (FORKS, 3)];
    for (changes, count) in rows {
        match changed(rt.alloc(), BASE, changes)? {
            Some(task) => {
                let words = &["search", "task"];
                let proposed = says(rt.alloc(), words, Some(task.as_bytes()), None)?;
                assert!(rt; blocks(&proposed.out) == Some(count), "{task}");
            }
            None => panic!(rt; "no such part"),
        }
    }
    Ok(())
}
