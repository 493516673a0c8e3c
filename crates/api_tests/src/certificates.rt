//! Texts of certificates: read and written back, and the fault of those that are none.

use crate::base::changed;
use crate::serving::empty_shelf;
use certificate::Cert;
use certificate_text::{CertFault, read_cert, write_cert};
use rights::Stop;
use std::alloc::{AllocError, Global};
use std::test::Fail;

/// Three points of a program, each with two directories open.
pub(super) const THREE_POINTS: &str = "capcert 1
at main 0 off
fd 0 open grant work 3fff 3fff 3 3
fd 1 open grant log 3fff 3fff 3 3
at main 1 on
fd 0 open grant work 3fff 3fff 3 3
fd 1 open grant log 3fff 3fff 3 3
at main 2 on
fd 0 open grant work 3fff 3fff 3 3
fd 1 open grant log 3fff 3fff 3 3
end
";

/// Where each of its lines begins.
const LINE_STARTS: [usize; 11] = [0, 10, 24, 59, 93, 106, 141, 175, 188, 223, 257];

/// Six points of a program, with a descriptor that is open at some and perhaps at one.
const SIX_POINTS: &str = "capcert 1
at main 0 off
fd 0 open grant work 3fff 3fff 3 3
fd 1 open grant log 3fff 3fff 3 3
at main 1 on
fd 0 open grant work 3fff 3fff 3 3
fd 1 open grant log 3fff 3fff 3 3
at main 2 on
fd 0 open grant work 3fff 3fff 3 3
fd 1 open grant log 3fff 3fff 3 3
fd 2 open grant work 3fff 3fff 3 3
at main 3 on
fd 0 open grant work 3fff 3fff 3 3
fd 1 open grant log 3fff 3fff 3 3
fd 2 open grant work 3fff 3fff 3 3
at main 4 on
fd 0 open grant work 3fff 3fff 3 3
fd 1 open grant log 3fff 3fff 3 3
fd 2 open grant work 3fff 3fff 3 3
at main 5 on
fd 0 open grant work 3fff 3fff 3 3
fd 1 open grant log 3fff 3fff 3 3
fd 2 maybe grant work 3fff 3fff 3 3
end
";

/// Two programs at the ends of a pair, through which any descriptor comes.
const SENDS_ANYTHING: &str = "capcert 1
at child 0 on
fd 0 open sock @0 b 3fff 3fff 3 3
at child 1 on
fd 0 open sock @0 b 3fff 3fff 3 3
fd 1 open any 3fff 3fff 3 3
at child 2 on
fd 0 open sock @0 b 3fff 3fff 3 3
fd 1 maybe any 3fff 3fff 3 3
at main 0 off
fd 0 open grant work 3fff 3fff 3 3
fd 1 open grant log 3fff 3fff 3 3
fd 2 open sock @0 a 3fff 3fff 3 3
at main 1 off
fd 0 open grant work 3fff 3fff 3 3
fd 1 open grant log 3fff 3fff 3 3
fd 2 open sock @0 a 3fff 3fff 3 3
fd 3 open any 3fff 3fff 3 3
at main 2 off
fd 0 open grant work 3fff 3fff 3 3
fd 1 open grant log 3fff 3fff 3 3
fd 2 open sock @0 a 3fff 3fff 3 3
fd 3 maybe any 3fff 3fff 3 3
chan @0 a any 3fff 3fff 3 3
end
";

/// Two programs at the ends of a pair, through which narrowed descriptors of one grant come.
const SENDS_NARROWED: &str = "capcert 1
at child 0 on
fd 0 open sock @0 b 3fff 3fff 3 3
at child 1 on
fd 0 open sock @0 b 3fff 3fff 3 3
fd 1 open grant work 0081 0081 3 3
at child 2 on
fd 0 open sock @0 b 3fff 3fff 3 3
fd 1 open grant work 0081 0081 3 3
fd 2 open grant work 0081 0081 3 3
at child 3 on
fd 0 open sock @0 b 3fff 3fff 3 3
fd 1 maybe grant work 0081 0081 3 3
fd 2 maybe grant work 0081 0081 3 3
at main 0 off
fd 0 open grant work 3fff 3fff 3 3
fd 1 open grant log 3fff 3fff 3 3
fd 2 open sock @0 a 3fff 3fff 3 3
at main 1 off
fd 0 open grant work 0081 0081 3 3
fd 1 open grant log 3fff 3fff 3 3
fd 2 open sock @0 a 3fff 3fff 3 3
at main 2 off
fd 0 open grant work 0081 3fff 3 3
fd 1 open grant log 3fff 3fff 3 3
fd 2 open sock @0 a 3fff 3fff 3 3
chan @0 a grant work 0081 0081 3 3
end
";

/// `SIX_POINTS` with bounds where ways meet alone.
const TWO_POINTS: &str = "capcert 2
at main 0 off
fd 0 open grant work 3fff 3fff 3 3
fd 1 open grant log 3fff 3fff 3 3
at main 5 on
fd 0 open grant work 3fff 3fff 3 3
fd 1 open grant log 3fff 3fff 3 3
fd 2 maybe grant work 3fff 3fff 3 3
end
";

/// A point of a program, in version 2.
const ONE_POINT: &str = "capcert 2
at main 0 off
end
";

/// Two programs that share a pair, and the authority of one of them, in version 3.
const AN_AUTHORITY: &str = "capcert 3
at main 0 off
fd 0 open grant work 3fff 3fff 3 3
fd 1 open grant log 3fff 3fff 3 3
fd 2 open sock @0 a 3fff 3fff 3 3
at main 2 off
fd 0 open grant work 0081 3fff 3 3
fd 1 open grant log 3fff 3fff 3 3
fd 2 open sock @0 a 3fff 3fff 3 3
chan @0 a grant work 0081 0081 3 3
chan @0 b unknown 0000 3fff 0 3
auth child
ceil work 0081
hold @0 b
end
";

/// The same with further rights, in version 4.
const FURTHER_RIGHTS: &str = "capcert 4
at main 0 off
fd 0 open grant work 3fff 3fff 3 3 ffffffff ffffffff
fd 2 maybe sock @0 a 0000 3fff 0 3 00000000 ffffffff
chan @0 a grant work 0081 0081 3 3 00000010 00100010
chan @0 b none
auth child
ceil log 0000 00000010
ceil work 0081 00000000
hold @0 b
end
";

/// Where each line of the authority begins.
const ITS_LINE_STARTS: [usize; 15] = [
    0, 10, 24, 59, 93, 127, 141, 176, 210, 244, 279, 311, 322, 337, 347,
];

/// Whether the certificate is written as these bytes, to a writer that takes at most so many a call.
fn is_written_as(alloc: Global, cert: &Cert, bytes: &[u8], most: usize) -> bool {
    let mut out = empty_shelf(alloc, most, 0, true);
    write_cert(cert, &mut out).is_ok() && out.bytes.as_slice() == bytes
}

/// Whether the bytes are read, and written as they are, whether they are taken one, two or a thousand a call.
fn is_written_back(alloc: Global, bytes: &[u8]) -> bool {
    match read_cert(alloc, bytes) {
        Ok(cert) => {
            is_written_as(alloc, &cert, bytes, 1)
                && is_written_as(alloc, &cert, bytes, 2)
                && is_written_as(alloc, &cert, bytes, 1000)
        }
        Err(_) => false,
    }
}

#[test]
fn texts_are_written_back(rt: HostRuntime) {
    for text in [
        THREE_POINTS,
        SIX_POINTS,
        SENDS_ANYTHING,
        SENDS_NARROWED,
        TWO_POINTS,
        ONE_POINT,
        AN_AUTHORITY,
        FURTHER_RIGHTS,
    ] {
        assert!(rt; is_written_back(rt.alloc(), text.as_bytes()), "{text}");
    }
}

/// Whether a writer that takes a byte a call, and fails once it has taken these, is told of and has taken no more.
fn stops_behind(alloc: Global, cert: &Cert, taken: &[u8], refuses: bool) -> bool {
    let mut out = empty_shelf(alloc, 1, taken.len() as u64 + 1, refuses);
    write_cert(cert, &mut out) == Err(Stop::Device) && out.bytes.as_slice() == taken
}

/// The first place of the text at which a failed write isn't told as it should be.
fn untold_failure(alloc: Global, text: &[u8]) -> Result<Option<usize>, CertFault> {
    let cert = read_cert(alloc, text)?;
    for (place, _) in text.iter().enumerate() {
        let taken = &text[..place];
        if !stops_behind(alloc, &cert, taken, false) || !stops_behind(alloc, &cert, taken, true) {
            return Ok(Some(place));
        }
    }
    Ok(None)
}

#[test]
fn a_failed_write_is_told(rt: HostRuntime) -> Result<(), Fail> {
    for text in [SIX_POINTS, AN_AUTHORITY, FURTHER_RIGHTS] {
        let untold = untold_failure(rt.alloc(), text.as_bytes())?;
        assert!(rt; untold == None, "{untold:?}");
    }
    Ok(())
}

/// Where the line begins in which this place is, of lines that begin there.
fn line_start(starts: &[usize], place: usize) -> usize {
    let mut start = 0;
    for next in starts {
        if *next <= place {
            start = *next;
        }
    }
    start
}

/// The least length of a beginning of the text that doesn't have the fault of a line that isn't ended.
fn unfaulty_cut(alloc: Global, text: &[u8], starts: &[usize]) -> Option<usize> {
    for (length, _) in text.iter().enumerate() {
        let fault = read_cert(alloc, &text[..length]).err();
        if fault != Some(CertFault::Syntax(line_start(starts, length))) {
            return Some(length);
        }
    }
    None
}

#[test]
fn a_cut_text_is_faulty_where_its_last_line_begins(rt: HostRuntime) {
    let unfaulty = unfaulty_cut(rt.alloc(), THREE_POINTS.as_bytes(), &LINE_STARTS);
    assert!(rt; unfaulty == None, "{unfaulty:?}");
    let unfaulty = unfaulty_cut(rt.alloc(), AN_AUTHORITY.as_bytes(), &ITS_LINE_STARTS);
    assert!(rt; unfaulty == None, "{unfaulty:?}");
}

/// The text with another byte at a place.
fn with_byte(alloc: Global, text: &[u8], place: usize, byte: u8) -> Result<Vec<u8>, AllocError> {
    let mut bytes = Vec::from_slice(alloc, text)?;
    if let Some(at) = bytes.get_mut(place) {
        *at = byte;
    }
    Ok(bytes)
}

/// Whether the bytes are the text of the certificate that they are read as, or have a fault of their own.
fn is_one_spelling(alloc: Global, bytes: &[u8]) -> bool {
    match read_cert(alloc, bytes) {
        Ok(cert) => is_written_as(alloc, &cert, bytes, 1000),
        Err(fault) => fault != CertFault::Memory,
    }
}

#[test]
fn a_changed_byte_is_a_fault_or_another_certificate(rt: HostRuntime) -> Result<(), Fail> {
    for text in [THREE_POINTS, AN_AUTHORITY, FURTHER_RIGHTS] {
        for (place, _) in text.as_bytes().iter().enumerate() {
            for byte in 0..=255 {
                let bytes = with_byte(rt.alloc(), text.as_bytes(), place, byte)?;
                assert!(rt; is_one_spelling(rt.alloc(), &bytes), "{place} {byte}");
            }
        }
    }
    Ok(())
}

/// The block of point 1 of `THREE_POINTS`, which the call before it leads to, and what that call gives.
const CARRIED: (&str, &str) = (
    "at main 1 on
fd 0 open grant work 3fff 3fff 3 3
fd 1 open grant log 3fff 3fff 3 3
",
    "",
);

const GIVEN: (&str, &str) = ("at main 1 on\n", "at main 1 on\nr0 0 0\n");

#[test]
fn a_carried_bound_makes_a_text_shorter(rt: HostRuntime) -> Result<(), Fail> {
    for (change, size) in [(CARRIED, 179), (GIVEN, 268)] {
        match changed(rt.alloc(), THREE_POINTS, &[change])? {
            Some(text) => assert!(rt; text.len() == size),
            None => panic!(rt; "no such part"),
        }
    }
    assert!(rt; TWO_POINTS.len() == 215);
    Ok(())
}
