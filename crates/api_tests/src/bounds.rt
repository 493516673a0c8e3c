//! Bounds and their order.

use certificate::{Domain, Interval, ModeBound};
use texts::Name;

#[test]
fn names_are_words(rt: HostRuntime) {
    let name = Name::new(b"sixteen_letters_");
    assert!(rt; name.as_bytes() == b"sixteen_letters_".as_slice());
    assert!(rt; Name::read(b"").is_none());
    assert!(rt; Name::read(b"seventeen_letters").is_none());
    assert!(rt; Name::read(b"Work").is_none());
}

#[test]
fn modes_and_intervals(rt: HostRuntime) {
    assert!(rt; ModeBound::On.within(&ModeBound::Either));
    assert!(rt; !ModeBound::Either.within(&ModeBound::On));
    let byte = Interval::new(0, 255);
    assert!(rt; byte.within(&Interval::FULL));
    assert!(rt; !Interval::FULL.within(&byte));
}
