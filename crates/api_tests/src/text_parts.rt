//! Parts, lines, numbers and names of texts.

use std::cmp::Ordering;
use texts::{Lines, NumberFault, compare_numbers, first_part, is_name, is_number, number_up_to};

#[test]
fn parts_texts_and_knows_names(rt: HostRuntime) {
    assert!(rt; first_part(b"work/in", b'/') == (b"work".as_slice(), Some(b"in".as_slice())));
    assert!(rt; first_part(b"work", b'/') == (b"work".as_slice(), None));
    assert!(rt; is_name(b"main_2"));
    assert!(rt; !is_name(b"2main"));
    assert!(rt; !is_name(b""));
}

#[test]
fn tells_where_lines_begin(rt: HostRuntime) {
    let expected: [(&[u8], usize, bool); 4] = [
        (b"one", 0, true),
        (b"", 4, true),
        (b"two", 5, true),
        (b"", 9, false),
    ];
    for (line, (text, offset, is_ended)) in Lines::new(b"one\n\ntwo\n").zip(expected) {
        assert!(rt; line.text == text && line.offset == offset && line.is_ended == is_ended);
    }
    assert!(rt; Lines::new(b"one\n\ntwo\n").count() == 4);
    assert!(rt; Lines::new(b"").count() == 1);
}

#[test]
fn reads_and_compares_numbers(rt: HostRuntime) {
    assert!(rt; number_up_to(b"0", 0) == Ok(0));
    assert!(rt; number_up_to(b"4294967295", u32::MAX) == Ok(4_294_967_295));
    assert!(rt; number_up_to(b"4294967296", u32::MAX) == Err(NumberFault::Limit));
    assert!(rt; number_up_to(b"99999999999999999999999", u32::MAX) == Err(NumberFault::Limit));
    for word in [
        b"".as_slice(),
        b"00",
        b"01",
        b"+1",
        b"-1",
        b"1 ",
        b"99999999999999999999999x",
    ] {
        assert!(rt; !is_number(word));
        assert!(rt; number_up_to(word, 7) == Err(NumberFault::Form));
        assert!(rt; compare_numbers(word, b"1") == None);
        assert!(rt; compare_numbers(b"1", word) == None);
    }
    assert!(rt; compare_numbers(b"9", b"10") == Some(Ordering::Less));
    assert!(rt; compare_numbers(b"5", b"4") == Some(Ordering::Greater));
    assert!(rt; compare_numbers(b"0", b"0") == Some(Ordering::Equal));
    assert!(rt;
        compare_numbers(b"99999999999999999999999", b"99999999999999999999998")
            == Some(Ordering::Greater)
    );
}
