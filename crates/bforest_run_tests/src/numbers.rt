//! Tests of the numbers that words spell.

use bforest_run::number;

#[test]
fn numbers_have_ten_digits_at_most(rt: HostRuntime) {
    for (word, want) in [
        ("0", Some(0)),
        ("7", Some(7)),
        ("0000000005", Some(5)),
        ("00000000005", None),
        ("4294967295", Some(u32::MAX)),
        ("4294967296", None),
        ("9999999999", None),
        ("", None),
        ("+1", None),
        ("-1", None),
        ("1 ", None),
        ("a", None),
    ] {
        assert_eq!(rt; number(word), want, "at {word}");
    }
}
