// Numbers, and what is none, on examples.
use crate::text::number;

#[test]
fn numbers(rt: HostRuntime) {
    assert_eq!(rt; number(b"0"), Some(0));
    assert_eq!(rt; number(b"-102"), Some(-102));
    assert_eq!(rt; number(b"007"), Some(7));
    assert_eq!(rt;
        number(b"99999999999999999999"),
        Some(1_000_000_000_000_000_000)
    );
    assert_eq!(rt;
        number(b"-99999999999999999999"),
        Some(-1_000_000_000_000_000_000)
    );
}

#[test]
fn no_numbers(rt: HostRuntime) {
    assert_eq!(rt; number(b""), None);
    assert_eq!(rt; number(b"-"), None);
    assert_eq!(rt; number(b"--1"), None);
    assert_eq!(rt; number(b"+1"), None);
    assert_eq!(rt; number(b"1 "), None);
}
