// What a line says, on examples.
use crate::said::call_in;
use format::blanks::trimmed;

#[test]
fn malformed_lines(rt: HostRuntime) {
    assert!(rt; matches!(call_in(b"interval,1,1,10000,40"), Ok(Some(_))));
    assert!(rt; call_in(b"interval,1,1,10000").is_err());
    assert!(rt; call_in(b"interval,1,1,10000,40,").is_err());
    assert!(rt; call_in(b"intervals,1,1,10000,40").is_err());
    assert!(rt; call_in(b"house").is_err());
    assert!(rt; call_in(b"house,1,4,5,6").is_err());
}

#[test]
fn blanks_around_a_line(rt: HostRuntime) {
    assert_eq!(rt; trimmed(b" \t house,1 \r").len(), 7);
    assert_eq!(rt; trimmed(b" \t\r").len(), 0);
}
