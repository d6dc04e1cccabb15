//! What contracts don't say: lines as they lie in inputs.
use crate::first_line;
use std::test::Fail;

#[test]
fn a_line_ends_with_a_line_feed_or_the_input(rt: HostRuntime) {
    let table: [(&[u8], Option<(&[u8], &[u8])>); 7] = [
        (b"", None),
        (b"\n", Some((b"", b""))),
        (b"a", Some((b"a", b""))),
        (b"a\n", Some((b"a", b""))),
        (b"a\nb", Some((b"a", b"b"))),
        (b"\n\nb\n", Some((b"", b"\nb\n"))),
        (b"a\r\n\n", Some((b"a\r", b"\n"))),
    ];
    for (input, parts) in table {
        assert_eq!(rt; first_line(input), parts);
    }
}
