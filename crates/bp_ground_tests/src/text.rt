use bp_base::{Failed, Line, MemSink};
use bp_text::{line, long_number, number, put, put_number, put_parts};
use std::test::Fail;

// A line as its places, and whether it ended.
fn places(read: Option<Line>) -> Option<(u64, u64, u64, bool)> {
    match read {
        Some(line) => Some((line.from, line.to, line.next, line.ended)),
        None => None,
    }
}

#[test]
fn lines_end_with_lf_or_with_the_bytes(rt: HostRuntime) {
    let bytes = b"ab\n\nc";
    let rows = [
        (0, Some((0, 2, 3, true))),
        (1, Some((1, 2, 3, true))),
        (2, Some((2, 2, 3, true))),
        (3, Some((3, 3, 4, true))),
        (4, Some((4, 5, 5, false))),
        (5, None),
    ];
    for (at, want) in rows {
        assert_eq!(rt; places(line(bytes, at)), want, "at {at}");
    }
    assert_eq!(rt; places(line(b"", 0)), None);
}

#[test]
fn numbers_are_canonical_decimal(rt: HostRuntime) {
    let rows = [
        ("0", Some(0), Some(0)),
        ("7", Some(7), Some(7)),
        ("10", Some(10), Some(10)),
        ("999999999", Some(999_999_999), Some(999_999_999)),
        ("4294967295", None, Some(4_294_967_295)),
        ("9999999999", None, Some(9_999_999_999)),
        ("10000000000", None, None),
        ("", None, None),
        ("00", None, None),
        ("01", None, None),
        ("+1", None, None),
        ("1 ", None, None),
        ("1a", None, None),
    ];
    for (text, short, long) in rows {
        assert_eq!(rt; number(text.as_bytes()), short, "{text}");
        assert_eq!(rt; long_number(text.as_bytes()), long, "{text}");
    }
}

#[test]
fn all_is_written_or_a_front(rt: HostRuntime) -> Result<(), Fail> {
    let alloc = rt.alloc();
    let mut sink = MemSink::new(alloc, 40, 2, Vec::new(alloc))?;
    assert_eq!(rt; put(&mut sink, b"edge"), Ok(()));
    assert_eq!(rt; put_number(&mut sink, 18_446_744_073_709_551_615), Ok(()));
    assert_eq!(rt; put_parts(&mut sink, &[b" ", b"", b"and ", b"0\n"]), Ok(()));
    assert_eq!(rt;
        sink.bytes.as_slice(),
        b"edge18446744073709551615 and 0\n".as_slice()
    );
    let mut full = MemSink::new(alloc, 40, 2, vec![in alloc; 3]?)?;
    assert_eq!(rt; put_parts(&mut full, &[b"abc", b"def"]), Err(Failed));
    assert_eq!(rt; full.bytes.as_slice(), b"abc".as_slice());
    assert_eq!(rt; full.faults, 1);
    Ok(())
}
