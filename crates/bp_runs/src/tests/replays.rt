// `design` with a replay, the design of one tree by one hand, `made` and `trial`.
use super::searches::{SPENT, STAR, STRIP, WHOLE};
use super::{NONE, STAR as FOUR, STRIP_0, STRIP_4, STRIP_5, check, leave};
use bp_base::MemSink;
use bp_document::write_document;
use bp_engine::design_tree;
use bp_tree::read_tree;
use std::str;
use std::test::Fail;

#[test]
fn star_is_replayed(rt: HostRuntime) -> Result<(), Fail> {
    let rows = [
        ("design --replay 7 --workers 1", STAR, 0, WHOLE, ""),
        ("design --replay 7 --workers 3", STAR, 0, WHOLE, ""),
        ("design --workers 4 --replay 7", STAR, 0, WHOLE, ""),
        (
            "design --replay 4294967295 --workers 16",
            STAR,
            0,
            WHOLE,
            "",
        ),
        ("design --replay 7 --strip 4", STAR, 0, STRIP, ""),
        (
            "design --workers 1 --replay 7 --strip 4 --budget 200000",
            STAR,
            0,
            STRIP,
            "",
        ),
    ];
    check(&rt, rt.alloc(), &rows)
}

#[test]
fn strips_without_a_search(rt: HostRuntime) -> Result<(), Fail> {
    let three = "c p 1\nc q 1\nc r 1\n";
    let rows = [
        ("design --strip 0 --replay 7", FOUR, 0, STRIP_0, ""),
        (
            "design --strip 0 --replay 7 --workers 1",
            FOUR,
            0,
            STRIP_0,
            "",
        ),
        ("design --replay 7 --strip 4", three, 0, STRIP_4, ""),
        ("design --replay 7 --strip 5", STAR, 0, STRIP_5, ""),
    ];
    check(&rt, rt.alloc(), &rows)
}

#[test]
fn replay_is_given_up(rt: HostRuntime) -> Result<(), Fail> {
    let told = "gave up: side 5 bound 4\n";
    let rows = [
        (
            "design --replay 7 --workers 1 --budget 1",
            STAR,
            3,
            SPENT,
            told,
        ),
        (
            "design --replay 7 --workers 3 --budget 1",
            STAR,
            3,
            SPENT,
            told,
        ),
        ("design --replay 7 --budget 1", STAR, 3, SPENT, told),
        (
            "design --replay 7 --workers 16 --budget 1",
            STAR,
            3,
            SPENT,
            told,
        ),
    ];
    check(&rt, rt.alloc(), &rows)
}

#[test]
fn trees_made(rt: HostRuntime) -> Result<(), Fail> {
    let rows = [
        ("made 3 1", "", 0, "n0 n1 9\nn0 n2 8\nn0 n3 2\n", ""),
        ("made 2 1", "", 0, "n0 n1 9\nn0 n2 8\n", ""),
    ];
    check(&rt, rt.alloc(), &rows)
}

#[test]
fn trees_tried(rt: HostRuntime) -> Result<(), Fail> {
    let rows = [(
        "trial 3 1",
        "",
        0,
        "trial 3 1\nside 17 bound 17 examined 0\nsettled left 2 right 0 below 1 above 0\n",
        "",
    )];
    check(&rt, rt.alloc(), &rows)
}

#[test]
fn trial_twice(rt: HostRuntime) -> Result<(), Fail> {
    let alloc = rt.alloc();
    let first = leave(&rt, alloc, "trial 16 5", b"", b"", NONE)?;
    let second = leave(&rt, alloc, "trial 16 5", b"", b"", NONE)?;
    assert_eq!(rt; first.number, 0);
    assert_eq!(rt; first.out.as_slice(), second.out.as_slice());
    assert!(rt; str::from_utf8(&first.out)?.starts_with("trial 16 5\nside "));
    Ok(())
}

#[test]
fn trees_designed(rt: HostRuntime) -> Result<(), Fail> {
    let alloc = rt.alloc();
    for (budget, text) in [(50_000, WHOLE), (1, SPENT)] {
        let Ok(tree) = read_tree(alloc, STAR.as_bytes()) else {
            return Err(Fail::from("no tree"));
        };
        let document = design_tree(alloc, tree, budget)?;
        let mut sink = MemSink::new(alloc, 16_777_216, 4096, Vec::new(alloc))?;
        let written = write_document(&document, &mut sink);
        assert!(rt; written.is_ok());
        assert_eq!(rt; sink.bytes.as_slice(), text.as_bytes());
    }
    Ok(())
}
