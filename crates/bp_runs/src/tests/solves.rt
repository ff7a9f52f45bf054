// `solve`: certificates with and without lemmas.
use super::searches::{BEETLE, STAR};
use super::{Faults, NONE, check, leave};
use bp_base::MemSink;
use bp_made::made_tree;
use bp_tree::write_tree;
use std::alloc::Global;
use std::process::Abort;
use std::str;
use std::test::Fail;
use std::thread::Threads;

const FOUR: &str = "c p 1\nc q 1\nc r 1\nc s 1\n";

const MET: &str =
    "boxpleat 3\nsheet square\nmirror none\nedges 4\nedge c p 1\nedge c q 1\nedge c r 1\nedge c s 1\nside 2\nbound 2\npoint p 0 0\npoint q 0 2\npoint r 2 0\npoint s 2 2\nfloor 2 2 1 2 3 4\nlemmas none\nend\n";

const FLAPS: &str = "c p 3\nc q 4\n";

const TWO: &str =
    "boxpleat 3\nsheet square\nmirror none\nedges 2\nedge c p 3\nedge c q 4\nside 7\nbound 7\npoint p 0 0\npoint q 0 7\nfloor 7 7 1 2\nlemmas none\nend\n";

#[test]
fn solves_without_a_search(rt: HostRuntime) -> Result<(), Fail> {
    let rows = [
        ("solve", FOUR, 0, MET, ""),
        ("solve --budget 1", FOUR, 0, MET, ""),
        ("solve", FLAPS, 0, TWO, ""),
        ("solve --mirror book", FOUR, 8, "", "not built\n"),
    ];
    check(&rt, rt.alloc(), &rows)
}

// The run ends with this number, and its certificate has all these parts; a second run gives the same bytes.
fn writes<R: Abort + Threads + Sync>(
    rt: &R,
    alloc: Global,
    line: &str,
    tree: &str,
    number: u8,
    parts: &[&str],
) -> Result<(), Fail> {
    let left = leave(rt, alloc, line, tree.as_bytes(), b"", NONE)?;
    let again = leave(rt, alloc, line, tree.as_bytes(), b"", NONE)?;
    assert_eq!(rt; left.number, number, "{line}");
    assert!(rt; left.out == again.out, "{line}");
    let text = str::from_utf8(&left.out)?;
    assert!(rt;
        text.starts_with("boxpleat 3\n") && text.ends_with("\nend\n"),
        "{line}"
    );
    for part in parts {
        assert!(rt; text.contains(*part), "{line}: {part}");
    }
    Ok(())
}

#[test]
fn figures_are_solved(rt: HostRuntime) -> Result<(), Fail> {
    let alloc = rt.alloc();
    let star = [
        "\nside 5\nbound 5\n",
        "\nmirror none\n",
        "\nlemmas ",
        "\nswaps 2\nswap 1 2\nswap 2 3\n",
    ];
    writes(&rt, alloc, "solve", STAR, 0, &star)?;
    let floor = "\nfloor 12 24 1 4 5 6 7 8 9\n";
    let beetle = ["\nside 25\nbound 25\n", floor, "\nlemmas "];
    writes(&rt, alloc, "solve", BEETLE, 0, &beetle)?;
    let given_up = ["\nbound 24\n", floor, "\nlemmas none\n"];
    writes(&rt, alloc, "solve --budget 1", BEETLE, 3, &given_up)
}

// The least heights of strips for the star, found by trying all placements, from width 0 on.
const HEIGHTS: [u64; 8] = [12, 12, 10, 8, 5, 4, 4, 4];

// `solve` and `design` end alike on a strip, and find this height.
fn is_height<R: Abort + Threads + Sync>(
    rt: &R,
    alloc: Global,
    width: u64,
    height: u64,
) -> Result<(), Fail> {
    let sheet = format!(in alloc; "\nsheet strip {width}\n")?;
    let sides = format!(in alloc; "\nside {height}\nbound {height}\n")?;
    let solve = format!(in alloc; "solve --strip {width}")?;
    writes(rt, alloc, &solve, STAR, 0, &[&sheet, &sides])?;
    let design = format!(in alloc; "design --budget 200000 --strip {width}")?;
    let left = leave(rt, alloc, &design, STAR.as_bytes(), b"", NONE)?;
    assert_eq!(rt; left.number, 0, "{design}");
    assert!(rt;
        str::from_utf8(&left.out)?.contains(sides.as_str()),
        "{design}"
    );
    Ok(())
}

#[test]
fn strips_are_solved(rt: HostRuntime) -> Result<(), Fail> {
    let alloc = rt.alloc();
    let mut width = 0;
    for height in HEIGHTS {
        is_height(&rt, alloc, width, height)?;
        width = width.saturating_add(1);
    }
    let line = "\nsheet strip 0\nmirror none\n";
    let none = "\nlemmas none\n";
    writes(
        &rt,
        alloc,
        "solve --strip 0",
        FOUR,
        0,
        &[line, "\nside 6\nbound 6\n", none],
    )
}

#[test]
fn made_trees_are_solved(rt: HostRuntime) -> Result<(), Fail> {
    let alloc = rt.alloc();
    for leaves in 3..15 {
        let tree = made_tree(alloc, leaves, leaves)?;
        let mut sink = MemSink::new(alloc, 4096, 4096, Vec::new(alloc))?;
        assert!(rt; write_tree(&tree, &mut sink).is_ok());
        let left = leave(&rt, alloc, "solve", &sink.bytes, b"", NONE)?;
        assert_eq!(rt; left.number, 0, "{leaves}");
    }
    Ok(())
}

// Where nothing is searched the drawing is that of `design`.
#[test]
fn solved_are_drawn(rt: HostRuntime) -> Result<(), Fail> {
    let alloc = rt.alloc();
    let (solve, design) = ("solve --fold file", "design --fold file");
    for tree in [FOUR, FLAPS] {
        let left = leave(&rt, alloc, solve, tree.as_bytes(), b"", NONE)?;
        let other = leave(&rt, alloc, design, tree.as_bytes(), b"", NONE)?;
        assert_eq!(rt; left.number, 0, "{tree}");
        assert!(rt; left.fold == other.fold, "{tree}");
    }
    let star = leave(&rt, alloc, solve, STAR.as_bytes(), b"", NONE)?;
    assert!(rt; star.fold.starts_with(b"{\"file_spec\":1.1,"));
    let write = Faults { write: 3, ..NONE };
    let written = leave(&rt, alloc, solve, FOUR.as_bytes(), b"", write)?;
    assert_eq!(rt; written.number, 5);
    assert!(rt; MET.as_bytes().get(..32) == Some(written.out.as_slice()));
    assert!(rt; written.fold.is_empty());
    let draw = Faults { draw: 1, ..NONE };
    let undrawn = leave(&rt, alloc, solve, FOUR.as_bytes(), b"", draw)?;
    assert_eq!(rt; undrawn.number, 5);
    assert_eq!(rt; undrawn.out.as_slice(), MET.as_bytes());
    assert!(rt; undrawn.fold.is_empty());
    Ok(())
}
