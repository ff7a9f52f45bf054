// `revise`: a tree, and behind it an old document for a tree of its shape.
use super::searches::{SPENT, STAR, STRIP, WHOLE};
use super::{Faults, NONE, leave};
use std::alloc::Global;
use std::process::Abort;
use std::test::Fail;
use std::thread::Threads;

const REVISE: &str = "revise --tree f";

const ONE: &str = "revise --tree f --budget 1";

const TWO: &str =
    "boxpleat 2\nsheet square\nedges 2\nedge c p 3\nedge c q 4\nside 7\nbound 7\npoint p 0 0\npoint q 0 7\nfloor 7 7 1 2\nproof none\nend\n";

const TWO_LONGER: &str =
    "boxpleat 2\nsheet square\nedges 2\nedge c p 3\nedge c q 5\nside 8\nbound 8\npoint p 0 0\npoint q 0 8\nfloor 8 8 1 2\nproof none\nend\n";

// No bound above 5 is shown.
const BOLD: &str =
    "boxpleat 1\nedges 5\nedge c p 2\nedge c q 2\nedge c r 2\nedge c s 1\nedge c t 1\nside 5\nbound 6\npoint p 0 0\npoint q 0 4\npoint r 4 0\npoint s 3 3\npoint t 3 5\nfloor 2 4 1 2 3 4 5\nproof 2\n0 split 1 2\n1 open x 1 2\nend\n";

// Its points are those of an opening that is turned.
const TURNED: &str =
    "boxpleat 2\nsheet square\nedges 5\nedge c p 2\nedge c q 2\nedge c r 2\nedge c s 1\nedge c t 1\nside 5\nbound 4\npoint p 0 0\npoint q 4 0\npoint r 0 4\npoint s 3 3\npoint t 5 3\nfloor 2 4 1 2 3 4 5\nproof none\nend\n";

const SPENT_TWICE: &str =
    "boxpleat 2\nsheet square\nedges 5\nedge c p 2\nedge c q 2\nedge c r 2\nedge c s 1\nedge c t 1\nside 5\nbound 4\npoint p 0 0\npoint q 0 4\npoint r 4 0\npoint s 3 3\npoint t 3 5\nfloor 2 4 1 2 3 4 5\nproof 5\n0 split 1 2\n1 split 1 3\n2 open x 1 2\n2 open x 3 1 2\n2 open x 1 2\nend\n";

const TURNED_SPENT: &str =
    "boxpleat 2\nsheet square\nedges 5\nedge c p 2\nedge c q 2\nedge c r 2\nedge c s 1\nedge c t 1\nside 5\nbound 4\npoint p 0 0\npoint q 4 0\npoint r 0 4\npoint s 3 3\npoint t 5 3\nfloor 2 4 1 2 3 4 5\nproof 2\n0 split 1 2\n1 open x 1 2\nend\n";

const TURNED_SHORTER: &str =
    "boxpleat 2\nsheet square\nedges 5\nedge c p 2\nedge c q 1\nedge c r 2\nedge c s 1\nedge c t 1\nside 5\nbound 4\npoint p 0 0\npoint q 4 0\npoint r 0 4\npoint s 3 3\npoint t 5 3\nfloor 2 4 1 2 3 4 5\nproof 4\n0 split 1 3\n1 open x 1 3\n1 open x 3 1\n1 open y 1 3\nend\n";

const SHORTER: &str = "c p 2\nc q 1\nc r 2\nc s 1\nc t 1\n";

const RENAMED: &str = "c p 2\nc q 2\nc r 2\nc s 1\nc u 1\n";

// Words, tree and document, the status's number, what is written and what is told. A design that is written is answered by yes.
fn judge<R: Abort + Threads + Sync>(
    rt: &R,
    alloc: Global,
    rows: &[(&str, &str, &str, u8, &str, &str)],
) -> Result<(), Fail> {
    for (words, tree, document, number, out, err) in rows {
        let bytes = tree.as_bytes();
        let left = leave(rt, alloc, words, bytes, document.as_bytes(), NONE)?;
        assert_eq!(rt; left.number, *number, "{words}, {tree}");
        assert_eq!(rt; left.out.as_slice(), out.as_bytes(), "{words}, {tree}");
        assert_eq!(rt; left.err.as_slice(), err.as_bytes(), "{words}, {tree}");
        if out.starts_with("boxpleat") {
            let checked = leave(rt, alloc, "check --tree f", bytes, &left.out, NONE)?;
            assert!(rt; checked.out.starts_with(b"yes side "), "{words}, {tree}");
        }
    }
    Ok(())
}

#[test]
fn revisions(rt: HostRuntime) -> Result<(), Fail> {
    let told = "gave up: side 5 bound 4\n";
    let other = "shape differs\n";
    let rows = [
        (REVISE, "c p 3\nc q 5\n", TWO, 0, TWO_LONGER, ""),
        ("revise --budget 1 --tree f", STAR, WHOLE, 0, WHOLE, ""),
        (ONE, STAR, STRIP, 0, STRIP, ""),
        (ONE, STAR, SPENT, 3, SPENT_TWICE, told),
        (ONE, STAR, TURNED, 3, TURNED_SPENT, told),
        (ONE, SHORTER, TURNED, 3, TURNED_SHORTER, told),
        (REVISE, "c p 1\nc q 1\n", WHOLE, 10, "", other),
        (REVISE, RENAMED, WHOLE, 10, "", other),
        (REVISE, STAR, BOLD, 7, "no BoundNotShown\n", ""),
        (REVISE, RENAMED, BOLD, 7, "no BoundNotShown\n", ""),
        (REVISE, "c p 0\n", "x", 1, "", "tree: line 1: BadLength\n"),
        (REVISE, STAR, "x\n", 1, "", "document: line 1: BadForm\n"),
    ];
    judge(&rt, rt.alloc(), &rows)
}

// A refused tree leaves the document unread, a failing one too; a failing source or sink ends the run.
#[test]
fn faults_of_revisions(rt: HostRuntime) -> Result<(), Fail> {
    let alloc = rt.alloc();
    let first = Faults { doc: 1, ..NONE };
    let rows = [
        ("c p 0\n", first, 1, ""),
        (STAR, Faults { read: 1, ..first }, 4, ""),
        (STAR, first, 4, ""),
        (STAR, Faults { doc: 9, ..NONE }, 4, ""),
        (STAR, Faults { write: 2, ..NONE }, 5, "boxpleat 2\nsheet"),
    ];
    for (tree, faults, number, out) in rows {
        let bytes = tree.as_bytes();
        let left = leave(&rt, alloc, REVISE, bytes, WHOLE.as_bytes(), faults)?;
        assert_eq!(rt; left.number, number, "{tree}, {number}");
        assert_eq!(rt; left.out.as_slice(), out.as_bytes(), "{tree}, {number}");
    }
    Ok(())
}
