// `check`: a tree, and behind it a document.
use super::searches::{BEETLE, STAR, STRIP as SEARCHED, WHOLE};
use super::{Faults, NONE, leave};
use std::alloc::Global;
use std::process::Abort;
use std::test::Fail;
use std::thread::Threads;

const CHECK: &str = "check --tree f";

const FIRST: &str =
    "boxpleat 1\nedges 5\nedge c p 2\nedge c q 2\nedge c r 2\nedge c s 1\nedge c t 1\nside 5\nbound 4\npoint p 0 0\npoint q 0 4\npoint r 4 0\npoint s 3 3\npoint t 3 5\nfloor 2 4 1 2 3 4 5\nproof 2\n0 split 1 2\n1 open x 1 2\nend\n";

const STRIP: &str =
    "boxpleat 2\nsheet strip 4\nedges 5\nedge c p 2\nedge c q 2\nedge c r 2\nedge c s 1\nedge c t 1\nside 5\nbound 4\npoint p 0 0\npoint q 4 0\npoint r 0 4\npoint s 3 3\npoint t 3 5\nfloor 4 4 1 2 3\nproof 3\n0 split 1 2\n1 walk x 1 2\n1 walk y 1 2\nend\n";

// Other text in place of a text that is found.
fn with(alloc: Global, text: &str, old: &str, new: &str) -> Result<String, Fail> {
    let text = text.replace(alloc, old, new)?;
    Ok(text)
}

pub fn judge<R: Abort + Threads + Sync>(
    rt: &R,
    alloc: Global,
    words: &str,
    document: &str,
    rows: &[(&str, &str, &str, u8, &str, &str)],
) -> Result<(), Fail> {
    for (tree, old, new, number, out, err) in rows {
        let text = with(alloc, document, old, new)?;
        let left = leave(rt, alloc, words, tree.as_bytes(), text.as_bytes(), NONE)?;
        assert_eq!(rt; left.number, *number, "{tree}, {text}");
        assert_eq!(rt; left.out.as_slice(), out.as_bytes(), "{tree}, {text}");
        assert_eq!(rt; left.err.as_slice(), err.as_bytes(), "{tree}, {text}");
    }
    Ok(())
}

#[test]
fn one_change(rt: HostRuntime) -> Result<(), Fail> {
    let rows = [
        (STAR, "", "", 0, "yes side 5 bound 4\n", ""),
        (
            STAR,
            "side 5",
            "side 999999999",
            0,
            "yes side 999999999 bound 4\n",
            "",
        ),
        (STAR, "bound 4", "bound 5", 7, "no BoundNotShown\n", ""),
        (STAR, "t 3 5", "t 3 4", 7, "no TooNear 4 5\n", ""),
        (STAR, "t 3 5", "t 3 6", 7, "no Outside 5\n", ""),
        (STAR, "floor 2 4", "floor 2 5", 7, "no BadFloor\n", ""),
        (STAR, "split 1 2", "split 2 1", 7, "no BadSplit 0\n", ""),
        (STAR, "x 1 2", "x 2 1", 7, "no BadChain 1\n", ""),
        (STAR, "x 1 2", "x 1 17", 7, "no BadChain 1\n", ""),
        ("c p 1\nc q 1\n", "", "", 7, "no TreeDiffers\n", ""),
        ("c p 0\nc q 1\n", "", "", 1, "", "tree: line 1: BadLength\n"),
        (
            "",
            "boxpleat 1",
            "boxpleat 3",
            1,
            "",
            "tree: line 0: Empty\n",
        ),
        (
            STAR,
            "boxpleat 1",
            "boxpleat 3",
            1,
            "",
            "document: line 1: BadForm\n",
        ),
        (STAR, "c p 2", "c p 0", 1, "", "document: line 3: BadTree\n"),
        (
            STAR,
            "side 5",
            "side 1000000000",
            1,
            "",
            "document: line 8: BadForm\n",
        ),
        (
            STAR,
            "proof 2",
            "proof 0",
            1,
            "",
            "document: line 16: BadForm\n",
        ),
        (
            STAR,
            "0 split",
            "1 split",
            1,
            "",
            "document: line 17: BadDepth\n",
        ),
        (
            STAR,
            "1 open",
            "2 open",
            1,
            "",
            "document: line 18: BadDepth\n",
        ),
        (
            STAR,
            "proof 2",
            "proof 1",
            1,
            "",
            "document: line 18: BadForm\n",
        ),
        (
            STAR,
            "proof 2",
            "proof 3",
            1,
            "",
            "document: line 19: BadForm\n",
        ),
        (
            STAR,
            "end\n",
            "end\nx",
            1,
            "",
            "document: line 20: Trailing\n",
        ),
        (STAR, "end\n", "end", 1, "", "document: line 19: Cut\n"),
    ];
    judge(&rt, rt.alloc(), CHECK, FIRST, &rows)
}

#[test]
fn strips(rt: HostRuntime) -> Result<(), Fail> {
    let rows = [
        (STAR, "", "", 0, "yes side 5 bound 4\n", ""),
        (STAR, "strip 4", "square", 7, "no BadSplit 0\n", ""),
        (
            STAR,
            "boxpleat 2\nsheet strip 4",
            "boxpleat 1",
            7,
            "no BadSplit 0\n",
            "",
        ),
        (
            STAR,
            "strip 4",
            "strip 04",
            1,
            "",
            "document: line 2: BadForm\n",
        ),
    ];
    judge(&rt, rt.alloc(), CHECK, STRIP, &rows)?;
    let rows = [
        (STAR, "", "", 0, "yes side 5 bound 5\n", ""),
        (
            STAR,
            "sheet strip 4",
            "sheet square",
            7,
            "no BadSplit 0\n",
            "",
        ),
        (
            STAR,
            "boxpleat 2\nsheet strip 4",
            "boxpleat 1",
            7,
            "no BadSplit 0\n",
            "",
        ),
    ];
    judge(&rt, rt.alloc(), CHECK, SEARCHED, &rows)
}

#[test]
fn whole_search(rt: HostRuntime) -> Result<(), Fail> {
    let first = with(rt.alloc(), WHOLE, "boxpleat 2\nsheet square", "boxpleat 1")?;
    let five = "c p 1\nc q 1\nc r 1\nc s 1\nc t 1\n";
    let rows = [
        (STAR, "", "", 0, "yes side 5 bound 5\n", ""),
        (STAR, "bound 5", "bound 6", 7, "no BoundNotShown\n", ""),
        (five, "", "", 7, "no TreeDiffers\n", ""),
        (STAR, "t 3 5", "t 3 4", 7, "no TooNear 4 5\n", ""),
        (STAR, "t 3 5", "t 3 6", 7, "no Outside 5\n", ""),
        (STAR, "floor 2 4", "floor 2 5", 7, "no BadFloor\n", ""),
    ];
    judge(&rt, rt.alloc(), CHECK, &first, &rows)
}

// What `design` writes is answered by yes.
#[test]
fn written_documents(rt: HostRuntime) -> Result<(), Fail> {
    let alloc = rt.alloc();
    let twigs = "r a 2\nr b 2\na a1 1\na a2 1\nb b1 1\nb b2 1\n";
    let rows = [
        ("design", "c p 1\nc q 1\nc r 1\nc s 1\n"),
        ("design", "c p 3\nc q 4\n"),
        ("design", "c p 1\nc q 1\nc r 1\nc s 1\nc t 1\n"),
        ("design", STAR),
        ("design --budget 1", STAR),
        ("design", twigs),
        ("design --budget 5000", BEETLE),
        ("design --strip 0", "c p 1\nc q 1\nc r 1\nc s 1\n"),
        ("design --strip 4", "c p 1\nc q 1\nc r 1\n"),
        ("design --strip 5", STAR),
        ("design --strip 4 --budget 200000", STAR),
        ("design --strip 4 --budget 7 --workers 4", STAR),
    ];
    for (line, tree) in rows {
        let design = leave(&rt, alloc, line, tree.as_bytes(), b"", NONE)?;
        let left = leave(&rt, alloc, CHECK, tree.as_bytes(), &design.out, NONE)?;
        assert_eq!(rt; left.number, 0, "{line}, {tree}");
        assert!(rt; left.out.starts_with(b"yes side "), "{line}, {tree}");
    }
    Ok(())
}

// Each call of either source fails, until none is left to fail; how many there are.
pub fn failing<R: Abort + Threads + Sync>(
    rt: &R,
    alloc: Global,
    words: &str,
    tree: &str,
    document: &str,
    faults: &[Faults],
) -> Result<u64, Fail> {
    let mut count = 0u64;
    for fault in faults {
        let left = leave(
            rt,
            alloc,
            words,
            tree.as_bytes(),
            document.as_bytes(),
            *fault,
        )?;
        if left.number == 4 {
            assert_eq!(rt; left.out.len(), 0);
            assert_eq!(rt; left.err.as_slice(), b"read fault\n".as_slice());
            count = count.saturating_add(1);
        }
    }
    Ok(count)
}

// The tree is read in one call, and the document, seven bytes a call, in 30; each has one more for its end.
#[test]
fn faults_at_each_call(rt: HostRuntime) -> Result<(), Fail> {
    let alloc = rt.alloc();
    let mut trees = Vec::new(alloc);
    let mut documents = Vec::new(alloc);
    for call in 1..60 {
        trees.push(Faults { read: call, ..NONE })?;
        documents.push(Faults { doc: call, ..NONE })?;
    }
    assert_eq!(rt; failing(&rt, alloc, CHECK, STAR, FIRST, &trees)?, 2);
    let calls = FIRST.len() as u64 / 7 + 2;
    assert_eq!(rt; failing(&rt, alloc, CHECK, STAR, FIRST, &documents)?, calls);
    Ok(())
}

// A refused tree leaves the document unread, a failing one too; a failing sink is a fault of its own.
#[test]
fn order(rt: HostRuntime) -> Result<(), Fail> {
    let alloc = rt.alloc();
    let first = Faults { doc: 1, ..NONE };
    let left = leave(&rt, alloc, CHECK, b"c p 0\n", FIRST.as_bytes(), first)?;
    assert_eq!(rt; left.number, 1);
    let write = Faults { write: 1, ..NONE };
    let left = leave(&rt, alloc, CHECK, STAR.as_bytes(), FIRST.as_bytes(), write)?;
    assert_eq!(rt; left.number, 5);
    assert_eq!(rt; left.out.len(), 0);
    Ok(())
}

// Cuts the text after each byte but the last, and answers in how many lines it was cut.
pub fn cut<R: Abort + Threads + Sync>(
    rt: &R,
    alloc: Global,
    words: &str,
    tree: &str,
    bytes: &[u8],
) -> Result<u64, Fail> {
    let mut line = 1u64;
    for at in 0..bytes.len() {
        if at > 0 && bytes[at - 1] == b'\n' {
            line = line.saturating_add(1);
        }
        let text = &bytes[..at];
        let left = leave(rt, alloc, words, tree.as_bytes(), text, NONE)?;
        let err = format!(in alloc; "document: line {line}: Cut\n")?;
        assert_eq!(rt; left.number, 1);
        assert_eq!(rt; left.out.len(), 0);
        assert_eq!(rt; left.err.as_slice(), err.as_str().as_bytes());
    }
    Ok(line)
}

#[test]
fn cut_at_each_byte(rt: HostRuntime) -> Result<(), Fail> {
    let lines = cut(&rt, rt.alloc(), CHECK, STAR, FIRST.as_bytes())?;
    assert_eq!(rt; lines, 19);
    Ok(())
}
