mod certificates;
mod certified;
mod checks;
mod documents;
mod drawings;
mod pictures;
mod replays;
mod revisions;
mod searches;
mod solves;
mod steady;

use bp_base::{Gate, MemSink, MemSource, OpenGate};
use bp_engine::run;
use std::alloc::Global;
use std::process::Abort;
use std::str;
use std::test::Fail;
use std::thread::Threads;

// What a run leaves: its status's number, and what it wrote on `out`, `fold` and `err`.
#[derive(Drop)]
struct Left {
    number: u8,
    out: Vec<u8>,
    fold: Vec<u8>,
    err: Vec<u8>,
}

// Which calls of the sources, of `out`, of `fold` and of `err` fail.
#[derive(Clone, Copy)]
struct Faults {
    read: u64,
    doc: u64,
    write: u64,
    draw: u64,
    tell: u64,
}

const NONE: Faults = Faults {
    read: 0,
    doc: 0,
    write: 0,
    draw: 0,
    tell: 0,
};

fn leave<R: Threads + Sync>(
    rt: &R,
    alloc: Global,
    line: &str,
    tree: &[u8],
    doc: &[u8],
    faults: Faults,
) -> Result<Left, Fail> {
    leave_by(rt, alloc, line, tree, doc, faults, &OpenGate)
}

// The same with a gate that each turn of a worker passes.
fn leave_by<R: Threads + Sync, G: Gate + Sync>(
    rt: &R,
    alloc: Global,
    line: &str,
    tree: &[u8],
    doc: &[u8],
    faults: Faults,
    gate: &G,
) -> Result<Left, Fail> {
    let mut words = Vec::new(alloc);
    for word in line.split(' ') {
        if !word.is_empty() {
            words.push(String::from_str(alloc, word)?)?;
        }
    }
    let mut source = MemSource {
        bytes: tree.to_vec(alloc)?,
        at: 0,
        most: 4096,
        calls: 0,
        fails: vec![in alloc; faults.read]?,
        faults: 0,
    };
    let mut document = MemSource {
        bytes: doc.to_vec(alloc)?,
        at: 0,
        most: 7,
        calls: 0,
        fails: vec![in alloc; faults.doc]?,
        faults: 0,
    };
    let mut out = MemSink::new(alloc, 16_777_216, 16, vec![in alloc; faults.write]?)?;
    let mut fold = MemSink::new(alloc, 8192, 16, vec![in alloc; faults.draw]?)?;
    let mut err = MemSink::new(alloc, 256, 16, vec![in alloc; faults.tell]?)?;
    let status = run(
        rt,
        alloc,
        &words,
        &mut source,
        &mut document,
        &mut out,
        &mut fold,
        &mut err,
        gate,
    );
    Ok(Left {
        number: status.number(),
        out: out.bytes,
        fold: fold.bytes,
        err: err.bytes,
    })
}

fn check<R: Abort + Threads + Sync>(
    rt: &R,
    alloc: Global,
    rows: &[(&str, &str, u8, &str, &str)],
) -> Result<(), Fail> {
    for (line, tree, number, out, err) in rows {
        let left = leave(rt, alloc, line, tree.as_bytes(), b"", NONE)?;
        assert_eq!(rt; left.number, *number, "{line}, {tree}");
        assert_eq!(rt; left.out.as_slice(), out.as_bytes(), "{line}, {tree}");
        assert_eq!(rt; left.err.as_slice(), err.as_bytes(), "{line}, {tree}");
    }
    Ok(())
}

const STRIP_0: &str =
    "boxpleat 2\nsheet strip 0\nedges 4\nedge c p 1\nedge c q 1\nedge c r 1\nedge c s 1\nside 6\nbound 6\npoint p 0 0\npoint q 0 2\npoint r 0 4\npoint s 0 6\nfloor 2 6 1 2 3 4\nproof none\nend\n";

const STRIP_4: &str =
    "boxpleat 2\nsheet strip 4\nedges 3\nedge c p 1\nedge c q 1\nedge c r 1\nside 0\nbound 0\npoint p 0 0\npoint q 2 0\npoint r 4 0\nfloor 2 0 1 2 3\nproof none\nend\n";

const STRIP_5: &str =
    "boxpleat 2\nsheet strip 5\nedges 5\nedge c p 2\nedge c q 2\nedge c r 2\nedge c s 1\nedge c t 1\nside 4\nbound 4\npoint p 0 0\npoint q 4 0\npoint r 0 4\npoint s 3 3\npoint t 5 3\nfloor 4 4 1 2 3\nproof none\nend\n";

#[test]
fn designs_without_a_search(rt: HostRuntime) -> Result<(), Fail> {
    let rows = [
        (
            "design",
            "c p 1\nc q 1\nc r 1\nc s 1\n",
            0,
            "boxpleat 2\nsheet square\nedges 4\nedge c p 1\nedge c q 1\nedge c r 1\nedge c s 1\nside 2\nbound 2\npoint p 0 0\npoint q 0 2\npoint r 2 0\npoint s 2 2\nfloor 2 2 1 2 3 4\nproof none\nend\n",
            "",
        ),
        (
            "design --workers 16 --budget 1",
            "c p 1\nc q 1\nc r 1\nc s 1\n",
            0,
            "boxpleat 2\nsheet square\nedges 4\nedge c p 1\nedge c q 1\nedge c r 1\nedge c s 1\nside 2\nbound 2\npoint p 0 0\npoint q 0 2\npoint r 2 0\npoint s 2 2\nfloor 2 2 1 2 3 4\nproof none\nend\n",
            "",
        ),
        (
            "design",
            "c p 3\nc q 4\n",
            0,
            "boxpleat 2\nsheet square\nedges 2\nedge c p 3\nedge c q 4\nside 7\nbound 7\npoint p 0 0\npoint q 0 7\nfloor 7 7 1 2\nproof none\nend\n",
            "",
        ),
        (
            "design",
            "c p 1\nc q 1\nc r 1\nc s 1\nc t 1\n",
            0,
            "boxpleat 2\nsheet square\nedges 5\nedge c p 1\nedge c q 1\nedge c r 1\nedge c s 1\nedge c t 1\nside 4\nbound 4\npoint p 0 0\npoint q 0 2\npoint r 2 0\npoint s 2 2\npoint t 0 4\nfloor 2 4 1 2 3 4 5\nproof none\nend\n",
            "",
        ),
        (
            "design",
            "r a 2\nr b 2\na a1 1\na a2 1\nb b1 1\nb b2 1\n",
            0,
            "boxpleat 2\nsheet square\nedges 6\nedge r a 2\nedge r b 2\nedge a a1 1\nedge a a2 1\nedge b b1 1\nedge b b2 1\nside 6\nbound 6\npoint a1 0 0\npoint a2 0 2\npoint b1 6 0\npoint b2 6 2\nfloor 6 6 1 3\nproof none\nend\n",
            "",
        ),
        (
            "design",
            r#"{"edges":[["c","p",1],["c","q",1],["c","r",1],["c","s",1]]}"#,
            0,
            "boxpleat 2\nsheet square\nedges 4\nedge c p 1\nedge c q 1\nedge c r 1\nedge c s 1\nside 2\nbound 2\npoint p 0 0\npoint q 0 2\npoint r 2 0\npoint s 2 2\nfloor 2 2 1 2 3 4\nproof none\nend\n",
            "",
        ),
        (
            "design",
            "# star\r\nc\tp 1\r\n  c q  1 # second\r\n\r\nc r 1\nc s 1",
            0,
            "boxpleat 2\nsheet square\nedges 4\nedge c p 1\nedge c q 1\nedge c r 1\nedge c s 1\nside 2\nbound 2\npoint p 0 0\npoint q 0 2\npoint r 2 0\npoint s 2 2\nfloor 2 2 1 2 3 4\nproof none\nend\n",
            "",
        ),
        (
            "design --strip 0",
            "c p 1\nc q 1\nc r 1\nc s 1\n",
            0,
            STRIP_0,
            "",
        ),
        ("design --strip 4", "c p 1\nc q 1\nc r 1\n", 0, STRIP_4, ""),
        (
            "design --strip 5",
            "c p 2\nc q 2\nc r 2\nc s 1\nc t 1\n",
            0,
            STRIP_5,
            "",
        ),
    ];
    check(&rt, rt.alloc(), &rows)
}

#[test]
fn refusals(rt: HostRuntime) -> Result<(), Fail> {
    let rows = [
        (
            "design",
            "r a 3\na b 2\na c 1\n",
            1,
            "",
            "tree: line 0: RootIsLeaf\n",
        ),
        (
            "design",
            "c p 0\nc q 1\n",
            1,
            "",
            "tree: line 1: BadLength\n",
        ),
        (
            "design",
            "c p 1001\nc q 1\n",
            1,
            "",
            "tree: line 1: BadLength\n",
        ),
        (
            "design",
            "c p 01\nc q 1\n",
            1,
            "",
            "tree: line 1: BadLength\n",
        ),
        (
            "design",
            "c p 1\nc q 1\nx r 1\n",
            1,
            "",
            "tree: line 3: UnknownParent\n",
        ),
        (
            "design",
            "c p 1\nc p 2\n",
            1,
            "",
            "tree: line 2: RepeatedName\n",
        ),
        ("design", "c p\n", 1, "", "tree: line 1: WordCount\n"),
        ("design", "c p! 1\n", 1, "", "tree: line 1: BadName\n"),
        ("design", "", 1, "", "tree: line 0: Empty\n"),
        (
            "design",
            r#"{"edges":[["c","p",1.5],["c","q",1],["c","r",1],["c","s",1]]}"#,
            1,
            "",
            "tree: line 0: BadShape\n",
        ),
        ("design", r#"{"edges":["#, 1, "", "tree: line 0: BadJson\n"),
        (
            "design",
            "\nc p 1\u{7f}\n",
            1,
            "",
            "tree: line 2: BadByte\n",
        ),
        (
            "design --workers 0",
            "c p 1\nc q 1\nc r 1\nc s 1\n",
            2,
            "",
            "usage: boxpleat design, check, contours, made or trial\n",
        ),
        (
            "design --budget 5 --budget 5",
            "c p 1\nc q 1\nc r 1\nc s 1\n",
            2,
            "",
            "usage: boxpleat design, check, contours, made or trial\n",
        ),
        (
            "design --workers=4",
            "c p 1\nc q 1\nc r 1\nc s 1\n",
            2,
            "",
            "usage: boxpleat design, check, contours, made or trial\n",
        ),
        (
            "design --steady 0",
            "c p 1\nc q 1\nc r 1\nc s 1\n",
            2,
            "",
            "usage: boxpleat design, check, contours, made or trial\n",
        ),
        (
            "design --steady 10000001",
            "c p 1\nc q 1\nc r 1\nc s 1\n",
            2,
            "",
            "usage: boxpleat design, check, contours, made or trial\n",
        ),
        (
            "design --strip 4 --fold f",
            "c p 1\nc q 1\nc r 1\nc s 1\n",
            2,
            "",
            "usage: boxpleat design, check, contours, made or trial\n",
        ),
        (
            "check",
            "c p 1\nc q 1\nc r 1\nc s 1\n",
            2,
            "",
            "usage: boxpleat design, check, contours, made or trial\n",
        ),
        (
            "made 17 1",
            "c p 1\nc q 1\nc r 1\nc s 1\n",
            2,
            "",
            "usage: boxpleat design, check, contours, made or trial\n",
        ),
        (
            "",
            "c p 1\nc q 1\nc r 1\nc s 1\n",
            2,
            "",
            "usage: boxpleat design, check, contours, made or trial\n",
        ),
        (
            "design --steady 9",
            "c p 1\nc q 1\nc r 1\nc s 1\n",
            9,
            "",
            "unsteady: budget 9\n",
        ),
        ("contours", "", 1, "", "document: line 1: Cut\n"),
        ("pieces", "", 1, "", "document: line 1: Cut\n"),
        ("rewrite", "", 1, "", "document: line 1: Cut\n"),
        ("solve --mirror book", "", 8, "", "not built\n"),
    ];
    check(&rt, rt.alloc(), &rows)
}

const STAR: &str = "c p 1\nc q 1\nc r 1\nc s 1\n";

#[test]
fn full_input_and_one_byte_more(rt: HostRuntime) -> Result<(), Fail> {
    let alloc = rt.alloc();
    let star = leave(&rt, alloc, "design", STAR.as_bytes(), b"", NONE)?;
    let mut bytes = STAR.as_bytes().to_vec(alloc)?;
    bytes.resize(65_536, b'#')?;
    let full = leave(&rt, alloc, "design", &bytes, b"", NONE)?;
    assert_eq!(rt; full.number, 0);
    assert_eq!(rt; full.out.as_slice(), star.out.as_slice());
    bytes.push(b'#')?;
    let longer = leave(&rt, alloc, "design", &bytes, b"", NONE)?;
    assert_eq!(rt; longer.number, 1);
    assert_eq!(rt;
        longer.err.as_slice(),
        b"tree: line 0: TooLong\n".as_slice()
    );
    Ok(())
}

fn star_of(alloc: Global, leaves: u64) -> Result<String, Fail> {
    let mut text = String::new(alloc);
    for leaf in 0..leaves {
        let line = format!(in alloc; "c n{leaf} 1\n")?;
        text.push_str(line.as_str())?;
    }
    Ok(text)
}

#[test]
fn stars_of_many_leaves(rt: HostRuntime) -> Result<(), Fail> {
    let alloc = rt.alloc();
    for (leaves, sides) in [
        (16, "side 6\nbound 6\n"),
        (17, "side 8\nbound 8\n"),
        (32, "side 10\nbound 10\n"),
    ] {
        let tree = star_of(alloc, leaves)?;
        let left = leave(&rt, alloc, "design", tree.as_bytes(), b"", NONE)?;
        assert_eq!(rt; left.number, 0);
        assert!(rt; str::from_utf8(&left.out)?.contains(sides));
    }
    let tree = star_of(alloc, 33)?;
    let left = leave(&rt, alloc, "design", tree.as_bytes(), b"", NONE)?;
    assert_eq!(rt; left.number, 1);
    assert_eq!(rt;
        left.err.as_slice(),
        b"tree: line 0: TooManyLeaves\n".as_slice()
    );
    Ok(())
}

#[test]
fn faults_end_the_run(rt: HostRuntime) -> Result<(), Fail> {
    let alloc = rt.alloc();
    let read = Faults { read: 1, ..NONE };
    let left = leave(&rt, alloc, "design", STAR.as_bytes(), b"", read)?;
    assert_eq!(rt; left.number, 4);
    assert_eq!(rt; left.out.len(), 0);
    assert_eq!(rt; left.err.as_slice(), b"read fault\n".as_slice());
    let write = Faults { write: 2, ..NONE };
    let left = leave(&rt, alloc, "design", STAR.as_bytes(), b"", write)?;
    assert_eq!(rt; left.number, 5);
    assert_eq!(rt; left.out.as_slice(), b"boxpleat 2\nsheet".as_slice());
    assert_eq!(rt; left.err.as_slice(), b"write fault\n".as_slice());
    let tell = Faults { tell: 1, ..NONE };
    let left = leave(&rt, alloc, "design --workers 0", STAR.as_bytes(), b"", tell)?;
    assert_eq!(rt; left.number, 2);
    assert_eq!(rt; left.err.len(), 0);
    Ok(())
}
