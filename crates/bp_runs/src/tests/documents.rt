// Commands that read a document.
use super::{Faults, Left, NONE, leave};
use std::alloc::Global;
use std::process::Abort;
use std::test::Fail;
use std::thread::Threads;

const FIRST: &str =
    "boxpleat 1\nedges 5\nedge c p 2\nedge c q 2\nedge c r 2\nedge c s 1\nedge c t 1\nside 5\nbound 4\npoint p 0 0\npoint q 0 4\npoint r 4 0\npoint s 3 3\npoint t 3 5\nfloor 2 4 1 2 3 4 5\nproof 2\n0 split 1 2\n1 open x 1 2\nend\n";

const SECOND: &str =
    "boxpleat 2\nsheet square\nedges 5\nedge c p 2\nedge c q 2\nedge c r 2\nedge c s 1\nedge c t 1\nside 5\nbound 4\npoint p 0 0\npoint q 0 4\npoint r 4 0\npoint s 3 3\npoint t 3 5\nfloor 2 4 1 2 3 4 5\nproof 2\n0 split 1 2\n1 open x 1 2\nend\n";

const TWIGS: &str =
    "boxpleat 2\nsheet square\nedges 6\nedge r a 2\nedge r b 2\nedge a a1 1\nedge a a2 1\nedge b b1 1\nedge b b2 1\nside 6\nbound 6\npoint a1 0 0\npoint a2 0 2\npoint b1 6 0\npoint b2 6 2\nfloor 6 6 1 3\nproof none\nend\n";

fn read<R: Threads + Sync>(
    rt: &R,
    alloc: Global,
    line: &str,
    document: &[u8],
    faults: Faults,
) -> Result<Left, Fail> {
    leave(rt, alloc, line, b"c p 1\n", document, faults)
}

fn check<R: Abort + Threads + Sync>(
    rt: &R,
    alloc: Global,
    rows: &[(&str, &str, u8, &str, &str)],
) -> Result<(), Fail> {
    for (line, document, number, out, err) in rows {
        let left = read(rt, alloc, line, document.as_bytes(), NONE)?;
        assert_eq!(rt; left.number, *number, "{line}, {document}");
        assert_eq!(rt; left.out.as_slice(), out.as_bytes(), "{line}, {document}");
        assert_eq!(rt; left.err.as_slice(), err.as_bytes(), "{line}, {document}");
    }
    Ok(())
}

#[test]
fn rewrites(rt: HostRuntime) -> Result<(), Fail> {
    let rows = [
        ("rewrite", FIRST, 0, SECOND, ""),
        ("rewrite", SECOND, 0, SECOND, ""),
        (
            "rewrite",
            "boxpleat 2\nsheet square\nedges 5\nedge c p 2\nedge c q 2\nedge c r 2\nedge c s 1\nedge c t 1\nside 5\nbound 4\npoint p 0 0\npoint q 0 4\npoint r 4 0\npoint s 3 3\npoint t 3 5\nfloor 2 4 1 2 3 4 5\nproof 2\n0 split 1 2\n1 open x 1 2\nend\nx",
            1,
            "",
            "document: line 21: Trailing\n",
        ),
        (
            "rewrite",
            "boxpleat 2\nsheet strip 0\nedges 4\nedge c p 1\nedge c q 1\nedge c r 1\nedge c s 1\nside 6\nbound 6\npoint p 0 0\npoint q 0 2\npoint r 0 4\npoint s 0 6\nfloor 2 6 1 2 3 4\nproof none\nend\n",
            0,
            "boxpleat 2\nsheet strip 0\nedges 4\nedge c p 1\nedge c q 1\nedge c r 1\nedge c s 1\nside 6\nbound 6\npoint p 0 0\npoint q 0 2\npoint r 0 4\npoint s 0 6\nfloor 2 6 1 2 3 4\nproof none\nend\n",
            "",
        ),
        (
            "rewrite",
            "boxpleat 2\nsheet square\nedges 6\nedge r a 2\nedge r b 2\nedge a a1 1\nedge a a2 1\nedge b b1 1\nedge b b2 1\nside 6\nbound 7\npoint a1 0 0\npoint a2 0 2\npoint b1 6 0\npoint b2 6 2\nfloor 6 6 1 3\nproof none\nend\n",
            0,
            "boxpleat 2\nsheet square\nedges 6\nedge r a 2\nedge r b 2\nedge a a1 1\nedge a a2 1\nedge b b1 1\nedge b b2 1\nside 6\nbound 7\npoint a1 0 0\npoint a2 0 2\npoint b1 6 0\npoint b2 6 2\nfloor 6 6 1 3\nproof none\nend\n",
            "",
        ),
    ];
    check(&rt, rt.alloc(), &rows)
}

// Cuts the text after each line, and answers the number of the line behind them.
fn cut<R: Abort + Threads + Sync>(rt: &R, alloc: Global, bytes: &[u8]) -> Result<u64, Fail> {
    let mut line = 1u64;
    for at in 0..bytes.len() {
        if at > 0 && bytes[at - 1] != b'\n' {
            continue;
        }
        let left = read(rt, alloc, "rewrite", &bytes[..at], NONE)?;
        let err = format!(in alloc; "document: line {line}: Cut\n")?;
        assert_eq!(rt; left.number, 1);
        assert_eq!(rt; left.out.len(), 0);
        assert_eq!(rt; left.err.as_slice(), err.as_str().as_bytes());
        line = line.saturating_add(1);
    }
    Ok(line)
}

#[test]
fn cut_after_each_line(rt: HostRuntime) -> Result<(), Fail> {
    let line = cut(&rt, rt.alloc(), SECOND.as_bytes())?;
    assert_eq!(rt; line, 21);
    Ok(())
}

#[test]
fn draws(rt: HostRuntime) -> Result<(), Fail> {
    let rows = [
        (
            "contours",
            TWIGS,
            0,
            "contours 1\nedge a\nloop 0 0 3 0 3 5 0 5\nedge b\nloop 3 0 6 0 6 5 3 5\nedge a1\nloop 0 0 1 0 1 1 0 1\nedge a2\nloop 0 1 1 1 1 3 0 3\nedge b1\nloop 5 0 6 0 6 1 5 1\nedge b2\nloop 5 1 6 1 6 3 5 3\nend\n",
            "",
        ),
        (
            "contours",
            "boxpleat 1\nedges 4\nedge r a 1\nedge r c 1\nedge a p 1\nedge a q 1\nside 4\nbound 3\npoint c 0 4\npoint p 0 0\npoint q 4 4\nfloor 3 3 1 2\nproof none\nend\n",
            0,
            "contours 1\nedge a\nloop 0 0 2 0 2 2 0 2\nloop 2 2 4 2 4 4 2 4\nedge c\nloop 0 3 1 3 1 4 0 4\nedge p\nloop 0 0 1 0 1 1 0 1\nedge q\nloop 3 3 4 3 4 4 3 4\nend\n",
            "",
        ),
        (
            "contours",
            "boxpleat 1\nedges 6\nedge r a 1\nedge r c 1\nedge a p 1\nedge a q 1\nedge a s 1\nedge a t 1\nside 9\nbound 3\npoint c 9 0\npoint p 2 2\npoint q 6 3\npoint s 5 7\npoint t 1 6\nfloor 3 3 1 2\nproof none\nend\n",
            0,
            "contours 1\nedge a\nloop 0 0 4 0 4 1 8 1 8 5 7 5 7 9 3 9 3 8 0 8\nloop 3 4 3 5 4 5 4 4\nedge c\nloop 8 0 9 0 9 1 8 1\nedge p\nloop 1 1 3 1 3 3 1 3\nedge q\nloop 5 2 7 2 7 4 5 4\nedge s\nloop 4 6 6 6 6 8 4 8\nedge t\nloop 0 5 2 5 2 7 0 7\nend\n",
            "",
        ),
        (
            "pieces",
            TWIGS,
            0,
            "pieces 1\nedge a\npiece 0 0 15\nedge b\npiece 3 0 15\nedge a1\npiece 0 0 1\nedge a2\npiece 0 1 2\nedge b1\npiece 5 0 1\nedge b2\npiece 5 1 2\nend\n",
            "",
        ),
        (
            "pieces",
            "boxpleat 1\nedges 4\nedge r a 1\nedge r c 1\nedge a p 1\nedge a q 1\nside 4\nbound 3\npoint c 0 4\npoint p 0 0\npoint q 4 4\nfloor 3 3 1 2\nproof none\nend\n",
            0,
            "pieces 1\nedge a\npiece 0 0 4\npiece 2 2 4\nedge c\npiece 0 3 1\nedge p\npiece 0 0 1\nedge q\npiece 3 3 1\nend\n",
            "",
        ),
        (
            "pieces",
            "boxpleat 1\nedges 6\nedge r a 1\nedge r c 1\nedge a p 1\nedge a q 1\nedge a s 1\nedge a t 1\nside 9\nbound 3\npoint c 9 0\npoint p 2 2\npoint q 6 3\npoint s 5 7\npoint t 1 6\nfloor 3 3 1 2\nproof none\nend\n",
            0,
            "pieces 1\nedge a\npiece 0 0 60\nhole 3 4 1\nedge c\npiece 8 0 1\nedge p\npiece 1 1 4\nedge q\npiece 5 2 4\nedge s\npiece 4 6 4\nedge t\npiece 0 5 4\nend\n",
            "",
        ),
    ];
    check(&rt, rt.alloc(), &rows)
}

#[test]
fn draws_nothing(rt: HostRuntime) -> Result<(), Fail> {
    let rows = [
        (
            "contours",
            "boxpleat 2\nsheet strip 0\nedges 4\nedge c p 1\nedge c q 1\nedge c r 1\nedge c s 1\nside 6\nbound 6\npoint p 0 0\npoint q 0 2\npoint r 0 4\npoint s 0 6\nfloor 2 6 1 2 3 4\nproof none\nend\n",
            7,
            "no StripSheet\n",
            "",
        ),
        (
            "contours",
            "boxpleat 2\nsheet strip 0\nedges 4\nedge c p 1\nedge c q 1\nedge c r 1\nedge c s 1\nside 6\nbound 7\npoint p 7 7\npoint q 0 2\npoint r 0 4\npoint s 0 6\nfloor 2 6 1 2 3 4\nproof none\nend\n",
            7,
            "no StripSheet\n",
            "",
        ),
        (
            "contours",
            "boxpleat 2\nsheet strip 01\nedges 4\nedge c p 1\nedge c q 1\nedge c r 1\nedge c s 1\nside 6\nbound 6\npoint p 0 0\npoint q 0 2\npoint r 0 4\npoint s 0 6\nfloor 2 6 1 2 3 4\nproof none\nend\n",
            1,
            "",
            "document: line 2: BadForm\n",
        ),
        (
            "contours",
            "boxpleat 2\nsheet square\nedges 6\nedge r a 2\nedge r b 2\nedge a a1 1\nedge a a2 1\nedge b b1 1\nedge b b2 1\nside 6\nbound 6\npoint a1 7 0\npoint a2 0 2\npoint b1 6 0\npoint b2 6 2\nfloor 6 6 1 3\nproof none\nend\n",
            7,
            "no Outside 1\n",
            "",
        ),
        (
            "contours",
            "boxpleat 2\nsheet square\nedges 6\nedge r a 2\nedge r b 2\nedge a a1 1\nedge a a2 1\nedge b b1 1\nedge b b2 1\nside 6\nbound 6\npoint a1 0 0\npoint a2 0 1\npoint b1 6 0\npoint b2 6 2\nfloor 6 6 1 3\nproof none\nend\n",
            7,
            "no TooNear 1 2\n",
            "",
        ),
        (
            "contours",
            "boxpleat 2\nsheet square\nedges 6\nedge r a 2\nedge r b 2\nedge a a1 1\nedge a a2 1\nedge b b1 1\nedge b b2 1\nside 6\nbound 6\npoint a1 0 0\npoint a2 0 2\npoint b1 6 0\npoint b2 6 2\nfloor 6 6 1 2\nproof none\nend\n",
            7,
            "no BadFloor\n",
            "",
        ),
        (
            "contours",
            "boxpleat 2\nsheet square\nedges 5\nedge c p 2\nedge c q 2\nedge c r 2\nedge c s 1\nedge c t 1\nside 5\nbound 4\npoint p 0 0\npoint q 0 4\npoint r 4 0\npoint s 3 3\npoint t 3 5\nfloor 2 4 1 2 3 4 5\nproof 2\n0 split 2 1\n1 open x 1 2\nend\n",
            7,
            "no BadSplit 0\n",
            "",
        ),
        (
            "contours",
            "boxpleat 2\nsheet square\nedges 5\nedge c p 2\nedge c q 2\nedge c r 2\nedge c s 1\nedge c t 1\nside 5\nbound 4\npoint p 0 0\npoint q 0 4\npoint r 4 0\npoint s 3 3\npoint t 3 5\nfloor 2 4 1 2 3 4 5\nproof 2\n0 split 1 2\n1 open x 2 1\nend\n",
            7,
            "no BadChain 1\n",
            "",
        ),
        (
            "contours",
            "boxpleat 2\nsheet square\nedges 6\nedge r a 2\nedge r b 2\nedge a a1 1\nedge a a2 1\nedge b b1 1\nedge b b2 1\nside 6\nbound 7\npoint a1 0 0\npoint a2 0 2\npoint b1 6 0\npoint b2 6 2\nfloor 6 6 1 3\nproof none\nend\n",
            7,
            "no BoundNotShown\n",
            "",
        ),
        (
            "contours",
            "boxpleat 2\nsheet square\nedges 6\nedge r a 0\nedge r b 2\nedge a a1 1\nedge a a2 1\nedge b b1 1\nedge b b2 1\nside 6\nbound 6\npoint a1 0 0\npoint a2 0 2\npoint b1 6 0\npoint b2 6 2\nfloor 6 6 1 3\nproof none\nend\n",
            1,
            "",
            "document: line 4: BadTree\n",
        ),
        (
            "contours",
            "boxpleat 2\nsheet square\nedges 6\nedge r a 2\nedge r b 2\nedge a a1 1\nedge a a2 1\nedge b b1 1\nedge b b2 1\nside 6\nbound 6\npoint a3 0 0\npoint a2 0 2\npoint b1 6 0\npoint b2 6 2\nfloor 6 6 1 3\nproof none\nend\n",
            1,
            "",
            "document: line 12: BadPoint\n",
        ),
        (
            "contours",
            "boxpleat 2\nsheet square\nedges 5\nedge c p 2\nedge c q 2\nedge c r 2\nedge c s 1\nedge c t 1\nside 5\nbound 4\npoint p 0 0\npoint q 0 4\npoint r 4 0\npoint s 3 3\npoint t 3 5\nfloor 2 4 1 2 3 4 5\nproof 2\n0 split 1 2\n2 open x 1 2\nend\n",
            1,
            "",
            "document: line 19: BadDepth\n",
        ),
        (
            "pieces",
            "boxpleat 2\nsheet strip 0\nedges 4\nedge c p 1\nedge c q 1\nedge c r 1\nedge c s 1\nside 6\nbound 6\npoint p 0 0\npoint q 0 2\npoint r 0 4\npoint s 0 6\nfloor 2 6 1 2 3 4\nproof none\nend\n",
            7,
            "no StripSheet\n",
            "",
        ),
    ];
    check(&rt, rt.alloc(), &rows)
}

#[test]
fn draws_on_a_great_sheet(rt: HostRuntime) -> Result<(), Fail> {
    let great =
        "boxpleat 2\nsheet square\nedges 5\nedge c p 2\nedge c q 2\nedge c r 2\nedge c s 1\nedge c t 1\nside 999999999\nbound 4\npoint p 0 0\npoint q 0 4\npoint r 4 0\npoint s 3 3\npoint t 3 5\nfloor 2 4 1 2 3 4 5\nproof 2\n0 split 1 2\n1 open x 1 2\nend\n";
    let left = read(&rt, rt.alloc(), "contours", great.as_bytes(), NONE)?;
    assert_eq!(rt; left.number, 0);
    Ok(())
}

// Which calls fail, and what comes of it.
fn fail<R: Abort + Threads + Sync>(
    rt: &R,
    alloc: Global,
    line: &str,
    document: &[u8],
    faults: Faults,
    number: u8,
    out: &[u8],
) -> Result<(), Fail> {
    let left = read(rt, alloc, line, document, faults)?;
    assert_eq!(rt; left.number, number);
    assert_eq!(rt; left.out.as_slice(), out);
    Ok(())
}

// The source fails at each of its first calls.
fn fail_reading<R: Abort + Threads + Sync>(
    rt: &R,
    alloc: Global,
    line: &str,
    document: &[u8],
) -> Result<(), Fail> {
    for call in 1..20u64 {
        let faults = Faults { doc: call, ..NONE };
        fail(rt, alloc, line, document, faults, 4, b"")?;
    }
    Ok(())
}

fn fail_writing<R: Abort + Threads + Sync>(
    rt: &R,
    alloc: Global,
    document: &[u8],
) -> Result<(), Fail> {
    let second = Faults { write: 2, ..NONE };
    fail(
        rt,
        alloc,
        "contours",
        document,
        second,
        5,
        b"contours 1\nedge ",
    )?;
    let first = Faults { write: 1, ..NONE };
    fail(rt, alloc, "rewrite", document, first, 5, b"")
}

#[test]
fn faults_end_the_run(rt: HostRuntime) -> Result<(), Fail> {
    let alloc = rt.alloc();
    fail_reading(&rt, alloc, "contours", TWIGS.as_bytes())?;
    fail_reading(&rt, alloc, "rewrite", TWIGS.as_bytes())?;
    fail_writing(&rt, alloc, TWIGS.as_bytes())
}

// A tree isn't read by these commands, nor a document by `design`.
#[test]
fn other_sources_are_left(rt: HostRuntime) -> Result<(), Fail> {
    let alloc = rt.alloc();
    let tree = Faults { read: 1, ..NONE };
    let left = read(&rt, alloc, "rewrite", TWIGS.as_bytes(), tree)?;
    assert_eq!(rt; left.number, 0);
    let document = Faults { doc: 1, ..NONE };
    let left = leave(&rt, alloc, "design", b"c p 3\nc q 4\n", b"", document)?;
    assert_eq!(rt; left.number, 0);
    Ok(())
}
