// Texts that are checked while they are read.
ghost use Rattle.std.specs.Prelude.{◌≤◌};

use super::{five, tree};
use bp_base::{MemSource, Tree};
use bp_check::{CheckFault, Reason, Streamed, Verdict, check_source};
use bp_document::{DocFault, DocKind};
use std::alloc::Global;
use std::process::Abort;
use std::test::Fail;

const STAR: &[u8] =
    b"boxpleat 1\nedges 5\nedge a b 2\nedge a c 2\nedge a d 2\nedge a e 1\nedge a f 1\nside 5\nbound 4\npoint b 0 0\npoint c 0 4\npoint d 4 0\npoint e 3 3\npoint f 3 5\nfloor 2 4 1 2 3 4 5\nproof 2\n0 split 1 2\n1 open x 1 2\nend\n";

const CORNERS: &[u8] =
    b"boxpleat 1\nedges 4\nedge a b 1\nedge a c 1\nedge b d 1\nedge b e 1\nside 4\nbound 3\npoint c 0 4\npoint d 0 0\npoint e 4 4\nfloor 3 3 1 2\nproof none\nend\n";

const NINE: &[u8] =
    b"boxpleat 1\nedges 3\nedge a b 1\nedge a c 1\nedge a d 1\nside 2\nbound 2\npoint b 0 0\npoint c 0 2\npoint d 2 0\nfloor 2 0 1\nproof 9\n0 split 1 2\n1 split 1 3\n2 walk x 1 2\n2 split 2 3\n3 cycle x 1 2 3\n3 walk x 1 2\n3 walk x 1 2\n3 walk x 1 2\n2 walk x 1 2\nend\n";

const STRIP: &[u8] =
    b"boxpleat 2\nsheet strip 4\nedges 5\nedge a b 2\nedge a c 2\nedge a d 2\nedge a e 1\nedge a f 1\nside 5\nbound 4\npoint b 0 0\npoint c 4 0\npoint d 0 4\npoint e 3 3\npoint f 3 5\nfloor 4 4 1 2 3\nproof 3\n0 split 1 2\n1 walk x 1 2\n1 walk y 1 2\nend\n";

// How the check of a text ends.
#[derive(Clone, Copy, Debug, PartialEq, Eq)]
enum Outcome {
    Answer(Streamed),
    Fault(DocFault),
    Read,
    NoMemory,
}

fn yes(side: u64, bound: u64) -> Outcome {
    let verdict = Verdict::Yes;
    Outcome::Answer(Streamed {
        verdict,
        side,
        bound,
    })
}

fn no(reason: Reason, side: u64, bound: u64) -> Outcome {
    let verdict = Verdict::No(reason);
    Outcome::Answer(Streamed {
        verdict,
        side,
        bound,
    })
}

fn fault(line: u64, kind: DocKind) -> Outcome {
    Outcome::Fault(DocFault { line, kind })
}

// Other text in place of a line, with its LF.
type Edit<'a> = (u64, &'a [u8]);

// What is told of a text whose bytes come at most so many at a call, of which that of this number fails. Else the text is read to its end.
fn told(alloc: Global, tree: &Tree, text: &[u8], most: u64, failing: u64) -> Result<Outcome, Fail>
    requires { 1 ≤ most }
{
    let mut source = MemSource {
        bytes: Vec::from_slice(alloc, text)?,
        at: 0,
        most,
        calls: 0,
        fails: Vec::from_slice(alloc, &[failing])?,
        faults: 0,
    };
    let told = match check_source(alloc, tree, &mut source) {
        Ok(streamed) => Outcome::Answer(streamed),
        Err(CheckFault::Doc(fault)) => Outcome::Fault(fault),
        Err(CheckFault::Read) => return Ok(Outcome::Read),
        Err(CheckFault::NoMemory) => return Ok(Outcome::NoMemory),
    };
    if source.at != text.len() as u64 {
        return Err(Fail::from("not read to its end"));
    }
    Ok(told)
}

// The text with another text in place of a line.
fn with_edit(alloc: Global, text: &[u8], edit: Edit) -> Result<Vec<u8>, Fail> {
    let (number, new) = edit;
    let mut bytes = Vec::new(alloc);
    let mut here = 1u64;
    for byte in text {
        if here != number {
            bytes.push(*byte)?;
        }
        if *byte == b'\n' {
            if here == number {
                bytes.extend_from_slice(new)?;
            }
            here = here.saturating_add(1);
        }
    }
    Ok(bytes)
}

fn with_edits(alloc: Global, text: &[u8], edits: &[Edit]) -> Result<Vec<u8>, Fail> {
    let mut bytes = Vec::from_slice(alloc, text)?;
    for edit in edits {
        bytes = with_edit(alloc, &bytes, *edit)?;
    }
    Ok(bytes)
}

fn told_at<R: Abort>(
    rt: &R,
    alloc: Global,
    tree: &Tree,
    text: &[u8],
    most: u64,
    wanted: Outcome,
) -> Result<(), Fail>
    requires { 1 ≤ most }
{
    assert_eq!(rt; told(alloc, tree, text, most, 0)?, wanted);
    Ok(())
}

// The text with its edits, 1, 7 and 4,096 bytes a call.
fn told_alike<R: Abort>(
    rt: &R,
    alloc: Global,
    tree: &Tree,
    text: &[u8],
    wanted: Outcome,
) -> Result<(), Fail> {
    told_at(rt, alloc, tree, text, 1, wanted)?;
    told_at(rt, alloc, tree, text, 7, wanted)?;
    told_at(rt, alloc, tree, text, 4096, wanted)
}

fn check_all<R: Abort>(
    rt: &R,
    alloc: Global,
    tree: &Tree,
    text: &[u8],
    rows: &[(&[Edit], Outcome)],
) -> Result<(), Fail> {
    for (edits, wanted) in rows {
        let text = with_edits(alloc, text, edits)?;
        told_alike(rt, alloc, tree, &text, *wanted)?;
    }
    Ok(())
}

#[test]
fn star(rt: HostRuntime) -> Result<(), Fail> {
    let rows: [(&[Edit], Outcome); 21] = [
        (&[], yes(5, 4)),
        (&[(9, b"bound 5\n")], no(Reason::BoundNotShown, 5, 5)),
        (
            &[(14, b"point f 3 4\n")],
            no(Reason::TooNear { i: 4, j: 5 }, 5, 4),
        ),
        (
            &[(14, b"point f 3 6\n")],
            no(Reason::Outside { i: 5 }, 5, 4),
        ),
        (
            &[(15, b"floor 2 5 1 2 3 4 5\n")],
            no(Reason::BadFloor, 5, 4),
        ),
        (&[(3, b"edge a b 1\n")], no(Reason::TreeDiffers, 5, 4)),
        (&[(16, b"proof 3\n")], fault(19, DocKind::BadForm)),
        (&[(16, b"proof 1\n")], fault(18, DocKind::BadForm)),
        (&[(16, b"proof 0\n")], fault(16, DocKind::BadForm)),
        (&[(17, b"1 split 1 2\n")], fault(17, DocKind::BadDepth)),
        (&[(18, b"2 open x 1 2\n")], fault(18, DocKind::BadDepth)),
        (&[(3, b"edge a b 0\n")], fault(3, DocKind::BadTree)),
        (&[(8, b"side 1000000000\n")], fault(8, DocKind::BadForm)),
        (
            &[(17, b"0 split 2 1\n")],
            no(Reason::BadSplit { node: 0 }, 5, 4),
        ),
        (
            &[(18, b"1 open x 1 17\n")],
            no(Reason::BadChain { node: 1 }, 5, 4),
        ),
        (
            &[(18, b"1 open x 2 1\n")],
            no(Reason::BadChain { node: 1 }, 5, 4),
        ),
        (&[(8, b"side 999999999\n")], yes(999_999_999, 4)),
        (&[(19, b"end\nx")], fault(20, DocKind::Trailing)),
        (&[(19, b"end")], fault(19, DocKind::Cut)),
        (
            &[(12, b"point c 4 0\n"), (3, b"edge\n")],
            fault(3, DocKind::BadForm),
        ),
        (
            &[(8, b"side 6\n"), (9, b"bound 5\n")],
            no(Reason::BoundNotShown, 6, 5),
        ),
    ];
    let alloc = rt.alloc();
    let own = five(alloc)?;
    let result = check_all(&rt, alloc, &own, STAR, &rows);
    drop(own);
    result
}

// The text cut before each of its lines.
fn cut<R: Abort>(rt: &R, alloc: Global, tree: &Tree, text: &[u8]) -> Result<(), Fail> {
    let mut line = 1u64;
    for at in 0..text.len() {
        if at > 0 && text[at - 1] == b'\n' {
            line = line.saturating_add(1);
        }
        told_alike(rt, alloc, tree, &text[..at], fault(line, DocKind::Cut))?;
    }
    Ok(())
}

#[test]
fn cut_texts(rt: HostRuntime) -> Result<(), Fail> {
    let alloc = rt.alloc();
    let own = five(alloc)?;
    let result = cut(&rt, alloc, &own, STAR);
    drop(own);
    result
}

#[test]
fn corners(rt: HostRuntime) -> Result<(), Fail> {
    let alloc = rt.alloc();
    let own = tree(alloc, &[0, 0, 0, 1, 1], &[0, 1, 1, 1, 1])?;
    let result = told_alike(&rt, alloc, &own, CORNERS, yes(4, 3));
    drop(own);
    result
}

#[test]
fn nine(rt: HostRuntime) -> Result<(), Fail> {
    let bad_split = |node, bound| no(Reason::BadSplit { node }, 2, bound);
    let rows: [(&[Edit], Outcome); 5] = [
        (&[], yes(2, 2)),
        (&[(12, b"proof 8\n"), (19, b"")], bad_split(3, 2)),
        (
            &[(17, b"3 cycle x 1 3 2\n")],
            no(Reason::BadChain { node: 4 }, 2, 2),
        ),
        (&[(7, b"bound 3\n")], no(Reason::BoundNotShown, 2, 3)),
        (
            &[
                (12, b"proof 13\n"),
                (17, b"3 cycle x 1 3 2\n"),
                (
                    21,
                    b"2 split 2 3\n3 split 2 3\n3 walk x 1 2\n3 walk x 1 2\n3 walk x 1 2\n",
                ),
            ],
            bad_split(9, 2),
        ),
    ];
    let alloc = rt.alloc();
    let own = tree(alloc, &[0; 4], &[0, 1, 1, 1])?;
    let result = check_all(&rt, alloc, &own, NINE, &rows);
    drop(own);
    result
}

#[test]
fn sheets(rt: HostRuntime) -> Result<(), Fail> {
    let rows: [(&[Edit], Outcome); 4] = [
        (&[], yes(5, 4)),
        (
            &[(2, b"sheet square\n")],
            no(Reason::BadSplit { node: 0 }, 5, 4),
        ),
        (&[(16, b"floor 1 0 1\n")], no(Reason::BoundNotShown, 5, 4)),
        (&[(2, b"sheet strip 01\n")], fault(2, DocKind::BadForm)),
    ];
    let alloc = rt.alloc();
    let own = five(alloc)?;
    let result = check_all(&rt, alloc, &own, STRIP, &rows);
    drop(own);
    result
}

fn fails_at<R: Abort>(rt: &R, alloc: Global, tree: &Tree) -> Result<(), Fail> {
    for call in 1..40 {
        let wanted = if call < 32 { Outcome::Read } else { yes(5, 4) };
        assert_eq!(rt; told(alloc, tree, STAR, 7, call)?, wanted);
    }
    Ok(())
}

#[test]
fn failing_reads(rt: HostRuntime) -> Result<(), Fail> {
    let alloc = rt.alloc();
    let own = five(alloc)?;
    let result = fails_at(&rt, alloc, &own);
    drop(own);
    result
}

// A line of so many bytes, without its LF.
fn long(alloc: Global, count: usize) -> Result<Vec<u8>, Fail> {
    let mut line = Vec::new(alloc);
    for _ in 0..count {
        line.push(b'x')?;
    }
    Ok(line)
}

fn check_line<R: Abort>(
    rt: &R,
    alloc: Global,
    tree: &Tree,
    edit: Edit,
    wanted: Outcome,
) -> Result<(), Fail> {
    let text = with_edit(alloc, STAR, edit)?;
    told_alike(rt, alloc, tree, &text, wanted)
}

fn long_ended(alloc: Global, count: usize) -> Result<Vec<u8>, Fail> {
    let mut line = long(alloc, count)?;
    line.push(b'\n')?;
    Ok(line)
}

fn long_ones<R: Abort>(
    rt: &R,
    alloc: Global,
    tree: &Tree,
    unended: &[u8],
    ended: &[u8],
) -> Result<(), Fail> {
    check_line(rt, alloc, tree, (18, ended), fault(18, DocKind::BadForm))?;
    check_line(rt, alloc, tree, (1, ended), fault(1, DocKind::BadForm))?;
    check_line(rt, alloc, tree, (19, unended), fault(19, DocKind::Cut))
}

#[test]
fn long_lines(rt: HostRuntime) -> Result<(), Fail> {
    let alloc = rt.alloc();
    let unended = long(alloc, 600)?;
    let ended = long_ended(alloc, 600)?;
    let own = five(alloc)?;
    let result = long_ones(&rt, alloc, &own, &unended, &ended);
    drop(own);
    result
}
