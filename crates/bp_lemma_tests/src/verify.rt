// Certificates that are verified while they are read, and calls of the laws.
ghost use Rattle.std.specs.Prelude.{◌≡◌, ◌≤◌, IfOk};

use bp_base::{MemSource, Name, Tree};
use bp_document::{DocFault, DocKind};
use bp_metric::Metric;
use bp_verify::{
    Reason, Verdict, Verified, VerifyFault, certifies_without_reason, law_of_certificates,
    law_of_verdicts, one_reason, verify_source,
};
use std::alloc::Global;
use std::process::Abort;
use std::test::Fail;

// A star with five leaves, as another program proved its side.
const STAR: &[u8] =
    b"boxpleat 3\nsheet square\nmirror none\nedges 5\nedge c p1 2\nedge c p2 2\nedge c p3 2\nedge c p4 1\nedge c p5 1\nside 5\nbound 5\npoint p1 3 4\npoint p2 4 0\npoint p3 0 0\npoint p4 0 3\npoint p5 0 5\nfloor 2 4 1 2 3 4 5\nlemmas 13\ncorner 4 5\nswaps 2\nswap 1 2\nswap 2 3\nno x5<2 by 4-5\nno x4>=3 by 4-5\nno !y1<<y4 x2<3 !y4<<y2 by 1-2 2-4 1-4 2-4 1-4\nno y2<<y1 by 1-2 1-2 3 2-3 2-3 2-5 2-3 2-5 3-5 3-5\nno x2<3 by 1-2 1-2 1-2 1-2 2-4 1-4 2-4 1-4\nno x3<3 by 2-3\nno y2<3 by 2-3 2-5 2-3 2-5 3-5 3-5\nno !y3<<y2 by 2-3\nno !y5<<y2 by 2-5\nno y3>=1 by 2-3\nno y5>=2 by 2-5\nno !y3<<y5 by 3-5\nno by 3-5\nend\n";

// The same star on a strip, by hand: its three long branches don't stand side by side, so no height below 4 serves.
const STRIP: &[u8] =
    b"boxpleat 3\nsheet strip 5\nmirror none\nedges 5\nedge c p1 2\nedge c p2 2\nedge c p3 2\nedge c p4 1\nedge c p5 1\nside 4\nbound 4\npoint p1 0 0\npoint p2 4 0\npoint p3 0 4\npoint p4 3 3\npoint p5 5 3\nfloor 4 4 1 2 3\nlemmas 2\ncorner 1 2\nswaps 0\nno x1>5 by\nno by 1-2 1-3 2-3\nend\n";

// A star of four, up to the hints of its one lemma. Its side is 2, and the bound says 3.
const FOUR: &[u8] =
    b"boxpleat 3\nsheet square\nmirror none\nedges 4\nedge c p1 1\nedge c p2 1\nedge c p3 1\nedge c p4 1\nside 2\nbound 3\npoint p1 0 0\npoint p2 2 0\npoint p3 0 2\npoint p4 2 2\nfloor 2 2 1 2 3 4\nlemmas 1\ncorner 1 2\nswaps 0\nno by";

const HINTS: [&[u8]; 6] = [b" 1-2", b" 1-3", b" 1-4", b" 2-3", b" 2-4", b" 3-4"];

// The same star without lemmas.
const FLOOR: &[u8] =
    b"boxpleat 3\nsheet square\nmirror none\nedges 5\nedge c p1 2\nedge c p2 2\nedge c p3 2\nedge c p4 1\nedge c p5 1\nside 5\nbound 4\npoint p1 3 4\npoint p2 4 0\npoint p3 0 0\npoint p4 0 3\npoint p5 0 5\nfloor 2 4 1 2 3 4 5\nlemmas none\nend\n";

// How verifying ends.
#[derive(Clone, Copy, Debug, PartialEq, Eq)]
enum Outcome {
    Answer(Verified),
    Fault(DocFault),
    Read,
    NoMemory,
}

fn yes(side: u64, bound: u64) -> Outcome {
    let verdict = Verdict::Yes;
    Outcome::Answer(Verified {
        verdict,
        side,
        bound,
    })
}

fn no(reason: Reason, side: u64, bound: u64) -> Outcome {
    let verdict = Verdict::No(reason);
    Outcome::Answer(Verified {
        verdict,
        side,
        bound,
    })
}

fn fault(line: u64, kind: DocKind) -> Outcome {
    Outcome::Fault(DocFault { line, kind })
}

// Other text in place of a line, with its LF.
type Edit<'a> = (u64, &'a [u8]);

fn named(text: &[u8]) -> Result<Name, Fail>
    ensures { IfOk result (λ name. name ≡ text.now) }
{
    match Name::new(text) {
        Some(name) => Ok(name),
        None => Err(Fail::from("no name")),
    }
}

// c p1 2/c p2 2/c p3 2/c p4 1/c p5 1/
fn star(alloc: Global) -> Result<Tree, Fail> {
    let names = [
        named(b"c")?,
        named(b"p1")?,
        named(b"p2")?,
        named(b"p3")?,
        named(b"p4")?,
        named(b"p5")?,
    ];
    let parents = Vec::from_slice(alloc, &[0; 6])?;
    let lengths = Vec::from_slice(alloc, &[0, 2, 2, 2, 1, 1])?;
    let names = Vec::from_slice(alloc, &names)?;
    Ok(Tree::of(parents, lengths, names))
}

// c p1 1/c p2 1/c p3 1/c p4 1/
fn star_of_four(alloc: Global) -> Result<Tree, Fail> {
    let names = [
        named(b"c")?,
        named(b"p1")?,
        named(b"p2")?,
        named(b"p3")?,
        named(b"p4")?,
    ];
    let parents = Vec::from_slice(alloc, &[0; 5])?;
    let lengths = Vec::from_slice(alloc, &[0, 1, 1, 1, 1])?;
    let names = Vec::from_slice(alloc, &names)?;
    Ok(Tree::of(parents, lengths, names))
}

// The star of four with hints that the digits of this number choose.
fn with_hints(alloc: Global, number: u64) -> Result<Vec<u8>, Fail> {
    let mut text = Vec::from_slice(alloc, FOUR)?;
    let mut rest = number;
    for _ in 0..4 {
        text.extend_from_slice(HINTS[(rest % 6) as usize])?;
        rest /= 6;
    }
    text.extend_from_slice(b"\nend\n")?;
    Ok(text)
}

// What is told of a text whose bytes come at most so many at a call, of which that of this number fails. Else the text is read to its end.
fn told(alloc: Global, tree: &Tree, text: &[u8], most: u64, failing: u64) -> Result<Outcome, Fail>
    requires { 1 ≤ most }
{
    let mut source = MemSource {
        bytes: Vec::from_slice(alloc, text)?,
        at: 0,
        most,
        calls: 0,
        fails: Vec::from_slice(alloc, &[failing])?,
        faults: 0,
    };
    let told = match verify_source(alloc, tree, &mut source) {
        Ok(verified) => Outcome::Answer(verified),
        Err(VerifyFault::Doc(fault)) => Outcome::Fault(fault),
        Err(VerifyFault::Read) => return Ok(Outcome::Read),
        Err(VerifyFault::NoMemory) => return Ok(Outcome::NoMemory),
    };
    if source.at != text.len() as u64 {
        return Err(Fail::from("not read to its end"));
    }
    Ok(told)
}

// The text with another text in place of a line.
fn with_edit(alloc: Global, text: &[u8], edit: Edit) -> Result<Vec<u8>, Fail> {
    let (number, new) = edit;
    let mut bytes = Vec::new(alloc);
    let mut here = 1u64;
    for byte in text {
        if here != number {
            bytes.push(*byte)?;
        }
        if *byte == b'\n' {
            if here == number {
                bytes.extend_from_slice(new)?;
            }
            here = here.saturating_add(1);
        }
    }
    Ok(bytes)
}

// Each text with its edit, 1, 7 and 4,096 bytes a call.
fn verify_all<R: Abort>(
    rt: &R,
    alloc: Global,
    text: &[u8],
    rows: &[(Edit, Outcome)],
) -> Result<(), Fail> {
    let tree = star(alloc)?;
    for (edit, wanted) in rows {
        let text = with_edit(alloc, text, *edit)?;
        assert_eq!(rt; told(alloc, &tree, &text, 1, 0)?, *wanted);
        assert_eq!(rt; told(alloc, &tree, &text, 7, 0)?, *wanted);
        assert_eq!(rt; told(alloc, &tree, &text, 4096, 0)?, *wanted);
    }
    Ok(())
}

#[test]
fn verdicts(rt: HostRuntime) -> Result<(), Fail> {
    let rows: [(Edit, Outcome); 19] = [
        ((0, b""), yes(5, 5)),
        ((10, b"side 6\n"), yes(6, 5)),
        ((11, b"bound 4\n"), yes(5, 4)),
        ((11, b"bound 6\n"), no(Reason::BadLemma { number: 2 }, 5, 6)),
        ((5, b"edge c p1 1\n"), no(Reason::TreeDiffers, 5, 5)),
        ((16, b"point p5 0 6\n"), no(Reason::Outside { i: 5 }, 5, 5)),
        (
            (16, b"point p5 0 4\n"),
            no(Reason::TooNear { i: 4, j: 5 }, 5, 5),
        ),
        ((17, b"floor 2 5 1 2 3 4 5\n"), no(Reason::BadFloor, 5, 5)),
        ((19, b"corner none\n"), no(Reason::BadCorner, 5, 5)),
        ((19, b"corner 4 4\n"), no(Reason::BadCorner, 5, 5)),
        ((19, b"corner 4 6\n"), no(Reason::BadCorner, 5, 5)),
        ((21, b"swap 1 4\n"), no(Reason::BadSwap { number: 1 }, 5, 5)),
        (
            (22, b"swap 2 33\n"),
            no(Reason::BadSwap { number: 2 }, 5, 5),
        ),
        (
            (21, b"swap 1 2 2 3\n"),
            no(Reason::BadSwap { number: 1 }, 5, 5),
        ),
        (
            (23, b"no x5<2 by\n"),
            no(Reason::BadLemma { number: 1 }, 5, 5),
        ),
        (
            (23, b"no x5<2 by 4-5 7\n"),
            no(Reason::BadLemma { number: 1 }, 5, 5),
        ),
        (
            (28, b"no x3<3 by\n"),
            no(Reason::BadLemma { number: 6 }, 5, 5),
        ),
        (
            (24, b"no x4>=3 by 4-5 2\n"),
            no(Reason::BadLemma { number: 2 }, 5, 5),
        ),
        ((35, b"no x1<1 by 3-5\n"), no(Reason::BoundNotShown, 5, 5)),
    ];
    verify_all(&rt, rt.alloc(), STAR, &rows)?;
    let rows: [(Edit, Outcome); 3] = [
        ((0, b""), yes(5, 4)),
        ((11, b"bound 5\n"), no(Reason::BoundNotShown, 5, 5)),
        ((18, b"lemmas 1\n"), fault(19, DocKind::BadForm)),
    ];
    verify_all(&rt, rt.alloc(), FLOOR, &rows)
}

// Odd codes, and what the strip's width does.
#[test]
fn on_a_strip(rt: HostRuntime) -> Result<(), Fail> {
    let rows: [(Edit, Outcome); 7] = [
        ((0, b""), yes(4, 4)),
        ((11, b"bound 1\n"), yes(4, 1)),
        ((11, b"bound 5\n"), no(Reason::BadLemma { number: 2 }, 4, 5)),
        (
            (21, b"no x1>=5 by\n"),
            no(Reason::BadLemma { number: 1 }, 4, 4),
        ),
        ((21, b"no x2<4 by 1-2\n"), yes(4, 4)),
        ((21, b"no x2<=3 by 1-2\n"), yes(4, 4)),
        (
            (21, b"no x2<=4 by 1-2\n"),
            no(Reason::BadLemma { number: 1 }, 4, 4),
        ),
    ];
    verify_all(&rt, rt.alloc(), STRIP, &rows)
}

// A swap that isn't admissible; and lemmas that stand because the twelfth broke the root, where they name what is there.
#[test]
fn two_changes(rt: HostRuntime) -> Result<(), Fail> {
    let rows: [(Edit, Edit, Outcome); 4] = [
        (
            (21, b"swap 3 4\n"),
            (19, b"corner 1 2\n"),
            no(Reason::BadSwap { number: 1 }, 5, 5),
        ),
        ((35, b"no by\n"), (0, b""), yes(5, 5)),
        (
            (35, b"no x1<1 by 1-2 3\nno by\n"),
            (18, b"lemmas 14\n"),
            yes(5, 5),
        ),
        (
            (35, b"no x6<1 by\n"),
            (0, b""),
            no(Reason::BadLemma { number: 13 }, 5, 5),
        ),
    ];
    let tree = star(rt.alloc())?;
    for (first, second, wanted) in &rows {
        let once = with_edit(rt.alloc(), STAR, *first)?;
        let twice = with_edit(rt.alloc(), &once, *second)?;
        assert_eq!(rt; told(rt.alloc(), &tree, &twice, 512, 0)?, *wanted);
    }
    Ok(())
}

#[test]
fn no_hints_prove_too_much(rt: HostRuntime) -> Result<(), Fail> {
    let tree = star_of_four(rt.alloc())?;
    for number in 0..1296 {
        let text = with_hints(rt.alloc(), number)?;
        let wanted = no(Reason::BadLemma { number: 1 }, 2, 3);
        assert_eq!(rt; told(rt.alloc(), &tree, &text, 4096, 0)?, wanted);
    }
    Ok(())
}

#[test]
fn faults(rt: HostRuntime) -> Result<(), Fail> {
    let rows: [(Edit, Outcome); 19] = [
        ((1, b"boxpleat 1\n"), fault(1, DocKind::BadForm)),
        ((1, b"boxpleat 2\n"), fault(1, DocKind::BadForm)),
        ((2, b"sheet strip 01\n"), fault(2, DocKind::BadForm)),
        ((3, b"mirror book\n"), fault(3, DocKind::BadForm)),
        ((4, b"edges 4\n"), fault(9, DocKind::BadForm)),
        ((4, b"edges 6\n"), fault(10, DocKind::BadForm)),
        ((5, b"edge c p1 0\n"), fault(5, DocKind::BadTree)),
        ((13, b"point p1 3 4\n"), fault(13, DocKind::BadPoint)),
        ((17, b"proof none\n"), fault(17, DocKind::BadForm)),
        ((18, b"lemmas 0\n"), fault(18, DocKind::BadForm)),
        ((18, b"lemmas none\n"), fault(19, DocKind::BadForm)),
        ((18, b"lemmas 12\n"), fault(35, DocKind::BadForm)),
        ((18, b"lemmas 14\n"), fault(36, DocKind::BadForm)),
        ((20, b"swaps 1\n"), fault(22, DocKind::BadForm)),
        ((20, b"swaps 3\n"), fault(23, DocKind::BadForm)),
        ((20, b"swaps 497\n"), fault(20, DocKind::BadForm)),
        ((36, b"end\nx"), fault(37, DocKind::Trailing)),
        ((36, b"end\n\n"), fault(37, DocKind::Trailing)),
        ((36, b"end"), fault(36, DocKind::Cut)),
    ];
    verify_all(&rt, rt.alloc(), STAR, &rows)
}

// The text cut before each of its lines, and in the middle of them.
#[test]
fn cuts(rt: HostRuntime) -> Result<(), Fail> {
    let tree = star(rt.alloc())?;
    let mut line = 1u64;
    for at in 0..STAR.len() {
        if at > 0 && STAR[at - 1] == b'\n' {
            line = line.saturating_add(1);
        }
        let wanted = fault(line, DocKind::Cut);
        assert_eq!(rt; told(rt.alloc(), &tree, &STAR[..at], 64, 0)?, wanted);
    }
    Ok(())
}

#[test]
fn reads_fail(rt: HostRuntime) -> Result<(), Fail> {
    let tree = star(rt.alloc())?;
    assert_eq!(rt; told(rt.alloc(), &tree, STAR, 100, 3)?, Outcome::Read);
    Ok(())
}

#[test]
fn laws(rt: HostRuntime) -> Result<(), Fail> {
    let metric = Metric::of(rt.alloc(), &star(rt.alloc())?)?;
    law_of_certificates(&metric);
    law_of_verdicts();
    certifies_without_reason();
    one_reason();
    Ok(())
}
