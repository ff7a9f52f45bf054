ghost use Rattle.std.specs.Prelude.{◌≡◌, length, IfOk};
ghost use Rattle.bp_base.specs.Tree.{leaf_count};
ghost use Rattle.bp_certificate.specs.Scanning.{IsUnbroken};

use bp_arrangement::{Fact, Hint};
use bp_base::{Axis, MemSink, NoMemory, Pair, Sequence};
use bp_certificate::{
    Certificate, CertificateScanner, Lemma, Lemmas, law_of_long_certificate_lines,
    law_of_one_certificate, read_corner, read_lemma, read_lemma_count, read_swap,
    write_certificate,
};
use bp_document::{DocFault, DocKind, Document, ReadDoc, read_document};
use bp_text::line;
use std::alloc::Global;
use std::fmt::Debug;
use std::process::Abort;
use std::test::Fail;

// The lines of a star with five leaves, from the number of edges to the floor.
const BODY: &str =
    "edges 5\nedge c p1 2\nedge c p2 2\nedge c p3 2\nedge c p4 1\nedge c p5 1\nside 5\nbound 5\npoint p1 3 4\npoint p2 4 0\npoint p3 0 0\npoint p4 0 3\npoint p5 0 5\nfloor 2 4 1 2 3 4 5\n";

const SWAPS: [&str; 2] = ["swap 1 2", "swap 2 3"];

const LEMMAS: [&str; 13] = [
    "no x5<2 by 4-5",
    "no x4>=3 by 4-5",
    "no !y1<<y4 x2<3 !y4<<y2 by 1-2 2-4 1-4 2-4 1-4",
    "no y2<<y1 by 1-2 1-2 3 2-3 2-3 2-5 2-3 2-5 3-5 3-5",
    "no x2<3 by 1-2 1-2 1-2 1-2 2-4 1-4 2-4 1-4",
    "no x3<3 by 2-3",
    "no y2<3 by 2-3 2-5 2-3 2-5 3-5 3-5",
    "no !y3<<y2 by 2-3",
    "no !y5<<y2 by 2-5",
    "no y3>=1 by 2-3",
    "no y5>=2 by 2-5",
    "no !y3<<y5 by 3-5",
    "no by 3-5",
];

// The value, which is dropped where what filled it failed. The proof of a drop in place goes through all that the value holds, branch by
// branch; of a drop by a call, as here and below, it doesn't.
fn kept<T: Drop>(value: T, filled: Result<(), Fail>) -> Result<T, Fail> {
    filled?;
    Ok(value)
}

// The proof of a function grows with each `assert_eq!` in it, so it is called.
fn is<T: Copy + PartialEq + Debug>(rt: &impl Abort, value: T, wanted: T) {
    assert_eq!(rt; value, wanted);
}

fn push_parts(bytes: &mut Vec<u8>, parts: &[&str]) -> Result<(), Fail> {
    for part in parts {
        bytes.extend_from_slice(part.as_bytes())?;
    }
    Ok(())
}

fn push_lines(bytes: &mut Vec<u8>, lines: &[&str]) -> Result<(), Fail> {
    for line in lines {
        push_parts(bytes, &[line, "\n"])?;
    }
    Ok(())
}

fn push_text(bytes: &mut Vec<u8>) -> Result<(), Fail> {
    push_parts(bytes, &["boxpleat 3\nsheet square\nmirror none\n", BODY])?;
    push_lines(bytes, &["lemmas 13", "corner 4 5", "swaps 2"])?;
    push_lines(bytes, &SWAPS)?;
    push_lines(bytes, &LEMMAS)?;
    push_lines(bytes, &["end"])
}

// A whole certificate of these lines.
fn text(alloc: Global) -> Result<Vec<u8>, Fail> {
    let mut bytes = Vec::new(alloc);
    let filled = push_text(&mut bytes);
    kept(bytes, filled)
}

fn swap_of(alloc: Global, line: &str) -> Result<Option<Sequence<Pair>>, Fail> {
    match read_swap(alloc, line.as_bytes()) {
        Ok(swap) => Ok(swap),
        Err(NoMemory) => Err(Fail::from("no memory")),
    }
}

fn lemma_of(alloc: Global, line: &str) -> Result<Option<Lemma>, Fail> {
    match read_lemma(alloc, line.as_bytes()) {
        Ok(lemma) => Ok(lemma),
        Err(NoMemory) => Err(Fail::from("no memory")),
    }
}

fn push_swaps(alloc: Global, swaps: &mut Sequence<Sequence<Pair>>) -> Result<(), Fail> {
    for line in SWAPS {
        if let Some(swap) = swap_of(alloc, line)? {
            swaps.push(swap)?;
        }
    }
    Ok(())
}

fn all_swaps(alloc: Global) -> Result<Sequence<Sequence<Pair>>, Fail> {
    let mut swaps = Sequence::new(alloc);
    let filled = push_swaps(alloc, &mut swaps);
    kept(swaps, filled)
}

fn push_lemmas(alloc: Global, lemmas: &mut Sequence<Lemma>) -> Result<(), Fail> {
    for line in LEMMAS {
        if let Some(lemma) = lemma_of(alloc, line)? {
            lemmas.push(lemma)?;
        }
    }
    Ok(())
}

fn all_lemmas(alloc: Global) -> Result<Sequence<Lemma>, Fail> {
    let mut lemmas = Sequence::new(alloc);
    let filled = push_lemmas(alloc, &mut lemmas);
    kept(lemmas, filled)
}

// The lemmas of the lines, each read alone.
fn lemmas(alloc: Global) -> Result<Lemmas, Fail> {
    let lemmas = all_lemmas(alloc)?;
    match all_swaps(alloc) {
        Ok(swaps) => Ok(Lemmas {
            corner: Some(Pair { i: 4, j: 5 }),
            swaps,
            lemmas,
        }),
        Err(fail) => {
            drop(lemmas);
            Err(fail)
        }
    }
}

fn document_text(alloc: Global) -> Result<Vec<u8>, Fail> {
    let mut bytes = Vec::new(alloc);
    let parts = ["boxpleat 2\nsheet square\n", BODY, "proof none\nend\n"];
    let filled = push_parts(&mut bytes, &parts);
    kept(bytes, filled)
}

fn document(alloc: Global) -> Result<Document, Fail>
    ensures { IfOk result (λ D. length D.points ≡ leaf_count D.tree) }
{
    let bytes = document_text(alloc)?;
    let read = read_document(alloc, &bytes);
    drop(bytes);
    match read {
        Ok(document) => Ok(document),
        Err(_) => Err(Fail::from("no document")),
    }
}

fn of_document(document: Document, lemmas: Lemmas) -> Certificate
    requires { length document.points ≡ leaf_count document.tree }
    ensures { length result.points ≡ leaf_count result.tree }
{
    drop(document.proof);
    Certificate {
        tree: document.tree,
        sheet: document.sheet,
        side: document.side,
        bound: document.bound,
        points: document.points,
        floor: document.floor,
        lemmas: Some(lemmas),
    }
}

fn certificate(alloc: Global) -> Result<Certificate, Fail>
    ensures { IfOk result (λ C. length C.points ≡ leaf_count C.tree) }
{
    let lemmas = lemmas(alloc)?;
    match document(alloc) {
        Ok(document) => Ok(of_document(document, lemmas)),
        Err(fail) => {
            drop(lemmas);
            Err(fail)
        }
    }
}

fn is_text(rt: &impl Abort, alloc: Global, sink: &MemSink) -> Result<(), Fail> {
    let wanted = text(alloc)?;
    is(rt, sink.bytes.as_slice(), wanted.as_slice());
    Ok(())
}

fn is_written(rt: &impl Abort, alloc: Global, certificate: &Certificate) -> Result<(), Fail>
    requires { length certificate.now.points ≡ leaf_count certificate.now.tree }
{
    let mut sink = MemSink::new(alloc, 2000, 16, Vec::new(alloc))?;
    let _ = write_certificate(certificate, &mut sink);
    let result = is_text(rt, alloc, &sink);
    drop(sink);
    result
}

#[test]
fn a_certificate_is_written(rt: HostRuntime) -> Result<(), Fail> {
    let alloc = rt.alloc();
    let certificate = certificate(alloc)?;
    let result = is_written(&rt, alloc, &certificate);
    drop(certificate);
    result
}

fn is_lemma(rt: &impl Abort, alloc: Global, line: &str, wanted: bool) -> Result<(), Fail> {
    let is_one = is_some(lemma_of(alloc, line)?);
    is(rt, (line, is_one), (line, wanted));
    Ok(())
}

fn is_swap(rt: &impl Abort, alloc: Global, line: &str, wanted: bool) -> Result<(), Fail> {
    let swap = swap_of(alloc, line)?;
    let is_one = swap.is_some();
    drop(swap);
    is(rt, (line, is_one), (line, wanted));
    Ok(())
}

const LEMMA_LINES: [(&str, bool); 25] = [
    ("no by", true),
    ("no by 1", true),
    ("no x1<<x2 by", true),
    (
        "no !y31<<y32 x1>=0 x1>0 x1<0 x1<=999999999 by 1-2 999999999",
        true,
    ),
    ("no x1<<y2 by", false),
    ("no !x1<2 by", false),
    ("no x1>1000000000 by", false),
    ("no x1>01 by", false),
    ("no x01>1 by", false),
    ("no x1=1 by", false),
    ("no x1<<<x2 by", false),
    ("no z1>1 by", false),
    ("no x>1 by", false),
    ("no x1> by", false),
    ("no x1<<x2", false),
    ("no", false),
    ("no  by", false),
    ("no by ", false),
    ("no by x1>1", false),
    ("no by 1-", false),
    ("no by -1", false),
    ("no by 1-2-3", false),
    ("no by 01", false),
    ("No by", false),
    ("", false),
];

const SWAP_LINES: [(&str, bool); 9] = [
    ("swap 1 2", true),
    ("swap 3 1 2 999999999", true),
    ("swap", false),
    ("swap 1", false),
    ("swap 1 2 3", false),
    ("swap 1  2", false),
    ("swap 1 1000000000", false),
    (
        "swap 1 2 3 4 5 6 7 8 9 10 11 12 13 14 15 16 17 18 19 20 21 22 23 24 25 26 27 28 29 30 31 32",
        true,
    ),
    (
        "swap 1 2 3 4 5 6 7 8 9 10 11 12 13 14 15 16 17 18 19 20 21 22 23 24 25 26 27 28 29 30 31 32 1 2",
        false,
    ),
];

fn are_lemmas(rt: &impl Abort, alloc: Global, rows: &[(&str, bool)]) -> Result<(), Fail> {
    for (line, wanted) in rows {
        is_lemma(rt, alloc, line, *wanted)?;
    }
    Ok(())
}

fn are_swaps(rt: &impl Abort, alloc: Global, rows: &[(&str, bool)]) -> Result<(), Fail> {
    for (line, wanted) in rows {
        is_swap(rt, alloc, line, *wanted)?;
    }
    Ok(())
}

#[test]
fn single_lines(rt: HostRuntime) -> Result<(), Fail> {
    are_lemmas(&rt, rt.alloc(), &LEMMA_LINES)?;
    are_swaps(&rt, rt.alloc(), &SWAP_LINES)
}

const COUNT_LINES: [(&str, Option<Option<u64>>); 7] = [
    ("lemmas none", Some(None)),
    ("lemmas 1", Some(Some(1))),
    ("lemmas 2000000", Some(Some(2_000_000))),
    ("lemmas 2000001", None),
    ("lemmas 0", None),
    ("lemmas", None),
    ("lemmas 1 2", None),
];

const PAIR: Pair = Pair { i: 4, j: 5 };

const CORNER_LINES: [(&str, Option<Option<Pair>>); 6] = [
    ("corner none", Some(None)),
    ("corner 4 5", Some(Some(PAIR))),
    ("corner 4", None),
    ("corner 4 5 6", None),
    ("corner none 5", None),
    ("corner 4 05", None),
];

#[test]
fn other_lines(rt: HostRuntime) {
    for (line, wanted) in COUNT_LINES {
        let count = read_lemma_count(line.as_bytes());
        is(&rt, (line, count), (line, wanted));
    }
    for (line, wanted) in CORNER_LINES {
        let corner = read_corner(line.as_bytes());
        is(&rt, (line, corner), (line, wanted));
    }
}

const FACTS: [Fact; 6] = [
    Fact::Before {
        axis: Axis::X,
        first: 1,
        second: 2,
    },
    Fact::NotBefore {
        axis: Axis::Y,
        first: 3,
        second: 4,
    },
    Fact::Least {
        axis: Axis::X,
        leaf: 5,
        code: 12,
    },
    Fact::Least {
        axis: Axis::X,
        leaf: 5,
        code: 13,
    },
    Fact::Below {
        axis: Axis::Y,
        leaf: 7,
        code: 16,
    },
    Fact::Below {
        axis: Axis::Y,
        leaf: 7,
        code: 17,
    },
];

fn is_told_lemma(rt: &impl Abort, lemma: &Lemma) {
    is(rt, lemma.facts.as_slice(), &FACTS);
    let pair = Pair { i: 9, j: 10 };
    let hints = [Hint::Pair { pair }, Hint::Lemma { number: 11 }];
    is(rt, lemma.hints.as_slice(), &hints);
}

#[test]
fn facts_and_hints_are_told(rt: HostRuntime) -> Result<(), Fail> {
    let lemma = lemma_of(
        rt.alloc(),
        "no x1<<x2 !y3<<y4 x5>=6 x5>6 y7<8 y7<=8 by 9-10 11",
    )?;
    let Some(lemma) = lemma else {
        return Err(Fail::from("no lemma"));
    };
    is_told_lemma(&rt, &lemma);
    drop(lemma);
    Ok(())
}

// A document of this version is no document for the reader of versions 1 and 2.
#[test]
fn version_three_is_no_document(rt: HostRuntime) -> Result<(), Fail> {
    let bytes = text(rt.alloc())?;
    let read = read_document(rt.alloc(), &bytes);
    drop(bytes);
    let line = fault_line(&read);
    drop(read);
    is(&rt, line, Some(1));
    Ok(())
}

fn fault_line(read: &Result<Document, ReadDoc>) -> Option<u64> {
    match read {
        Err(ReadDoc::Fault(fault)) => Some(fault.line),
        _ => None,
    }
}

// Whether there is a lemma, which is dropped.
fn is_some(lemma: Option<Lemma>) -> bool {
    let is_some = lemma.is_some();
    drop(lemma);
    is_some
}

// Feeds the lines of a text, and counts its lemmas.
fn feed_lines(scanner: &mut CertificateScanner, bytes: &[u8]) -> Result<u64, Fail>
    requires { IsUnbroken scanner.old }
    ensures { IfOk result (λ _. IsUnbroken scanner.new) }
{
    let mut lemmas: u64 = 0;
    let mut at = 0;
    while let Some(here) = line(bytes, at) {
        let text = &bytes[here.from as usize..here.to as usize];
        match scanner.feed(text, here.ended) {
            Err(_) => return Err(Fail::from("a fault")),
            Ok(lemma) => lemmas = lemmas.wrapping_add(u64::from(is_some(lemma))),
        }
        at = here.next;
    }
    Ok(lemmas)
}

// Whether all lines were fed, and the head was told.
fn is_told(scanner: &CertificateScanner) -> bool
    requires { IsUnbroken scanner.now }
{
    let Some(head) = scanner.head() else {
        return false;
    };
    scanner.finish().is_ok() && head.side == 5 && head.plan.is_some()
}

// Whether no line was fed.
fn is_fresh(scanner: &CertificateScanner) -> bool
    requires { IsUnbroken scanner.now }
{
    let kind = DocKind::Cut;
    scanner.head().is_none() && scanner.finish() == Err(DocFault { line: 1, kind })
}

// Feeds a certificate; whether its head was told, and how many lemmas it has.
fn scan(scanner: &mut CertificateScanner, bytes: &[u8]) -> Result<(bool, u64), Fail>
    requires { IsUnbroken scanner.old }
{
    let fresh = is_fresh(scanner);
    let lemmas = feed_lines(scanner, bytes)?;
    Ok((fresh && is_told(scanner), lemmas))
}

fn scan_text(alloc: Global, bytes: &[u8]) -> Result<(bool, u64), Fail> {
    let mut scanner = CertificateScanner::open(alloc)?;
    let told = scan(&mut scanner, bytes);
    drop(scanner);
    told
}

fn scanned(alloc: Global) -> Result<(bool, u64), Fail> {
    law_of_long_certificate_lines();
    law_of_one_certificate();
    let bytes = text(alloc)?;
    let told = scan_text(alloc, &bytes);
    drop(bytes);
    told
}

#[test]
fn line_by_line(rt: HostRuntime) -> Result<(), Fail> {
    is(&rt, scanned(rt.alloc())?, (true, 13));
    Ok(())
}
