ghost use Rattle.std.specs.Prelude.{IfOk};
ghost use Rattle.bp_document.specs.Scanning.{IsUnbroken};

use bp_base::{MemSink, NoMemory, Sheet};
use bp_document::{
    DocFault, DocKind, Document, ReadDoc, Scanner, field_of, law_of_long_lines, law_of_one_answer,
    law_of_sizes, read_document, sheet_form, write_document,
};
use bp_text::line;
use std::alloc::Global;
use std::test::Fail;

fn moves<T: Send>(_: &T) {}

// A document may go to another thread.
fn crosses(document: &Document) {
    moves(document);
}

// A document in both versions, and one whose lines of nodes are of all forms.
const FIRST: &str =
    "boxpleat 1\nedges 5\nedge c p 2\nedge c q 2\nedge c r 2\nedge c s 1\nedge c t 1\nside 5\nbound 4\npoint p 0 0\npoint q 0 4\npoint r 4 0\npoint s 3 3\npoint t 3 5\nfloor 2 4 1 2 3 4 5\nproof 2\n0 split 1 2\n1 open x 1 2\nend\n";

const SECOND: &str =
    "boxpleat 2\nsheet square\nedges 5\nedge c p 2\nedge c q 2\nedge c r 2\nedge c s 1\nedge c t 1\nside 5\nbound 4\npoint p 0 0\npoint q 0 4\npoint r 4 0\npoint s 3 3\npoint t 3 5\nfloor 2 4 1 2 3 4 5\nproof 2\n0 split 1 2\n1 open x 1 2\nend\n";

const NINE: &str =
    "boxpleat 2\nsheet square\nedges 3\nedge c p 1\nedge c q 1\nedge c r 1\nside 2\nbound 2\npoint p 0 0\npoint q 0 2\npoint r 2 0\nfloor 2 0 1\nproof 9\n0 split 1 2\n1 split 1 3\n2 walk x 1 2\n2 split 2 3\n3 cycle x 1 2 3\n3 walk x 1 2\n3 walk x 1 2\n3 walk x 1 2\n2 walk x 1 2\nend\n";

const FORMS: &str =
    "boxpleat 2\nsheet strip 4\nedges 2\nedge c p 1\nedge c q 1\nside 2\nbound 2\npoint p 0 0\npoint q 0 2\nfloor 2 0 1\nproof 6\n0 split 1 2\n1 walk x 1 2\n1 open y 999999999\n1 cycle y 1\n1 split 7 3\n1 open cycle x 2 1\nend\n";

const NONE: &str =
    "boxpleat 2\nsheet strip 0\nedges 4\nedge c p 1\nedge c q 1\nedge c r 1\nedge c s 1\nside 6\nbound 6\npoint p 0 0\npoint q 0 2\npoint r 0 4\npoint s 0 6\nfloor 2 6 1 2 3 4\nproof none\nend\n";

fn fault_of(alloc: Global, bytes: &[u8]) -> Option<DocFault> {
    match read_document(alloc, bytes) {
        Err(ReadDoc::Fault(fault)) => Some(fault),
        _ => None,
    }
}

// Whether what is read from a text is written as this one.
fn rewrites(alloc: Global, text: &str, want: &str) -> Result<bool, Fail> {
    let document = match read_document(alloc, text.as_bytes()) {
        Ok(document) => document,
        Err(_) => return Err(Fail::from("no document")),
    };
    let mut sink = MemSink::new(alloc, 1000, 16, Vec::new(alloc))?;
    let _ = write_document(&document, &mut sink);
    Ok(sink.bytes.as_slice() == want.as_bytes())
}

#[test]
fn documents_are_read(rt: HostRuntime) -> Result<(), Fail> {
    let rows = [
        (FIRST, SECOND),
        (SECOND, SECOND),
        (NINE, NINE),
        (FORMS, FORMS),
        (NONE, NONE),
    ];
    for (text, want) in rows {
        assert!(rt; rewrites(rt.alloc(), text, want)?, "{text}");
    }
    law_of_one_answer();
    law_of_long_lines();
    law_of_sizes();
    Ok(())
}

// The text cut after each of its bytes, and with one byte more.
#[test]
fn cut_documents(rt: HostRuntime) -> Result<(), Fail> {
    for text in [FIRST, SECOND] {
        let mut line: u64 = 1;
        for (at, byte) in text.as_bytes().iter().enumerate() {
            let kind = DocKind::Cut;
            assert_eq!(rt;
                fault_of(rt.alloc(), &text.as_bytes()[..at]),
                Some(DocFault { line, kind })
            );
            if *byte == b'\n' {
                line = line.wrapping_add(1);
            }
        }
        let mut longer = Vec::from_slice(rt.alloc(), text.as_bytes())?;
        longer.push(b'\n')?;
        let kind = DocKind::Trailing;
        assert_eq!(rt;
            fault_of(rt.alloc(), &longer),
            Some(DocFault { line, kind })
        );
    }
    Ok(())
}

// The text with other lines in the place of those that are this one.
fn changed(alloc: Global, text: &str, from: &str, to: &str) -> Result<Vec<u8>, Fail> {
    let mut bytes = Vec::new(alloc);
    for old in text.split('\n') {
        if !old.is_empty() {
            let new = if old == from { to } else { old };
            bytes.extend_from_slice(new.as_bytes())?;
            bytes.push(b'\n')?;
        }
    }
    Ok(bytes)
}

#[test]
fn one_change(rt: HostRuntime) -> Result<(), Fail> {
    let rows = [
        ("proof 2", "proof 3", 19, DocKind::BadForm),
        ("proof 2", "proof 1", 18, DocKind::BadForm),
        ("proof 2", "proof 0", 16, DocKind::BadForm),
        ("0 split 1 2", "1 split 1 2", 17, DocKind::BadDepth),
        ("1 open x 1 2", "2 open x 1 2", 18, DocKind::BadDepth),
        ("1 open x 1 2", "497 open x 1 2", 18, DocKind::BadDepth),
        ("edge c p 2", "edge c p 0", 3, DocKind::BadTree),
        ("edge c t 1", "edge x t 1", 7, DocKind::BadTree),
        ("edge c t 1", "edge s t 1", 13, DocKind::BadPoint),
        ("edge c q 2", "edge c q! 2", 4, DocKind::BadForm),
        ("edge c q 2", "edge c q 0", 4, DocKind::BadTree),
        ("edge c q 2", "edge c q 1001", 4, DocKind::BadTree),
        ("edge c q 2", "edge c q 1000000000", 4, DocKind::BadForm),
        ("edge c q 2", "edge x q 2", 4, DocKind::BadTree),
        ("edge c q 2", "edge c p 2", 4, DocKind::BadTree),
        ("point q 0 4", "point p 0 4", 11, DocKind::BadPoint),
        ("point q 0 4", "point q 0 04", 11, DocKind::BadForm),
        ("point q 0 4", "side 5", 11, DocKind::BadForm),
        ("floor 2 4 1 2 3 4 5", "floor 2 4", 15, DocKind::BadForm),
        ("side 5", "side 1000000000", 8, DocKind::BadForm),
        ("end", "end ", 19, DocKind::BadForm),
        ("boxpleat 1", "boxpleat 3", 1, DocKind::BadForm),
        (
            "boxpleat 1",
            "boxpleat 2\nsheet strip 01",
            2,
            DocKind::BadForm,
        ),
    ];
    for (from, to, line, kind) in rows {
        let bytes = changed(rt.alloc(), FIRST, from, to)?;
        assert_eq!(rt;
            fault_of(rt.alloc(), &bytes),
            Some(DocFault { line, kind }),
            "{to}"
        );
    }
    let bytes = changed(rt.alloc(), FIRST, "side 5", "side 999999999")?;
    assert_eq!(rt; fault_of(rt.alloc(), &bytes), None);
    Ok(())
}

// Whether the last node's line has the form of one.
fn is_of_form(alloc: Global, text: &str) -> Result<bool, Fail> {
    let bytes = changed(alloc, FORMS, "1 open cycle x 2 1", text)?;
    let line = 17;
    let kind = DocKind::BadForm;
    Ok(fault_of(alloc, &bytes) != Some(DocFault { line, kind }))
}

#[test]
fn node_lines_are_read(rt: HostRuntime) -> Result<(), Fail> {
    let rows = [
        ("0 split 10 12", true),
        ("3 cycle x 1 2 3", true),
        ("3 walk y 1", true),
        ("2 open y 999999999", true),
        ("1 open cycle x 2 10", true),
        ("999999999 split 0 0", true),
        ("1000000000 split 0 0", false),
        ("0 split 1 02", false),
        ("0 split 1", false),
        ("0 split 1 2 3", false),
        ("0  split 1 2", false),
        ("0 split 1 2 ", false),
        (" 0 split 1 2", false),
        ("0 walk x", false),
        ("0 walk z 1", false),
        ("0 open walk x 1", false),
        ("0 cycle x 1000000000", false),
        (
            "0 walk x 1 2 3 4 5 6 7 8 9 0 1 2 3 4 5 6 7 8 9 0 1 2 3 4 5 6 7 8 9 0 1 2",
            true,
        ),
        (
            "0 walk x 1 2 3 4 5 6 7 8 9 0 1 2 3 4 5 6 7 8 9 0 1 2 3 4 5 6 7 8 9 0 1 2 3",
            false,
        ),
        ("121 foo", false),
        ("", false),
    ];
    for (text, want) in rows {
        assert_eq!(rt; is_of_form(rt.alloc(), text)?, want, "{text}");
    }
    Ok(())
}

#[test]
fn depths(rt: HostRuntime) -> Result<(), Fail> {
    let rows = [
        ("0 split 1 2", "1 split 1 2", 12),
        ("1 walk x 1 2", "0 walk x 1 2", 13),
        ("1 walk x 1 2", "2 walk x 1 2", 13),
        ("1 open y 999999999", "2 open y 999999999", 14),
        ("1 split 7 3", "2 split 7 3", 16),
        ("1 open cycle x 2 1", "3 open cycle x 2 1", 17),
    ];
    for (from, to, line) in rows {
        let bytes = changed(rt.alloc(), FORMS, from, to)?;
        let kind = DocKind::BadDepth;
        assert_eq!(rt;
            fault_of(rt.alloc(), &bytes),
            Some(DocFault { line, kind }),
            "{to}"
        );
    }
    let bytes = changed(
        rt.alloc(),
        FORMS,
        "1 open cycle x 2 1",
        "2 open cycle x 2 1",
    )?;
    assert_eq!(rt; fault_of(rt.alloc(), &bytes), None);
    Ok(())
}

#[test]
fn single_fields(rt: HostRuntime) -> Result<(), Fail> {
    assert_eq!(rt;
        field_of(b"side 999999999", b"side", 0, 999_999_999),
        Some(999_999_999)
    );
    assert_eq!(rt; field_of(b"edges 64", b"edges", 2, 63), None);
    assert_eq!(rt; sheet_form(b"sheet square"), Some(Sheet::Square));
    assert_eq!(rt;
        sheet_form(b"sheet strip 999999"),
        Some(Sheet::Strip { width: 999_999 })
    );
    assert_eq!(rt; sheet_form(b"sheet strip 01"), None);
    Ok(())
}

// Feeds the lines of a text, and counts its nodes.
fn feed_lines(scanner: &mut Scanner, bytes: &[u8]) -> Result<u64, Fail>
    requires { IsUnbroken scanner.old }
    ensures { IfOk result (λ _. IsUnbroken scanner.new) }
{
    let mut nodes: u64 = 0;
    let mut at = 0;
    while let Some(here) = line(bytes, at) {
        let text = &bytes[here.from as usize..here.to as usize];
        match scanner.feed(text, here.ended) {
            Err(_) => return Err(Fail::from("a fault")),
            Ok(None) => {}
            Ok(Some(_)) => nodes = nodes.wrapping_add(1),
        }
        at = here.next;
    }
    Ok(nodes)
}

// Whether all lines were fed, and the head was told.
fn is_told(scanner: &Scanner) -> bool
    requires { IsUnbroken scanner.now }
{
    let Some(head) = scanner.head() else {
        return false;
    };
    scanner.finish().is_ok() && head.side == 2 && head.proof == Some(9)
}

// Whether no line was fed.
fn is_fresh(scanner: &Scanner) -> bool
    requires { IsUnbroken scanner.now }
{
    let kind = DocKind::Cut;
    scanner.head().is_none() && scanner.finish() == Err(DocFault { line: 1, kind })
}

// Feeds a document; whether its head was told, and how many nodes it has.
fn scan(scanner: &mut Scanner) -> Result<(bool, u64), Fail>
    requires { IsUnbroken scanner.old }
{
    let fresh = is_fresh(scanner);
    let nodes = feed_lines(scanner, NINE.as_bytes())?;
    Ok((fresh && is_told(scanner), nodes))
}

fn scanned(alloc: Global) -> Result<(bool, u64), Fail> {
    match Scanner::open(alloc) {
        Ok(scanner) => {
            let mut scanner = scanner;
            scan(&mut scanner)
        }
        Err(NoMemory) => Err(Fail::from("no memory")),
    }
}

#[test]
fn line_by_line(rt: HostRuntime) -> Result<(), Fail> {
    assert_eq!(rt; scanned(rt.alloc())?, (true, 9));
    Ok(())
}
