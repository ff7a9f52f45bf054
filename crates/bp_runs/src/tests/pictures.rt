// Pictures of documents, and the pages of help and version.
use super::{Faults, NONE, leave};
use bp_engine::{HELP, VERSION};
use std::alloc::Global;
use std::process::Abort;
use std::test::Fail;
use std::thread::Threads;

const STAR: &str =
    "boxpleat 2\nsheet square\nedges 4\nedge c p 1\nedge c q 1\nedge c r 1\nedge c s 1\nside 2\nbound 2\npoint p 0 0\npoint q 0 2\npoint r 2 0\npoint s 2 2\nfloor 2 2 1 2 3 4\nproof none\nend\n";

fn check<R: Abort + Threads + Sync>(
    rt: &R,
    alloc: Global,
    rows: &[(&str, u8, &str, &str)],
) -> Result<(), Fail> {
    for (document, number, out, err) in rows {
        let left = leave(rt, alloc, "picture", b"", document.as_bytes(), NONE)?;
        assert_eq!(rt; left.number, *number, "{document}");
        assert_eq!(rt; left.out.as_slice(), out.as_bytes(), "{document}");
        assert_eq!(rt; left.err.as_slice(), err.as_bytes(), "{document}");
    }
    Ok(())
}

// The path of the ring's river `a` has two loops, so its hole isn't filled.
#[test]
fn pictures(rt: HostRuntime) -> Result<(), Fail> {
    let rows = [
        (
            STAR,
            0,
            "<svg xmlns=\"http://www.w3.org/2000/svg\" width=\"840\" height=\"840\" viewBox=\"-120 -120 2240 2240\">\n<title>side 2 bound 2</title>\n<g transform=\"scale(1000)\">\n<rect width=\"2\" height=\"2\" fill=\"#fff\"/>\n<path fill=\"rgb(247,210,170)\" fill-rule=\"evenodd\" d=\"M0 2 1 2 1 1 0 1 Z\"><title>p</title></path>\n<path fill=\"rgb(231,242,150)\" fill-rule=\"evenodd\" d=\"M0 1 1 1 1 0 0 0 Z\"><title>q</title></path>\n<path fill=\"rgb(255,210,130)\" fill-rule=\"evenodd\" d=\"M1 2 2 2 2 1 1 1 Z\"><title>r</title></path>\n<path fill=\"rgb(239,226,190)\" fill-rule=\"evenodd\" d=\"M1 1 2 1 2 0 1 0 Z\"><title>s</title></path>\n<g fill=\"none\" pointer-events=\"none\">\n<path stroke=\"#000\" stroke-opacity=\"0.1\" stroke-width=\"0.002\" d=\"M1 0V2M0 1H2\"/>\n<path stroke=\"#2f4858\" stroke-width=\"0.004\" d=\"M0 2 1 2 1 1 0 1 ZM0 1 1 1 1 0 0 0 ZM1 2 2 2 2 1 1 1 ZM1 1 2 1 2 0 1 0 Z\"/>\n<rect width=\"2\" height=\"2\" stroke=\"#1b2a33\" stroke-width=\"0.008\"/>\n</g>\n</g>\n<g fill=\"#1b2a33\" font-family=\"monospace\" text-anchor=\"middle\" pointer-events=\"none\">\n<circle cx=\"0\" cy=\"2000\" r=\"14\"/><text x=\"500\" y=\"1972\" font-size=\"48\">p</text>\n<circle cx=\"0\" cy=\"0\" r=\"14\"/><text x=\"500\" y=\"61\" font-size=\"48\">q</text>\n<circle cx=\"2000\" cy=\"2000\" r=\"14\"/><text x=\"1500\" y=\"1972\" font-size=\"48\">r</text>\n<circle cx=\"2000\" cy=\"0\" r=\"14\"/><text x=\"1500\" y=\"61\" font-size=\"48\">s</text>\n</g>\n</svg>\n",
            "",
        ),
        (
            "boxpleat 2\nsheet square\nedges 6\nedge r a 2\nedge r b 2\nedge a a1 1\nedge a a2 1\nedge b b1 1\nedge b b2 1\nside 6\nbound 6\npoint a1 0 0\npoint a2 0 2\npoint b1 6 0\npoint b2 6 2\nfloor 6 6 1 3\nproof none\nend\n",
            0,
            "<svg xmlns=\"http://www.w3.org/2000/svg\" width=\"840\" height=\"840\" viewBox=\"-360 -360 6720 6720\">\n<title>side 6 bound 6</title>\n<g transform=\"scale(1000)\">\n<rect width=\"6\" height=\"6\" fill=\"#fff\"/>\n<path fill=\"rgb(158,210,242)\" fill-rule=\"evenodd\" d=\"M0 6 3 6 3 1 0 1 Z\"><title>a</title></path>\n<path fill=\"rgb(194,182,232)\" fill-rule=\"evenodd\" d=\"M3 6 6 6 6 1 3 1 Z\"><title>b</title></path>\n<path fill=\"rgb(255,210,130)\" fill-rule=\"evenodd\" d=\"M0 6 1 6 1 5 0 5 Z\"><title>a1</title></path>\n<path fill=\"rgb(239,226,190)\" fill-rule=\"evenodd\" d=\"M0 5 1 5 1 3 0 3 Z\"><title>a2</title></path>\n<path fill=\"rgb(231,194,170)\" fill-rule=\"evenodd\" d=\"M5 6 6 6 6 5 5 5 Z\"><title>b1</title></path>\n<path fill=\"rgb(247,226,150)\" fill-rule=\"evenodd\" d=\"M5 5 6 5 6 3 5 3 Z\"><title>b2</title></path>\n<g fill=\"none\" pointer-events=\"none\">\n<path stroke=\"#000\" stroke-opacity=\"0.1\" stroke-width=\"0.006\" d=\"M1 0V6M0 1H6M2 0V6M0 2H6M3 0V6M0 3H6M4 0V6M0 4H6M5 0V6M0 5H6\"/>\n<path stroke=\"#2f4858\" stroke-width=\"0.012\" d=\"M0 6 3 6 3 1 0 1 ZM3 6 6 6 6 1 3 1 ZM0 6 1 6 1 5 0 5 ZM0 5 1 5 1 3 0 3 ZM5 6 6 6 6 5 5 5 ZM5 5 6 5 6 3 5 3 Z\"/>\n<rect width=\"6\" height=\"6\" stroke=\"#1b2a33\" stroke-width=\"0.024\"/>\n</g>\n</g>\n<g fill=\"#1b2a33\" font-family=\"monospace\" text-anchor=\"middle\" pointer-events=\"none\">\n<circle cx=\"0\" cy=\"6000\" r=\"42\"/><text x=\"500\" y=\"5916\" font-size=\"144\">a1</text>\n<circle cx=\"0\" cy=\"4000\" r=\"42\"/><text x=\"500\" y=\"3916\" font-size=\"144\">a2</text>\n<circle cx=\"6000\" cy=\"6000\" r=\"42\"/><text x=\"5500\" y=\"5916\" font-size=\"144\">b1</text>\n<circle cx=\"6000\" cy=\"4000\" r=\"42\"/><text x=\"5500\" y=\"3916\" font-size=\"144\">b2</text>\n</g>\n</svg>\n",
            "",
        ),
        (
            "boxpleat 1\nedges 6\nedge r a 1\nedge r c 1\nedge a p 1\nedge a q 1\nedge a s 1\nedge a t 1\nside 9\nbound 3\npoint c 9 0\npoint p 2 2\npoint q 6 3\npoint s 5 7\npoint t 1 6\nfloor 3 3 1 2\nproof none\nend\n",
            0,
            "<svg xmlns=\"http://www.w3.org/2000/svg\" width=\"840\" height=\"840\" viewBox=\"-540 -540 10080 10080\">\n<title>side 9 bound 3</title>\n<g transform=\"scale(1000)\">\n<rect width=\"9\" height=\"9\" fill=\"#fff\"/>\n<path fill=\"rgb(158,210,242)\" fill-rule=\"evenodd\" d=\"M0 9 4 9 4 8 8 8 8 4 7 4 7 0 3 0 3 1 0 1 ZM3 5 3 4 4 4 4 5 Z\"><title>a</title></path>\n<path fill=\"rgb(231,242,150)\" fill-rule=\"evenodd\" d=\"M8 9 9 9 9 8 8 8 Z\"><title>c</title></path>\n<path fill=\"rgb(255,210,130)\" fill-rule=\"evenodd\" d=\"M1 8 3 8 3 6 1 6 Z\"><title>p</title></path>\n<path fill=\"rgb(239,226,190)\" fill-rule=\"evenodd\" d=\"M5 7 7 7 7 5 5 5 Z\"><title>q</title></path>\n<path fill=\"rgb(231,194,170)\" fill-rule=\"evenodd\" d=\"M4 3 6 3 6 1 4 1 Z\"><title>s</title></path>\n<path fill=\"rgb(247,226,150)\" fill-rule=\"evenodd\" d=\"M0 4 2 4 2 2 0 2 Z\"><title>t</title></path>\n<g fill=\"none\" pointer-events=\"none\">\n<path stroke=\"#000\" stroke-opacity=\"0.1\" stroke-width=\"0.009\" d=\"M1 0V9M0 1H9M2 0V9M0 2H9M3 0V9M0 3H9M4 0V9M0 4H9M5 0V9M0 5H9M6 0V9M0 6H9M7 0V9M0 7H9M8 0V9M0 8H9\"/>\n<path stroke=\"#2f4858\" stroke-width=\"0.018\" d=\"M0 9 4 9 4 8 8 8 8 4 7 4 7 0 3 0 3 1 0 1 ZM3 5 3 4 4 4 4 5 ZM8 9 9 9 9 8 8 8 ZM1 8 3 8 3 6 1 6 ZM5 7 7 7 7 5 5 5 ZM4 3 6 3 6 1 4 1 ZM0 4 2 4 2 2 0 2 Z\"/>\n<rect width=\"9\" height=\"9\" stroke=\"#1b2a33\" stroke-width=\"0.036\"/>\n</g>\n</g>\n<g fill=\"#1b2a33\" font-family=\"monospace\" text-anchor=\"middle\" pointer-events=\"none\">\n<circle cx=\"9000\" cy=\"9000\" r=\"63\"/><text x=\"8500\" y=\"8874\" font-size=\"216\">c</text>\n<circle cx=\"2000\" cy=\"7000\" r=\"63\"/><text x=\"2000\" y=\"6874\" font-size=\"216\">p</text>\n<circle cx=\"6000\" cy=\"6000\" r=\"63\"/><text x=\"6000\" y=\"5874\" font-size=\"216\">q</text>\n<circle cx=\"5000\" cy=\"2000\" r=\"63\"/><text x=\"5000\" y=\"2277\" font-size=\"216\">s</text>\n<circle cx=\"1000\" cy=\"3000\" r=\"63\"/><text x=\"1000\" y=\"3277\" font-size=\"216\">t</text>\n</g>\n</svg>\n",
            "",
        ),
        (
            "boxpleat 2\nsheet strip 0\nedges 4\nedge c p 1\nedge c q 1\nedge c r 1\nedge c s 1\nside 6\nbound 6\npoint p 0 0\npoint q 0 2\npoint r 0 4\npoint s 0 6\nfloor 2 6 1 2 3 4\nproof none\nend\n",
            7,
            "no StripSheet\n",
            "",
        ),
        (
            "boxpleat 2\nsheet square\nedges 4\nedge c p 1\nedge c q 1\nedge c r 1\nedge c s 1\nside 2\nbound 2\npoint p 0 0\npoint q 0 1\npoint r 2 0\npoint s 2 2\nfloor 2 2 1 2 3 4\nproof none\nend\n",
            7,
            "no TooNear 1 2\n",
            "",
        ),
        ("boxpleat 2\n", 1, "", "document: line 2: Cut\n"),
    ];
    check(&rt, rt.alloc(), &rows)
}

// Without a grid, and with numbers as great as a document has.
#[test]
fn picture_of_a_great_sheet(rt: HostRuntime) -> Result<(), Fail> {
    let great =
        "boxpleat 2\nsheet square\nedges 4\nedge c p 1\nedge c q 1\nedge c r 1\nedge c s 1\nside 999999999\nbound 2\npoint p 0 0\npoint q 0 2\npoint r 2 0\npoint s 2 2\nfloor 2 2 1 2 3 4\nproof none\nend\n";
    let left = leave(&rt, rt.alloc(), "picture", b"", great.as_bytes(), NONE)?;
    assert_eq!(rt; left.number, 0);
    assert!(rt; left.out.len() < 2000);
    Ok(())
}

#[test]
fn pages(rt: HostRuntime) -> Result<(), Fail> {
    let alloc = rt.alloc();
    for (word, page) in [
        ("help", HELP.as_slice()),
        ("--help", HELP.as_slice()),
        ("version", VERSION.as_slice()),
        ("--version", VERSION.as_slice()),
    ] {
        let left = leave(&rt, alloc, word, b"", b"", NONE)?;
        assert_eq!(rt; left.number, 0);
        assert_eq!(rt; left.out.as_slice(), page);
        assert_eq!(rt; left.err.len(), 0);
    }
    let behind = leave(&rt, alloc, "design --help", b"", b"", NONE)?;
    assert_eq!(rt; behind.number, 2);
    Ok(())
}

// A sink that fails holds a front of the text.
#[test]
fn faults_of_writing(rt: HostRuntime) -> Result<(), Fail> {
    let alloc = rt.alloc();
    let second = Faults { write: 2, ..NONE };
    for (line, front) in [
        ("picture", b"<svg xmlns=\"http".as_slice()),
        ("help", b"boxpleat: the sm".as_slice()),
    ] {
        let left = leave(&rt, alloc, line, b"", STAR.as_bytes(), second)?;
        assert_eq!(rt; left.number, 5);
        assert_eq!(rt; left.out.as_slice(), front);
    }
    Ok(())
}
