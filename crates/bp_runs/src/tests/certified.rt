// `contours`, `pieces` and `picture` of certificates.
use super::certificates::{BEETLE, STAR};
use super::{Faults, NONE, leave};
use std::alloc::Global;
use std::process::Abort;
use std::str;
use std::test::Fail;
use std::thread::Threads;

// The same placements as documents, whose bounds are those of their floors.
const STAR_DESIGN: &str =
    "boxpleat 2\nsheet square\nedges 5\nedge c p1 2\nedge c p2 2\nedge c p3 2\nedge c p4 1\nedge c p5 1\nside 5\nbound 4\npoint p1 3 4\npoint p2 4 0\npoint p3 0 0\npoint p4 0 3\npoint p5 0 5\nfloor 2 4 1 2 3 4 5\nproof none\nend\n";

const BEETLE_DESIGN: &str =
    "boxpleat 2\nsheet square\nedges 11\nedge thorax front 3\nedge front antenna_l 4\nedge front antenna_r 4\nedge front head 2\nedge thorax leg1 6\nedge thorax leg2 6\nedge thorax leg3 6\nedge thorax leg4 6\nedge thorax leg5 6\nedge thorax leg6 6\nedge thorax abdomen 5\nside 25\nbound 24\npoint antenna_l 25 0\npoint antenna_r 13 0\npoint head 19 0\npoint leg1 12 13\npoint leg2 11 25\npoint leg3 0 12\npoint leg4 24 13\npoint leg5 23 25\npoint leg6 0 0\npoint abdomen 0 23\nfloor 12 24 1 4 5 6 7 8 9\nproof none\nend\n";

// A strip's certificate, by hand: three long branches don't stand side by side.
const STRIP: &str =
    "boxpleat 3\nsheet strip 5\nmirror none\nedges 5\nedge c p1 2\nedge c p2 2\nedge c p3 2\nedge c p4 1\nedge c p5 1\nside 4\nbound 4\npoint p1 0 0\npoint p2 4 0\npoint p3 0 4\npoint p4 3 3\npoint p5 5 3\nfloor 4 4 1 2 3\nlemmas 2\ncorner 1 2\nswaps 0\nno x1>5 by\nno by 1-2 1-3 2-3\nend\n";

const LINES: [&str; 3] = ["contours", "pieces", "picture"];

// What the commands write of a certificate is what they write of the document, but for the bound in a picture's title.
fn is_drawn_alike<R: Abort + Threads + Sync>(
    rt: &R,
    alloc: Global,
    certificate: &str,
    design: &str,
    (old, new): (&str, &str),
) -> Result<(), Fail> {
    for line in LINES {
        let left = leave(rt, alloc, line, b"", certificate.as_bytes(), NONE)?;
        let other = leave(rt, alloc, line, b"", design.as_bytes(), NONE)?;
        assert_eq!(rt; left.number, 0, "{line}");
        assert_eq!(rt; other.number, 0, "{line}");
        let drawing = str::from_utf8(&other.out)?.replace(alloc, old, new)?;
        assert_eq!(rt; str::from_utf8(&left.out)?, drawing.as_str(), "{line}");
        assert_eq!(rt; left.err.len(), 0, "{line}");
    }
    Ok(())
}

#[test]
fn drawn_as_documents_are(rt: HostRuntime) -> Result<(), Fail> {
    let alloc = rt.alloc();
    let star = ("side 5 bound 4<", "side 5 bound 5<");
    is_drawn_alike(&rt, alloc, STAR, STAR_DESIGN, star)?;
    let beetle = ("side 25 bound 24<", "side 25 bound 25<");
    is_drawn_alike(&rt, alloc, BEETLE, BEETLE_DESIGN, beetle)?;
    let floor =
        "boxpleat 3\nsheet square\nmirror none\nedges 2\nedge c p 1\nedge c q 1\nside 2\nbound 2\npoint p 0 0\npoint q 0 2\nfloor 2 2 1 2\nlemmas none\nend\n";
    let design =
        "boxpleat 1\nedges 2\nedge c p 1\nedge c q 1\nside 2\nbound 2\npoint p 0 0\npoint q 0 2\nfloor 2 2 1 2\nproof none\nend\n";
    is_drawn_alike(&rt, alloc, floor, design, ("", ""))
}

// All three commands end with this status and these texts.
fn ends<R: Abort + Threads + Sync>(
    rt: &R,
    alloc: Global,
    text: &str,
    rows: &[(&str, &str, u8, &str, &str)],
) -> Result<(), Fail> {
    for (old, new, number, out, err) in rows {
        let changed = text.replace(alloc, old, new)?;
        for line in LINES {
            let left = leave(rt, alloc, line, b"", changed.as_bytes(), NONE)?;
            assert_eq!(rt; left.number, *number, "{line}, {new}");
            assert_eq!(rt; left.out.as_slice(), out.as_bytes(), "{line}, {new}");
            assert_eq!(rt; left.err.as_slice(), err.as_bytes(), "{line}, {new}");
        }
    }
    Ok(())
}

#[test]
fn wrong_certificates(rt: HostRuntime) -> Result<(), Fail> {
    let rows = [
        ("bound 5", "bound 6", 7, "no BadLemma 2\n", ""),
        ("p5 0 5", "p5 0 6", 7, "no Outside 5\n", ""),
        ("p5 0 5", "p5 0 4", 7, "no TooNear 4 5\n", ""),
        ("floor 2 4", "floor 2 5", 7, "no BadFloor\n", ""),
        ("corner 4 5", "corner none", 7, "no BadCorner\n", ""),
        ("swap 2 3", "swap 2 4", 7, "no BadSwap 2\n", ""),
        ("no by", "no x1>=1 by", 7, "no BoundNotShown\n", ""),
        (
            "boxpleat 3",
            "boxpleat 2",
            1,
            "",
            "document: line 3: BadForm\n",
        ),
        (
            "boxpleat 3",
            "boxpleat 33",
            1,
            "",
            "document: line 1: BadForm\n",
        ),
        (
            "lemmas 13",
            "lemmas 14",
            1,
            "",
            "document: line 36: BadForm\n",
        ),
        ("end\n", "", 1, "", "document: line 36: Cut\n"),
        ("end\n", "end", 1, "", "document: line 36: Cut\n"),
        ("end\n", "end\nx", 1, "", "document: line 37: Trailing\n"),
    ];
    ends(&rt, rt.alloc(), STAR, &rows)
}

// A strip has no drawing, be its certificate right or wrong.
#[test]
fn strips_of_certificates(rt: HostRuntime) -> Result<(), Fail> {
    let rows = [
        ("", "", 7, "no StripSheet\n", ""),
        ("bound 4", "bound 5", 7, "no StripSheet\n", ""),
        ("p5 5 3", "p5 6 3", 7, "no StripSheet\n", ""),
        (
            "sheet strip 5",
            "sheet strip",
            1,
            "",
            "document: line 2: BadForm\n",
        ),
    ];
    ends(&rt, rt.alloc(), STRIP, &rows)
}

#[test]
fn faults_of_certificates(rt: HostRuntime) -> Result<(), Fail> {
    let alloc = rt.alloc();
    for call in 1..20u64 {
        let faults = Faults { doc: call, ..NONE };
        let left = leave(&rt, alloc, "pieces", b"", STAR.as_bytes(), faults)?;
        assert_eq!(rt; left.number, 4);
        assert_eq!(rt; left.out.len(), 0);
    }
    let faults = Faults { write: 1, ..NONE };
    let left = leave(&rt, alloc, "pieces", b"", STAR.as_bytes(), faults)?;
    assert_eq!(rt; left.number, 5);
    Ok(())
}
